//! What the definitions of value and truth say, in other words.

ghost use Rattle.std.specs.Prelude.{◌≡◌, ◌↔◌, ◌<◌, ◌≤◌, ℕ, pos, true, unsigned_abs};
ghost use Rattle.dl_term.specs.declared.syntax.Lab.{Lab};
ghost use Rattle.dl_term.specs.declared.syntax.Term.{Term};
ghost use Rattle.dl_term.specs.declared.syntax.Formula.{Formula, All, Exists, Each, Any};
ghost use Rattle.dl_term.specs.State.{State};
ghost use Rattle.dl_term.specs.Names.{Names, with_number, with_message, label_of, Stored};
ghost use Rattle.dl_term.specs.Meaning.{value, holds, IsMessageOf};
ghost use Rattle.dl_term.specs.Measures.{bound, ReadsAreSmall};
ghost use Rattle.dl_term.specs.Same.{same_term, same_formula};

/// A term's value is within its bound, where all that it can read is.
pub fn values_are_bounded()
    ensures { (t : Term) (names : Names) (state : State) → ReadsAreSmall names state → unsigned_abs (value t names state) ≤ bound t }
{}

/// Quantifiers speak of each node, of some node, of each message of the tag and of some.
pub fn quantifiers_read()
    ensures all { (x : ℕ) (f : Formula) (names : Names) (state : State) →
        (holds (All x f) names state ≡ true) ↔ ((node : ℕ) → node < state.nodes → holds f (with_number names x (pos node)) state ≡ true) }
    ensures exists { (x : ℕ) (f : Formula) (names : Names) (state : State) →
        (holds (Exists x f) names state ≡ true) ↔ ((node : ℕ) × (node < state.nodes) × (holds f (with_number names x (pos node)) state ≡ true)) }
    ensures each { (m : ℕ) (label : Lab) (tag : ℕ) (f : Formula) (names : Names) (state : State) →
        (holds (Each m label tag f) names state ≡ true) ↔ ((id : ℕ) → IsMessageOf state (label_of names.own label) tag id → holds f (with_message names m (Stored (label_of names.own label) id)) state ≡ true) }
    ensures any { (m : ℕ) (label : Lab) (tag : ℕ) (f : Formula) (names : Names) (state : State) →
        (holds (Any m label tag f) names state ≡ true) ↔ ((id : ℕ) × IsMessageOf state (label_of names.own label) tag id × (holds f (with_message names m (Stored (label_of names.own label) id)) state ≡ true)) }
{}

/// Two terms, or two formulas, are the same just where they are equal.
pub fn sameness_is_equality()
    ensures terms { (s t : Term) → (same_term s t ≡ true) ↔ (s ≡ t) }
    ensures formulas { (f g : Formula) → (same_formula f g ≡ true) ↔ (f ≡ g) }
{}
