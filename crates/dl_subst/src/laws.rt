//! Where the results of substitution hold.

ghost use Rattle.std.specs.Prelude.{◌≡◌, ℕ, false};
ghost use Rattle.dl_term.specs.declared.syntax.Term.{Term};
ghost use Rattle.dl_term.specs.declared.syntax.Formula.{Formula};
ghost use Rattle.dl_term.specs.State.{State};
ghost use Rattle.dl_term.specs.Names.{Names, Given, with_number, with_message};
ghost use Rattle.dl_term.specs.Meaning.{value, holds};
ghost use Rattle.dl_subst.specs.declared.message.NewMessage.{NewMessage};
ghost use Rattle.dl_subst.specs.Change.{captures};
ghost use Rattle.dl_subst.specs.Substitution.{for_variable, for_message, for_term, new_part, substituted, message_substituted, replaced, with_own, with_label, term_with_label};

/// A formula with a term for a variable holds exactly where the formula holds with the term's value for the variable.
pub fn substitutions_hold()
    ensures { (f : Formula) (x : ℕ) (new : Term) (names : Names) (state : State) → captures (for_variable x new) f ≡ false →
        holds (substituted f x new) names state ≡ holds f (with_number names x (value new names state)) state }
{}

/// A formula with terms for the parts of a message holds exactly where the formula holds with the parts of the message
/// read as the values of these terms.
pub fn messages_hold()
    ensures { (f : Formula) (m : ℕ) (new : NewMessage) (names : Names) (state : State) → captures (for_message m new) f ≡ false →
        holds (message_substituted f m new) names state ≡ holds f (with_message names m (Given (λ part. value (new_part new part) names state))) state }
{}

/// A formula with one term for another holds exactly where the formula holds, with names and in a state that give the
/// two terms one value.
pub fn replacements_hold()
    ensures { (f : Formula) (old new : Term) (names : Names) (state : State) → captures (for_term old new) f ≡ false → value old names state ≡ value new names state →
        holds (replaced f old new) names state ≡ holds f names state }
{}

/// A formula or term with a label in place of `self` means what it means with this label as `self`.
pub fn labels_hold()
    ensures formulas { (f : Formula) (label : ℕ) (names : Names) (state : State) →
        holds (with_label f label) names state ≡ holds f (with_own names label) state }
    ensures terms { (t : Term) (label : ℕ) (names : Names) (state : State) →
        value (term_with_label t label) names state ≡ value t (with_own names label) state }
{}
