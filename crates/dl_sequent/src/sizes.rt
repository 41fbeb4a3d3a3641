//! The size of a sequent.

ghost use Rattle.std.specs.Prelude.{◌≡◌, ◌^◌, ◌-◌, min, nat_lt};
ghost use Rattle.std.specs.List.{sum_by, list_any};
ghost use Rattle.dl_term.specs.Measures.{formula_parts, formula_nesting};
ghost use Rattle.dl_model.specs.declared.sequent.Hypothesis.{Hypothesis as Fact};
ghost use Rattle.dl_sequent.specs.Sizes.{sequent_parts, nests_too_deep as too_deep, is_too_large as too_large};

use dl_model::{Hypothesis, Sequent};
use dl_term::{DEEPEST_NESTING, Formula, LARGEST_SIZE, depth, size};

fn facts_size(facts: &[Hypothesis]) -> u64
    ensures { result ≡ min (sum_by (λ (fact : Fact). formula_parts fact.formula) facts.now) (2 ^ 64 - 1) }
{
    let mut total: u64 = 0;
    for fact in facts {
        total = total.saturating_add(size(&fact.formula));
    }
    total
}

fn is_deep(formula: &Formula) -> bool
    ensures { result ≡ nat_lt 4000 (formula_nesting formula.now) }
{
    depth(formula) > DEEPEST_NESTING
}

fn some_fact_is_deep(facts: &[Hypothesis]) -> bool
    ensures { result ≡ list_any (λ (fact : Fact). nat_lt 4000 (formula_nesting fact.formula)) facts.now }
{
    facts.iter().any(|fact| is_deep(&fact.formula))
}

fn nests_too_deep(sequent: &Sequent) -> bool
    ensures { result ≡ too_deep sequent.now }
{
    some_fact_is_deep(sequent.facts.as_slice()) || is_deep(&sequent.goal)
}

/// The number of parts of the hypotheses and the goal, or the greatest u64 where that is larger.
pub fn sequent_size(sequent: &Sequent) -> u64
    ensures { result ≡ min (sequent_parts sequent.now) (2 ^ 64 - 1) }
{
    facts_size(sequent.facts.as_slice()).saturating_add(size(&sequent.goal))
}

/// Whether the sequent has more than 1,000,000 parts, or counts as one that has: a formula of it nests more than 4,000
/// deep.
pub fn is_too_large(sequent: &Sequent) -> bool
    ensures { result ≡ too_large sequent.now }
{
    sequent_size(sequent) > LARGEST_SIZE || nests_too_deep(sequent)
}
