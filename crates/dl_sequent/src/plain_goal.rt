//! Plain goals: those that follow from the hypotheses at a glance.

ghost use Rattle.std.specs.Prelude.{◌≡◌, true, Ok};
ghost use Rattle.std.specs.List.{list_any};
ghost use Rattle.dl_model.specs.declared.sequent.Hypothesis.{Hypothesis as Fact};
ghost use Rattle.dl_model.specs.Sequents.{IsValid};
ghost use Rattle.dl_sequent.specs.Clean.{IsClean};
ghost use Rattle.dl_sequent.specs.Known.{assumed as formulas_of};
ghost use Rattle.dl_sequent.specs.Plain.{compared as comparison, told as truth, is_told_true as truth_is_true, is_told_false as truth_is_false, is_part as part_of, is_at_hand as at_hand, is_plain as goal_is_plain, is_plain_sequent};

use dl_linear::constant;
use dl_model::{Hypothesis, Instances, Sequent};
use dl_term::{Formula, same_formula, same_term};
use std::alloc::{AllocError, Global};

/// What is assumed at a place in a goal: the hypotheses, and the left side of each `implies` around the place.
#[derive(Clone, Copy)]
enum Assumed<'a> {
    Facts(&'a [Hypothesis]),
    More(&'a Assumed<'a>, &'a Formula),
}

/// The truth of a comparison of two constants, by their values.
fn compared(formula: &Formula) -> Option<bool>
    ensures { result ≡ comparison formula.now }
{
    match formula {
        Formula::Eq(left, right) => Some(constant(left)? == constant(right)?),
        Formula::Lt(left, right) => Some(constant(left)? < constant(right)?),
        Formula::Le(left, right) => Some(constant(left)? <= constant(right)?),
        _ => None,
    }
}

/// The truth of a comparison of two constants, or of the negation of one.
#[tactic(auto, unfolding(dl_term::specs::Syntax::opened))]
fn told(formula: &Formula) -> Option<bool>
    ensures { result ≡ truth formula.now }
{
    match formula {
        Formula::Not(body) => compared(body.get()).map(|holds| !holds),
        _ => compared(formula),
    }
}

fn is_told_true(formula: &Formula) -> bool
    ensures { result ≡ truth_is_true formula.now }
{
    told(formula).unwrap_or(false)
}

fn is_told_false(formula: &Formula) -> bool
    ensures { result ≡ truth_is_false formula.now }
{
    !told(formula).unwrap_or(true)
}

/// Whether the formula is the whole one, or a part of it where that is a conjunction.
#[tactic(auto, unfolding(dl_term::specs::Syntax::opened))]
fn is_part(formula: &Formula, whole: &Formula) -> bool
    ensures { result ≡ part_of formula.now whole.now }
{
    match whole {
        Formula::And(left, right) => {
            same_formula(formula, whole)
                || is_part(formula, left.get())
                || is_part(formula, right.get())
        }
        _ => same_formula(formula, whole),
    }
}

fn is_fact(facts: &[Hypothesis], formula: &Formula) -> bool
    ensures { result ≡ list_any (λ (fact : Fact). part_of formula.now fact.formula) facts.now }
{
    facts.iter().any(|fact| is_part(formula, &fact.formula))
}

#[tactic(auto, using(crate::proofs::Facts::among_facts))]
fn is_assumed(assumed: &Assumed, formula: &Formula) -> bool
    ensures { result ≡ list_any (part_of formula.now) (formulas_of assumed.now) }
{
    match assumed {
        Assumed::Facts(facts) => is_fact(facts, formula),
        Assumed::More(outer, one) => is_part(formula, one) || is_assumed(outer, formula),
    }
}

/// Whether the formula is assumed, or is part of an assumed conjunction, or compares constants and is true.
fn is_at_hand(assumed: &Assumed, formula: &Formula) -> bool
    ensures { result ≡ at_hand (formulas_of assumed.now) formula.now }
{
    is_assumed(assumed, formula) || is_told_true(formula)
}

#[tactic(auto, unfolding(dl_term::specs::Syntax::opened))]
fn is_plain(assumed: &Assumed, goal: &Formula) -> bool
    ensures { result ≡ goal_is_plain (formulas_of assumed.now) goal.now }
{
    match goal {
        Formula::True => true,
        Formula::False
        | Formula::Lt(_, _)
        | Formula::Le(_, _)
        | Formula::Not(_)
        | Formula::Exists { .. }
        | Formula::Any { .. } => is_at_hand(assumed, goal),
        Formula::Eq(left, right) => is_at_hand(assumed, goal) || same_term(left, right),
        Formula::And(left, right) => {
            is_at_hand(assumed, goal)
                || is_plain(assumed, left.get()) && is_plain(assumed, right.get())
        }
        Formula::Or(left, right) => {
            is_at_hand(assumed, goal)
                || is_plain(assumed, left.get())
                || is_plain(assumed, right.get())
        }
        Formula::Implies(left, right) => {
            is_at_hand(assumed, goal)
                || is_told_false(left.get())
                || is_plain(&Assumed::More(&*assumed, left.get()), right.get())
        }
        Formula::All { body, .. } | Formula::Each { body, .. } => {
            is_at_hand(assumed, goal) || is_plain(assumed, body.get())
        }
    }
}

/// Whether the sequent's goal is plain, so that it needs no script.
///
/// A goal is plain where it is `true`, a hypothesis or a part of a conjunction that is one, an equation of a term with
/// itself, or a true comparison of constants (numbers, nodes, enumerators) or the negation of a false one. An `and` is
/// plain where both parts are, an `or` where one is, an `all` or `each` where its body is. An `implies` is plain where
/// its left side is a false comparison of constants or the negation of a true one, or where its right side is plain
/// with the left side as a further hypothesis.
///
/// The goal of a clean sequent that is plain follows from the hypotheses. The answer is never `Err`: no memory is taken.
pub fn plain(_alloc: Global, inst: &Instances, sequent: &Sequent) -> Result<bool, AllocError>
    ensures exact { result ≡ Ok (is_plain_sequent sequent.now) }
    ensures valid { IsClean sequent.now → result ≡ Ok true → IsValid inst.now sequent.now }
{
    Ok(is_plain_goal(sequent))
}

fn is_plain_goal(sequent: &Sequent) -> bool
    ensures { result ≡ is_plain_sequent sequent.now }
{
    is_plain(&Assumed::Facts(sequent.facts.as_slice()), &sequent.goal)
}
