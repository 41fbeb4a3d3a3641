//! The rules of connectives, one function each.

ghost use Rattle.std.specs.Prelude.{◌≡◌, ◌==◌, ◌||◌, ◌∷◌, [], true, Some, None, IfOk, OnOk, if◌then◌else◌};
ghost use Rattle.std.specs.List.{list_any};
ghost use Rattle.dl_term.specs.declared.syntax.Formula.{True, Not};
ghost use Rattle.dl_model.specs.declared.sequent.Hypothesis.{Hypothesis};
ghost use Rattle.dl_sequent.specs.Clean.{is_clean};
ghost use Rattle.dl_kernel.specs.Parts.{is_true as says_true, is_false as says_false, as_and, as_or, as_implication};
ghost use Rattle.dl_kernel.specs.Steps.{fact_of, part_of, with_fact, with_goal, is_the_goal, split_goal, pick_goal, intro_goal, parts_of_fact, cases_of_fact, apply_fact, only_clean};
ghost use Rattle.dl_kernel.specs.Seen.{one_if, two_if};

use crate::parts::{Two, into_and, into_implication, into_or, is_true};
use crate::sequents::{
    add_fact, copy_with_fact, copy_with_goal, fact_named, some_fact_is_false, swap_goal, take_goal,
};
use dl_model::Sequent;
use dl_term::{Formula, copy_formula, same_formula};
use sqlite_items::Boxed;
use std::alloc::{AllocError, Global};
use std::mem;

/// Whether the goal is the hypothesis.
pub(crate) fn is_by(sequent: &Sequent, hyp: u32) -> bool
    ensures { result ≡ is_the_goal (fact_of sequent.now hyp) sequent.now.goal }
{
    match fact_named(sequent.facts.as_slice(), hyp) {
        Some(fact) => same_formula(fact, &sequent.goal),
        None => false,
    }
}

/// Whether the goal is `true`, or a hypothesis `false`.
pub(crate) fn is_closed(sequent: &Sequent) -> bool
    ensures { result ≡ (says_true sequent.now.goal || list_any (λ (h : Hypothesis). says_false h.formula) sequent.now.facts) }
{
    is_true(&sequent.goal) || some_fact_is_false(sequent.facts.as_slice())
}

/// A goal `and` becomes its right part. The sequent of the left part is answered.
pub(crate) fn split(alloc: Global, sequent: &mut Sequent) -> Result<Option<Sequent>, AllocError>
    requires clean { is_clean sequent.old ≡ true }
    ensures { IfOk result (λ one. two_if one sequent.new ≡ only_clean (split_goal sequent.old (as_and sequent.old.goal))) }
{
    match into_and(take_goal(sequent)) {
        Some(mut two) => {
            let one = show_both(alloc, sequent, &mut two);
            drop(two);
            one
        }
        None => Ok(None),
    }
}

// The right one becomes the goal. The sequent of the left one is answered.
fn show_both(
    alloc: Global,
    sequent: &mut Sequent,
    two: &mut Two,
) -> Result<Option<Sequent>, AllocError>
    requires clean { is_clean sequent.old ≡ true }
    ensures { IfOk result (λ one. two_if one sequent.new ≡ only_clean (split_goal sequent.old (Some two.old))) }
{
    let one = copy_with_goal(alloc, sequent, &mut two.left)?;
    let fits = swap_goal(sequent, &mut two.right);
    Ok(if_fits(fits, one))
}

// The first one of two sequents, if the second one fits.
fn if_fits(fits: bool, one: Option<Sequent>) -> Option<Sequent>
    ensures { result ≡ (if fits then one else None) }
{
    if fits { one } else { None }
}

/// A goal `or` becomes one of its parts.
pub(crate) fn pick(sequent: &mut Sequent, part: u8) -> bool
    requires clean { is_clean sequent.old ≡ true }
    ensures { one_if result sequent.new ≡ only_clean (pick_goal sequent.old part (as_or sequent.old.goal)) }
{
    match into_or(take_goal(sequent)) {
        Some(mut two) => {
            let fits = pick_from(sequent, part, &mut two);
            drop(two);
            fits
        }
        None => false,
    }
}

fn pick_from(sequent: &mut Sequent, part: u8, two: &mut Two) -> bool
    requires clean { is_clean sequent.old ≡ true }
    ensures { one_if result sequent.new ≡ only_clean (pick_goal sequent.old part (Some two.old)) }
{
    if part == 1 {
        swap_goal(sequent, &mut two.left)
    } else if part == 2 {
        swap_goal(sequent, &mut two.right)
    } else {
        false
    }
}

// A part, in whose place `true` is left.
fn take_left(two: &mut Two) -> Formula
    ensures part { result ≡ two.old.left }
    ensures rest { two.new ≡ record two.old { left = True } }
{
    mem::replace(&mut two.left, Formula::True)
}

fn take_right(two: &mut Two) -> Formula
    ensures part { result ≡ two.old.right }
    ensures rest { two.new ≡ record two.old { right = True } }
{
    mem::replace(&mut two.right, Formula::True)
}

/// What a goal `implies` or `not` asks for becomes a hypothesis.
pub(crate) fn intro(sequent: &mut Sequent, name: u32) -> Result<bool, AllocError>
    requires clean { is_clean sequent.old ≡ true }
    ensures { IfOk result (λ fine. one_if fine sequent.new ≡ only_clean (intro_goal sequent.old name (as_implication sequent.old.goal))) }
{
    match into_implication(take_goal(sequent)) {
        Some(mut two) => {
            let fits = suppose(sequent, name, &mut two);
            drop(two);
            fits
        }
        None => Ok(false),
    }
}

// The right one becomes the goal, and the left one a hypothesis.
fn suppose(sequent: &mut Sequent, name: u32, two: &mut Two) -> Result<bool, AllocError>
    requires clean { is_clean sequent.old ≡ true }
    ensures { IfOk result (λ fine. one_if fine sequent.new ≡ only_clean (intro_goal sequent.old name (Some two.old))) }
{
    if swap_goal(sequent, &mut two.right) {
        add_fact(sequent, name, take_left(two))
    } else {
        Ok(false)
    }
}

/// Both parts of a hypothesis `and` become hypotheses.
pub(crate) fn parts(
    alloc: Global,
    sequent: &mut Sequent,
    hyp: u32,
    left: u32,
    right: u32,
) -> Result<bool, AllocError>
    requires clean { is_clean sequent.old ≡ true }
    ensures { IfOk result (λ fine. one_if fine sequent.new ≡ only_clean (parts_of_fact sequent.old left right (part_of as_and sequent.old hyp))) }
{
    match copy_and(alloc, sequent, hyp)? {
        Some(mut two) => {
            let fits = add_both(sequent, left, right, &mut two);
            drop(two);
            fits
        }
        None => Ok(false),
    }
}

fn add_both(sequent: &mut Sequent, left: u32, right: u32, two: &mut Two) -> Result<bool, AllocError>
    requires clean { is_clean sequent.old ≡ true }
    ensures { IfOk result (λ fine. one_if fine sequent.new ≡ only_clean (parts_of_fact sequent.old left right (Some two.old))) }
{
    let fits = add_fact(sequent, left, take_left(two))?;
    if fits {
        add_fact(sequent, right, take_right(two))
    } else {
        Ok(false)
    }
}

/// The right part of a hypothesis `or` becomes a hypothesis. The sequent with the left one is answered.
pub(crate) fn cases(
    alloc: Global,
    sequent: &mut Sequent,
    hyp: u32,
    name: u32,
) -> Result<Option<Sequent>, AllocError>
    requires clean { is_clean sequent.old ≡ true }
    ensures { IfOk result (λ one. two_if one sequent.new ≡ only_clean (cases_of_fact sequent.old name (part_of as_or sequent.old hyp))) }
{
    match copy_or(alloc, sequent, hyp)? {
        Some(mut two) => {
            let one = add_either(alloc, sequent, name, &mut two);
            drop(two);
            one
        }
        None => Ok(None),
    }
}

// The right one becomes a hypothesis. The sequent with the left one is answered.
fn add_either(
    alloc: Global,
    sequent: &mut Sequent,
    name: u32,
    two: &mut Two,
) -> Result<Option<Sequent>, AllocError>
    requires clean { is_clean sequent.old ≡ true }
    ensures { IfOk result (λ one. two_if one sequent.new ≡ only_clean (cases_of_fact sequent.old name (Some two.old))) }
{
    let one = copy_with_fact(alloc, sequent, name, &mut two.left)?;
    add_beside(sequent, name, take_right(two), one)
}

// Adds a hypothesis, and hands on the sequent beside it, unless this one isn't clean then.
fn add_beside(
    sequent: &mut Sequent,
    name: u32,
    formula: Formula,
    one: Option<Sequent>,
) -> Result<Option<Sequent>, AllocError>
    requires clean { is_clean sequent.old ≡ true }
    ensures new { OnOk result (sequent.new ≡ with_fact sequent.old name formula) }
    ensures one { IfOk result (λ beside. beside ≡ (if is_clean (with_fact sequent.old name formula) then one else None)) }
{
    match add_fact(sequent, name, formula) {
        Ok(fits) => Ok(if_fits(fits, one)),
        Err(error) => Err(error),
    }
}

/// What a hypothesis `implies` or `not` gives becomes a hypothesis. The sequent of what it asks for is answered.
pub(crate) fn apply(
    alloc: Global,
    sequent: &mut Sequent,
    hyp: u32,
    name: u32,
) -> Result<Option<Sequent>, AllocError>
    requires clean { is_clean sequent.old ≡ true }
    ensures { IfOk result (λ one. two_if one sequent.new ≡ only_clean (apply_fact sequent.old name (part_of as_implication sequent.old hyp))) }
{
    match copy_implication(alloc, sequent, hyp)? {
        Some(mut two) => {
            let one = show_first(alloc, sequent, name, &mut two);
            drop(two);
            one
        }
        None => Ok(None),
    }
}

// The right one becomes a hypothesis. The sequent of the left one is answered.
fn show_first(
    alloc: Global,
    sequent: &mut Sequent,
    name: u32,
    two: &mut Two,
) -> Result<Option<Sequent>, AllocError>
    requires clean { is_clean sequent.old ≡ true }
    ensures { IfOk result (λ one. two_if one sequent.new ≡ only_clean (apply_fact sequent.old name (Some two.old))) }
{
    let one = copy_with_goal(alloc, sequent, &mut two.left)?;
    add_beside(sequent, name, take_right(two), one)
}

/// A formula becomes a hypothesis. The sequent in which it is to be shown is answered.
pub(crate) fn have(
    alloc: Global,
    sequent: &mut Sequent,
    formula: &Formula,
    name: u32,
) -> Result<Option<Sequent>, AllocError>
    requires clean { is_clean sequent.old ≡ true }
    ensures { IfOk result (λ one. two_if one sequent.new ≡ only_clean (Some (with_goal sequent.old formula.now ∷ with_fact sequent.old name formula.now ∷ []))) }
{
    let mut two = twice(alloc, formula)?;
    let one = show_first(alloc, sequent, name, &mut two);
    drop(two);
    one
}

/// The negation of a formula becomes a hypothesis. The sequent with the formula itself is answered.
pub(crate) fn decide(
    alloc: Global,
    sequent: &mut Sequent,
    formula: &Formula,
    name: u32,
) -> Result<Option<Sequent>, AllocError>
    requires clean { is_clean sequent.old ≡ true }
    ensures { IfOk result (λ one. two_if one sequent.new ≡ only_clean (Some (with_fact sequent.old name formula.now ∷ with_fact sequent.old name (Not formula.now) ∷ []))) }
{
    let mut two = both_ways(alloc, formula)?;
    let one = add_either(alloc, sequent, name, &mut two);
    drop(two);
    one
}

// Two copies of a formula.
fn twice(alloc: Global, formula: &Formula) -> Result<Two, AllocError>
    ensures { IfOk result (λ two. two ≡ record { left = formula.now; right = formula.now }) }
{
    let left = copy_formula(alloc, formula)?;
    match copy_formula(alloc, formula) {
        Ok(right) => Ok(Two { left, right }),
        Err(error) => {
            drop(left);
            Err(error)
        }
    }
}

// A copy of a formula, and its negation.
fn both_ways(alloc: Global, formula: &Formula) -> Result<Two, AllocError>
    ensures { IfOk result (λ two. two ≡ record { left = formula.now; right = Not formula.now }) }
{
    let left = copy_formula(alloc, formula)?;
    let right = denial(alloc, formula)?;
    Ok(Two { left, right })
}

#[tactic(auto, unfolding(dl_term::specs::Syntax::opened))]
fn denial(alloc: Global, formula: &Formula) -> Result<Formula, AllocError>
    ensures { IfOk result (λ made. made ≡ Not formula.now) }
{
    let formula = copy_formula(alloc, formula)?;
    Ok(Formula::Not(Boxed::new(alloc, formula)?))
}

// The parts of a hypothesis, copied. It is None where the hypothesis is none, or isn't made so.
fn copy_and(alloc: Global, sequent: &Sequent, hyp: u32) -> Result<Option<Two>, AllocError>
    ensures { IfOk result (λ two. two ≡ part_of as_and sequent.now hyp) }
{
    match fact_named(sequent.facts.as_slice(), hyp) {
        Some(fact) => Ok(into_and(copy_formula(alloc, fact)?)),
        None => Ok(None),
    }
}

fn copy_or(alloc: Global, sequent: &Sequent, hyp: u32) -> Result<Option<Two>, AllocError>
    ensures { IfOk result (λ two. two ≡ part_of as_or sequent.now hyp) }
{
    match fact_named(sequent.facts.as_slice(), hyp) {
        Some(fact) => Ok(into_or(copy_formula(alloc, fact)?)),
        None => Ok(None),
    }
}

fn copy_implication(alloc: Global, sequent: &Sequent, hyp: u32) -> Result<Option<Two>, AllocError>
    ensures { IfOk result (λ two. two ≡ part_of as_implication sequent.now hyp) }
{
    match fact_named(sequent.facts.as_slice(), hyp) {
        Some(fact) => Ok(into_implication(copy_formula(alloc, fact)?)),
        None => Ok(None),
    }
}
