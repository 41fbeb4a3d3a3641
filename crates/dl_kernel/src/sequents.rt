//! Whole sequents: what rules read of them and change in them.

ghost use Rattle.std.specs.Prelude.{◌≡◌, ◌==◌, ◌&&◌, ◌++◌, ◌∷◌, [], not, true, IfOk, OnOk};
ghost use Rattle.std.specs.Option.{option_copied};
ghost use Rattle.std.specs.List.{list_any, position};
ghost use Rattle.dl_term.specs.declared.syntax.Formula.{True};
ghost use Rattle.dl_model.specs.declared.sequent.Hypothesis.{Hypothesis as Fact};
ghost use Rattle.dl_model.specs.Sorts.{has};
ghost use Rattle.dl_sequent.specs.Clean.{is_clean, is_told_apart, var_names, message_names, fact_names};
ghost use Rattle.dl_kernel.specs.Parts.{is_false as says_false};
ghost use Rattle.dl_kernel.specs.Steps.{fact_in, with_fact, with_goal, target};
ghost use Rattle.dl_kernel.specs.Seen.{if_clean};

use crate::parts::is_false;
use crate::scope::{is_fact, is_fit};
use dl_model::{Hypothesis, Sequent};
use dl_term::{Formula, copy_formula};
use sqlite_items::Items;
use std::alloc::{AllocError, Global};
use std::mem;

/// The number of the word `goal`.
pub(crate) const GOAL: u32 = 8;

/// The hypothesis with the name.
pub(crate) fn fact_named(facts: &[Hypothesis], name: u32) -> Option<&Formula>
    ensures { option_copied result ≡ fact_in facts.now name }
{
    facts
        .iter()
        .find(|fact| fact.name == name)
        .map(|fact| &fact.formula)
}

/// The place of the hypothesis with the name.
pub(crate) fn place_of(facts: &[Hypothesis], name: u32) -> Option<usize>
    ensures { result ≡ position (λ (h : Fact). h.name == name) facts.now }
{
    facts.iter().position(|fact| fact.name == name)
}

/// Whether a hypothesis is `false`.
pub(crate) fn some_fact_is_false(facts: &[Hypothesis]) -> bool
    ensures { result ≡ list_any (λ (h : Fact). says_false h.formula) facts.now }
{
    facts.iter().any(|fact| is_false(&fact.formula))
}

/// The goal, in whose place `true` is left.
pub(crate) fn take_goal(sequent: &mut Sequent) -> Formula
    requires clean { is_clean sequent.old ≡ true }
    ensures rest { sequent.new ≡ with_goal sequent.old True }
    ensures goal { result ≡ sequent.old.goal }
    ensures clean { is_clean sequent.new ≡ true }
{
    mem::replace(&mut sequent.goal, Formula::True)
}

// Whether a clean sequent stays clean with another goal.
fn allows_goal(sequent: &Sequent, goal: &Formula) -> bool
    requires { is_clean sequent.now ≡ true }
    ensures { result ≡ is_clean (with_goal sequent.now goal.now) }
{
    is_fit(sequent, goal)
}

/// Puts another goal, and tells whether the sequent is clean then. The goal is taken from its place, where the old one
/// is left.
pub(crate) fn swap_goal(sequent: &mut Sequent, goal: &mut Formula) -> bool
    requires clean { is_clean sequent.old ≡ true }
    ensures new { sequent.new ≡ with_goal sequent.old goal.old }
    ensures clean { result ≡ is_clean sequent.new }
{
    let fits = allows_goal(sequent, goal);
    mem::swap(&mut sequent.goal, goal);
    fits
}

/// Puts another goal, and tells whether the sequent is clean then.
pub(crate) fn set_goal(sequent: &mut Sequent, goal: Formula) -> bool
    requires clean { is_clean sequent.old ≡ true }
    ensures new { sequent.new ≡ with_goal sequent.old goal }
    ensures clean { result ≡ is_clean sequent.new }
{
    let mut goal = goal;
    swap_goal(sequent, &mut goal)
}

// Whether no hypothesis has the name, and the formula tells its names apart among those of the sequent.
fn is_new_and_fit(sequent: &Sequent, name: u32, formula: &Formula) -> bool
    ensures { result ≡ (not (has (fact_names sequent.now) name) && is_told_apart (var_names sequent.now) (message_names sequent.now) formula.now) }
{
    !is_fact(sequent.facts.as_slice(), name) && is_fit(sequent, formula)
}

// Whether a clean sequent stays clean with a further hypothesis.
fn allows_fact(sequent: &Sequent, name: u32, formula: &Formula) -> bool
    requires { is_clean sequent.now ≡ true }
    ensures { result ≡ is_clean (with_fact sequent.now name formula.now) }
{
    is_new_and_fit(sequent, name, formula)
}

/// Adds a hypothesis, and tells whether the sequent is clean then.
pub(crate) fn add_fact(
    sequent: &mut Sequent,
    name: u32,
    formula: Formula,
) -> Result<bool, AllocError>
    requires clean { is_clean sequent.old ≡ true }
    ensures new { OnOk result (sequent.new ≡ with_fact sequent.old name formula) }
    ensures clean { IfOk result (λ fine. fine ≡ is_clean sequent.new) }
{
    let fits = allows_fact(sequent, name, &formula);
    sequent.facts.push(Hypothesis { name, formula })?;
    Ok(fits)
}

fn copy_facts(alloc: Global, facts: &[Hypothesis]) -> Result<Items<Hypothesis>, AllocError>
    ensures { IfOk result (λ copy. copy ≡ facts.now) }
{
    let mut copy = Items::new(alloc);
    for fact in facts {
        add_copy(alloc, &mut copy, fact)?;
    }
    Ok(copy)
}

fn add_copy(
    alloc: Global,
    facts: &mut Items<Hypothesis>,
    fact: &Hypothesis,
) -> Result<(), AllocError>
    ensures { OnOk result (facts.new ≡ facts.old ++ fact.now ∷ []) }
{
    let formula = copy_formula(alloc, &fact.formula)?;
    facts.push(Hypothesis {
        name: fact.name,
        formula,
    })
}

/// A copy with another goal, if that is clean. The goal is taken from its place, where another formula is left.
pub(crate) fn copy_with_goal(
    alloc: Global,
    sequent: &Sequent,
    goal: &mut Formula,
) -> Result<Option<Sequent>, AllocError>
    requires clean { is_clean sequent.now ≡ true }
    ensures { IfOk result (λ one. one ≡ if_clean (with_goal sequent.now goal.old)) }
{
    if !allows_goal(sequent, goal) {
        return Ok(None);
    }
    match copy_for(alloc, sequent, goal) {
        Ok(one) => Ok(Some(one)),
        Err(error) => Err(error),
    }
}

// A copy with the goal `true`.
fn copy_rest(alloc: Global, sequent: &Sequent) -> Result<Sequent, AllocError>
    ensures { IfOk result (λ one. one ≡ with_goal sequent.now True) }
{
    let vars = Items::from_slice(alloc, sequent.vars.as_slice())?;
    let messages = Items::from_slice(alloc, sequent.messages.as_slice())?;
    let facts = copy_facts(alloc, sequent.facts.as_slice())?;
    Ok(Sequent {
        vars,
        messages,
        facts,
        goal: Formula::True,
        own: sequent.own,
    })
}

fn copy_for(alloc: Global, sequent: &Sequent, goal: &mut Formula) -> Result<Sequent, AllocError>
    ensures { IfOk result (λ one. one ≡ with_goal sequent.now goal.old) }
{
    let mut one = copy_rest(alloc, sequent)?;
    mem::swap(&mut one.goal, goal);
    Ok(one)
}

/// A copy with a further hypothesis, if that is clean. The formula is taken from its place, where another is left.
pub(crate) fn copy_with_fact(
    alloc: Global,
    sequent: &Sequent,
    name: u32,
    formula: &mut Formula,
) -> Result<Option<Sequent>, AllocError>
    requires clean { is_clean sequent.now ≡ true }
    ensures { IfOk result (λ one. one ≡ if_clean (with_fact sequent.now name formula.old)) }
{
    if !allows_fact(sequent, name, formula) {
        return Ok(None);
    }
    match copy_adding(alloc, sequent, name, formula) {
        Ok(one) => Ok(Some(one)),
        Err(error) => Err(error),
    }
}

fn copy_adding(
    alloc: Global,
    sequent: &Sequent,
    name: u32,
    formula: &mut Formula,
) -> Result<Sequent, AllocError>
    ensures { IfOk result (λ one. one ≡ with_fact sequent.now name formula.old) }
{
    let mut one = copy_sequent(alloc, sequent)?;
    match push_fact(&mut one, name, formula) {
        Ok(()) => Ok(one),
        Err(error) => {
            drop(one);
            Err(error)
        }
    }
}

fn push_fact(sequent: &mut Sequent, name: u32, formula: &mut Formula) -> Result<(), AllocError>
    ensures { OnOk result (sequent.new ≡ with_fact sequent.old name formula.old) }
{
    let formula = mem::replace(formula, Formula::True);
    sequent.facts.push(Hypothesis { name, formula })
}

fn copy_sequent(alloc: Global, sequent: &Sequent) -> Result<Sequent, AllocError>
    ensures { IfOk result (λ copy. copy ≡ sequent.now) }
{
    let mut goal = copy_formula(alloc, &sequent.goal)?;
    copy_for(alloc, sequent, &mut goal)
}

/// The goal or the hypothesis that a rule changes, which is not the one that it uses.
pub(crate) fn target_of(sequent: &Sequent, hyp: u32, at: u32) -> Option<&Formula>
    ensures { option_copied result ≡ target sequent.now hyp at }
{
    if at == GOAL {
        Some(&sequent.goal)
    } else if at == hyp {
        None
    } else {
        fact_named(sequent.facts.as_slice(), at)
    }
}
