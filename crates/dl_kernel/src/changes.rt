//! The rules that change the goal or a hypothesis by an equation, and the one that adds a term's bounds.

ghost use Rattle.std.specs.Prelude.{◌≡◌, true, Some, None, Err, IfOk};
ghost use Rattle.std.specs.Option.{option_map, option_copied};
ghost use Rattle.dl_term.specs.declared.syntax.Formula.{And};
ghost use Rattle.dl_term.specs.declared.syntax.Term.{Msg};
ghost use Rattle.dl_term.specs.declared.syntax.Part.TheVariants.{Id};
ghost use Rattle.dl_sequent.specs.Clean.{is_clean};
ghost use Rattle.dl_sequent.specs.Bounds.{between as lies_between, message_of as message_named};
ghost use Rattle.dl_kernel.specs.Parts.{as_equation, as_denied};
ghost use Rattle.dl_kernel.specs.Reduced.{reduced};
ghost use Rattle.dl_kernel.specs.Steps.{part_of, with_fact, one_left, only_clean, target, put_fact as fact_put, put_target as target_put, id_of as id_meant, are_alike as alike, are_one as one, put_term as term_put, put_id as id_put, rewritten as rewritten_by, rewrite_by, reduce_by, range_of as range_meant};
ghost use Rattle.dl_kernel.specs.Seen.{one_if, IsOversized, IsStep};
ghost use Rattle.dl_kernel.specs.declared.made.StepFault.TheVariants.{Limit};

use crate::made::StepFault;
use crate::parts::{Equation, into_denied, into_equation};
use crate::quantifiers::put_message;
use crate::reduce::reduce_formula;
use crate::scope::is_fit;
use crate::sequents::{GOAL, add_fact, fact_named, place_of, set_goal, target_of};
use dl_model::{Hypothesis, Instances, Sequent};
use dl_sequent::{bounds, message_of, written_label};
use dl_subst::{SubstFault, replace};
use dl_term::{Formula, Part, Sort, Term, copy_formula, copy_term};
use sqlite_items::Boxed;
use std::alloc::{AllocError, Global};

// Puts a formula in the place of a hypothesis, and tells whether the sequent is clean then.
fn put_fact(sequent: &mut Sequent, at: u32, formula: Formula) -> bool
    requires clean { is_clean sequent.old ≡ true }
    ensures new { sequent.new ≡ record sequent.old { facts = fact_put sequent.old.facts at formula } }
    ensures clean { result ≡ is_clean sequent.new }
{
    match place_of(sequent.facts.as_slice(), at) {
        Some(place) => {
            let fits = is_fit(sequent, &formula);
            sequent.facts.set(place, Hypothesis { name: at, formula });
            fits
        }
        None => true,
    }
}

// The same in the place of the goal or of a hypothesis.
fn put_target(sequent: &mut Sequent, at: u32, formula: Formula) -> bool
    requires clean { is_clean sequent.old ≡ true }
    ensures new { sequent.new ≡ target_put sequent.old at formula }
    ensures clean { result ≡ is_clean sequent.new }
{
    if at == GOAL {
        set_goal(sequent, formula)
    } else {
        put_fact(sequent, at, formula)
    }
}

// The message whose id the term is.
#[tactic(auto, unfolding(dl_term::specs::Syntax::opened))]
fn id_of(term: &Term) -> Option<u32>
    ensures { result ≡ id_meant term.now }
{
    match term {
        Term::Msg {
            msg,
            part: Part::Id,
        } => Some(*msg),
        _ => None,
    }
}

fn are_alike(sequent: &Sequent, left: u32, right: u32) -> bool
    ensures { result ≡ alike (message_named sequent.now.messages left) (message_named sequent.now.messages right) }
{
    let messages = sequent.messages.as_slice();
    match (message_of(messages, left), message_of(messages, right)) {
        (Some(left), Some(right)) => left.1 == right.1 && left.2 == right.2,
        _ => false,
    }
}

// The formula with the right side of the equation for the left one, or None where a name is captured.
fn put_term(
    alloc: Global,
    equation: &Equation,
    formula: &Formula,
) -> Result<Option<Formula>, StepFault>
    ensures made { IfOk result (λ made. made ≡ term_put equation.now formula.now) }
    ensures limit { result ≡ Err Limit → IsOversized (term_put equation.now formula.now) }
{
    match replace(alloc, formula, &equation.left, &equation.right) {
        Ok(made) => Ok(Some(made)),
        Err(SubstFault::Capture) => Ok(None),
        Err(SubstFault::Size) => Err(StepFault::Limit),
        Err(SubstFault::Memory) => Err(StepFault::Memory),
    }
}

// Whether the ids are those of two messages that have one label and one tag.
fn are_one(sequent: &Sequent, left: Option<u32>, right: Option<u32>) -> bool
    ensures { result ≡ one sequent.now left right }
{
    let Some(left) = left else {
        return false;
    };
    match right {
        Some(right) => are_alike(sequent, left, right),
        None => false,
    }
}

// The formula with each part of the left message as that of the right one, or None where there are no two.
fn put_id(
    alloc: Global,
    left: Option<u32>,
    right: Option<u32>,
    formula: &Formula,
) -> Result<Option<Formula>, StepFault>
    ensures made { IfOk result (λ made. made ≡ id_put left right formula.now) }
    ensures limit { result ≡ Err Limit → IsOversized (id_put left right formula.now) }
{
    let Some(left) = left else {
        return Ok(None);
    };
    match right {
        Some(right) => put_message(alloc, left, formula, right),
        None => Ok(None),
    }
}

fn rewritten(
    alloc: Global,
    sequent: &Sequent,
    equation: &Equation,
    formula: &Formula,
) -> Result<Option<Formula>, StepFault>
    ensures made { IfOk result (λ made. made ≡ rewritten_by sequent.now equation.now formula.now) }
    ensures limit { result ≡ Err Limit → IsOversized (rewritten_by sequent.now equation.now formula.now) }
{
    let left = id_of(&equation.left);
    let right = id_of(&equation.right);
    if are_one(sequent, left, right) {
        put_id(alloc, left, right, formula)
    } else {
        put_term(alloc, equation, formula)
    }
}

// The equation that a hypothesis is, copied.
fn copy_equation(alloc: Global, sequent: &Sequent, hyp: u32) -> Result<Option<Equation>, AllocError>
    ensures { IfOk result (λ e. e ≡ part_of as_equation sequent.now hyp) }
{
    match fact_named(sequent.facts.as_slice(), hyp) {
        Some(fact) => Ok(into_equation(copy_formula(alloc, fact)?)),
        None => Ok(None),
    }
}

fn copy_denied(alloc: Global, sequent: &Sequent, hyp: u32) -> Result<Option<Equation>, AllocError>
    ensures { IfOk result (λ e. e ≡ part_of as_denied sequent.now hyp) }
{
    match fact_named(sequent.facts.as_slice(), hyp) {
        Some(fact) => Ok(into_denied(copy_formula(alloc, fact)?)),
        None => Ok(None),
    }
}

// The target, if there is one, rewritten by the equation.
fn rewritten_at(
    alloc: Global,
    sequent: &Sequent,
    equation: &Equation,
    formula: Option<&Formula>,
) -> Result<Option<Formula>, StepFault>
    ensures made { IfOk result (λ made. made ≡ rewrite_by sequent.now (Some equation.now) (option_copied formula.entry)) }
    ensures limit { result ≡ Err Limit → IsOversized (rewrite_by sequent.now (Some equation.now) (option_copied formula.entry)) }
{
    match formula {
        Some(formula) => rewritten(alloc, sequent, equation, formula),
        None => Ok(None),
    }
}

// The target, rewritten by the hypothesis.
fn rewritten_target(
    alloc: Global,
    sequent: &Sequent,
    hyp: u32,
    at: u32,
) -> Result<Option<Formula>, StepFault>
    ensures made { IfOk result (λ made. made ≡ rewrite_by sequent.now (part_of as_equation sequent.now hyp) (target sequent.now hyp at)) }
    ensures limit { result ≡ Err Limit → IsOversized (rewrite_by sequent.now (part_of as_equation sequent.now hyp) (target sequent.now hyp at)) }
{
    match copy_equation(alloc, sequent, hyp) {
        Ok(Some(equation)) => {
            rewritten_at(alloc, sequent, &equation, target_of(sequent, hyp, at))
        }
        Ok(None) => Ok(None),
        Err(_) => Err(StepFault::Memory),
    }
}

/// The left side of a hypothesis that is an equation becomes the right one in the goal or in another hypothesis.
pub(crate) fn rewrite(
    alloc: Global,
    sequent: &mut Sequent,
    hyp: u32,
    at: u32,
) -> Result<bool, StepFault>
    requires clean { is_clean sequent.old ≡ true }
    ensures { IsStep result sequent.new (only_clean (one_left (option_map (target_put sequent.old at) (rewrite_by sequent.old (part_of as_equation sequent.old hyp) (target sequent.old hyp at))))) }
{
    match rewritten_target(alloc, sequent, hyp, at) {
        Ok(Some(formula)) => Ok(put_target(sequent, at, formula)),
        Ok(None) => Ok(false),
        Err(fault) => Err(fault),
    }
}

// The formula, where each `if` that tests the sides of the equation is decided.
fn decided(
    alloc: Global,
    formula: &Formula,
    equation: &Equation,
    equal: bool,
) -> Result<Option<Formula>, AllocError>
    ensures { IfOk result (λ made. made ≡ Some (reduced formula.now equation.now.left equation.now.right equal)) }
{
    let made = reduce_formula(alloc, formula, &equation.left, &equation.right, equal)?;
    Ok(Some(made))
}

// The formula, decided by a hypothesis that is the negation of an equation.
fn decided_by_denial(
    alloc: Global,
    sequent: &Sequent,
    hyp: u32,
    formula: &Formula,
) -> Result<Option<Formula>, AllocError>
    ensures { IfOk result (λ made. made ≡ reduce_by None (part_of as_denied sequent.now hyp) (Some formula.now)) }
{
    match copy_denied(alloc, sequent, hyp)? {
        Some(equation) => decided(alloc, formula, &equation, false),
        None => Ok(None),
    }
}

// The target, where each `if` whose test the hypothesis decides is decided.
fn reduced_target(
    alloc: Global,
    sequent: &Sequent,
    hyp: u32,
    at: u32,
) -> Result<Option<Formula>, AllocError>
    ensures { IfOk result (λ made. made ≡ reduce_by (part_of as_equation sequent.now hyp) (part_of as_denied sequent.now hyp) (target sequent.now hyp at)) }
{
    let Some(formula) = target_of(sequent, hyp, at) else {
        return Ok(None);
    };
    match copy_equation(alloc, sequent, hyp)? {
        Some(equation) => decided(alloc, formula, &equation, true),
        None => decided_by_denial(alloc, sequent, hyp, formula),
    }
}

/// What terms `if` come to in the goal or in another hypothesis, where the hypothesis decides their tests.
pub(crate) fn reduce(
    alloc: Global,
    sequent: &mut Sequent,
    hyp: u32,
    at: u32,
) -> Result<bool, AllocError>
    requires clean { is_clean sequent.old ≡ true }
    ensures { IfOk result (λ fine. one_if fine sequent.new ≡ only_clean (one_left (option_map (target_put sequent.old at) (reduce_by (part_of as_equation sequent.old hyp) (part_of as_denied sequent.old hyp) (target sequent.old hyp at))))) }
{
    match reduced_target(alloc, sequent, hyp, at) {
        Ok(Some(formula)) => Ok(put_target(sequent, at, formula)),
        Ok(None) => Ok(false),
        Err(none) => Err(none),
    }
}

// The term is at least `low` and at most `high`.
#[tactic(auto, unfolding(dl_term::specs::Syntax::opened))]
fn between(alloc: Global, sort: Sort, term: &Term) -> Result<Formula, AllocError>
    ensures { IfOk result (λ made. made ≡ lies_between sort term.now) }
{
    let above = Formula::Le(Term::Num(sort.low), copy_term(alloc, term)?);
    let below = Formula::Le(copy_term(alloc, term)?, Term::Num(sort.high));
    both(alloc, above, below)
}

#[tactic(auto, unfolding(dl_term::specs::Syntax::opened))]
fn both(alloc: Global, left: Formula, right: Formula) -> Result<Formula, AllocError>
    ensures { IfOk result (λ made. made ≡ And left right) }
{
    let left = Boxed::new(alloc, left)?;
    let right = Boxed::new(alloc, right)?;
    Ok(Formula::And(left, right))
}

fn message_id(msg: u32) -> Term
    ensures { result ≡ Msg msg Id }
{
    Term::Msg {
        msg,
        part: Part::Id,
    }
}

// What is known of the value of a term: its bounds, or those of a length or of an id.
#[tactic(auto, unfolding(dl_term::specs::Syntax::opened))]
fn range_of(
    alloc: Global,
    inst: &Instances,
    sequent: &Sequent,
    term: &Term,
) -> Result<Option<Formula>, AllocError>
    ensures { IfOk result (λ made. made ≡ range_meant inst.now sequent.now term.now) }
{
    match term {
        Term::Len(label) => Ok(Some(Formula::Le(Term::Num(0), Term::Len(*label)))),
        Term::Msg {
            msg,
            part: Part::Id,
        } => match message_of(sequent.messages.as_slice(), *msg) {
            Some(message) => {
                let end = Term::Len(written_label(message.1));
                let above = Formula::Le(Term::Num(0), message_id(*msg));
                let below = Formula::Lt(message_id(*msg), end);
                Ok(Some(both(alloc, above, below)?))
            }
            None => Ok(None),
        },
        _ => match bounds(inst, sequent, term) {
            Some(sort) => Ok(Some(between(alloc, sort, term)?)),
            None => Ok(None),
        },
    }
}

/// What is known of the value of a term becomes a hypothesis.
pub(crate) fn range(
    alloc: Global,
    inst: &Instances,
    sequent: &mut Sequent,
    term: &Term,
    name: u32,
) -> Result<bool, AllocError>
    requires clean { is_clean sequent.old ≡ true }
    ensures { IfOk result (λ fine. one_if fine sequent.new ≡ only_clean (one_left (option_map (with_fact sequent.old name) (range_meant inst.now sequent.old term.now)))) }
{
    match range_of(alloc, inst, sequent, term) {
        Ok(Some(formula)) => add_fact(sequent, name, formula),
        Ok(None) => Ok(false),
        Err(none) => Err(none),
    }
}
