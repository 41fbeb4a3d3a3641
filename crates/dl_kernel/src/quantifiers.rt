//! The rules of quantifiers.

ghost use Rattle.std.specs.Prelude.{◌≡◌, ◌∷◌, [], true, Some, None, Err, IfOk, if◌then◌else◌};
ghost use Rattle.std.specs.Option.{option_map, option_and_then};
ghost use Rattle.dl_sequent.specs.Clean.{is_clean};
ghost use Rattle.dl_term.specs.declared.syntax.Term.{Msg};
ghost use Rattle.dl_term.specs.declared.syntax.Formula.{True};
ghost use Rattle.dl_sequent.specs.Clean.{is_new as is_new_name};
ghost use Rattle.dl_sequent.specs.Bounds.{message_of as message_named};
ghost use Rattle.dl_kernel.specs.Parts.{as_universal, as_existential};
ghost use Rattle.dl_kernel.specs.Steps.{part_of, with_fact, with_goal, one_left, only_clean, parts_of, put_node as node_put, put_message as message_put, label_number as number_of_label, with_new, at_new as new_at, enter, given_node as node_given, given_message as message_given, is_allowed as may_be_given, at_node as node_at, is_message_of as stands_for, at_message as message_at, instance as instance_meant};
ghost use Rattle.dl_kernel.specs.Seen.{one_if, IsOversized, IsStep, IsNamed, IsNamedTooLarge, put_parts as parts_put};
ghost use Rattle.dl_kernel.specs.declared.made.StepFault.TheVariants.{Limit};

use crate::made::StepFault;
use crate::parts::{Quantified, into_existential, into_universal};
use crate::scope::{is_fact, is_new, is_of};
use crate::sequents::{add_fact, fact_named, set_goal, take_goal};
use dl_model::{Instances, Sequent};
use dl_sequent::{Given, is_node_term, message_of, node_sort, sort_of};
use dl_subst::{NewMessage, SubstFault, substitute, substitute_message};
use dl_term::{Formula, Lab, Part, Term, copy_formula};
use sqlite_items::Items;
use std::alloc::{AllocError, Global};

/// The formula with the term for the variable, or None where a name is captured.
pub(crate) fn put_node(
    alloc: Global,
    sym: u32,
    body: &Formula,
    term: &Term,
) -> Result<Option<Formula>, StepFault>
    ensures made { IfOk result (λ made. made ≡ node_put sym body.now term.now) }
    ensures limit { result ≡ Err Limit → IsOversized (node_put sym body.now term.now) }
{
    match substitute(alloc, body, sym, term) {
        Ok(made) => Ok(Some(made)),
        Err(SubstFault::Capture) => Ok(None),
        Err(SubstFault::Size) => Err(StepFault::Limit),
        Err(SubstFault::Memory) => Err(StepFault::Memory),
    }
}

/// The formula with each part of the message as that of the other one, or None where a name is captured.
pub(crate) fn put_message(
    alloc: Global,
    msg: u32,
    body: &Formula,
    other: u32,
) -> Result<Option<Formula>, StepFault>
    ensures made { IfOk result (λ made. made ≡ message_put msg body.now other) }
    ensures limit { result ≡ Err Limit → IsOversized (message_put msg body.now other) }
{
    match message_parts(alloc, other) {
        Ok(new) => put_parts(alloc, msg, body, &new),
        Err(_) => Err(StepFault::Memory),
    }
}

// The formula with the new terms for the parts of the message, or None where a name is captured.
fn put_parts(
    alloc: Global,
    msg: u32,
    body: &Formula,
    new: &NewMessage,
) -> Result<Option<Formula>, StepFault>
    ensures made { IfOk result (λ made. made ≡ parts_put msg body.now new.now) }
    ensures limit { result ≡ Err Limit → IsOversized (parts_put msg body.now new.now) }
{
    match substitute_message(alloc, body, msg, new) {
        Ok(made) => Ok(Some(made)),
        Err(SubstFault::Capture) => Ok(None),
        Err(SubstFault::Size) => Err(StepFault::Limit),
        Err(SubstFault::Memory) => Err(StepFault::Memory),
    }
}

fn part(msg: u32, part: Part) -> Term
    ensures { result ≡ Msg msg part }
{
    Term::Msg { msg, part }
}

// The parts of a message, as terms.
fn message_parts(alloc: Global, msg: u32) -> Result<NewMessage, AllocError>
    ensures { IfOk result (λ new. new ≡ parts_of msg) }
{
    let args = message_args(alloc, msg)?;
    Ok(NewMessage {
        id: part(msg, Part::Id),
        from: part(msg, Part::From),
        to: part(msg, Part::To),
        live: part(msg, Part::Live),
        args,
    })
}

fn message_args(alloc: Global, msg: u32) -> Result<Items<Term>, AllocError>
    ensures { IfOk result (λ args. args ≡ (parts_of msg).args) }
{
    let mut args = Items::new(alloc);
    args.push(part(msg, Part::Arg(0)))?;
    args.push(part(msg, Part::Arg(1)))?;
    args.push(part(msg, Part::Arg(2)))?;
    args.push(part(msg, Part::Arg(3)))?;
    args.push(part(msg, Part::Arg(4)))?;
    args.push(part(msg, Part::Arg(5)))?;
    args.push(part(msg, Part::Arg(6)))?;
    args.push(part(msg, Part::Arg(7)))?;
    Ok(args)
}

/// The number that a sequent writes for a label.
fn label_number(label: Lab) -> Option<u8>
    ensures { result ≡ number_of_label label }
{
    match label {
        Lab::Own => Some(u8::MAX),
        Lab::At(label) => if label == u8::MAX { None } else { Some(label) },
    }
}

// Adds the new name, and tells whether a sequent has a number for its label.
fn add_name(
    inst: &Instances,
    sequent: &mut Sequent,
    name: u32,
    quantified: &Quantified,
) -> Result<bool, AllocError>
    ensures { IfOk result (λ fine. (if fine then Some sequent.new else None) ≡ with_new inst.now sequent.old name quantified.now) }
{
    match quantified {
        Quantified::Nodes { .. } => {
            sequent.vars.push((name, node_sort(inst)))?;
            Ok(true)
        }
        Quantified::Messages { label, tag, .. } => match label_number(*label) {
            Some(number) => {
                sequent.messages.push((name, number, *tag))?;
                Ok(true)
            }
            None => Ok(false),
        },
    }
}

// What a quantified formula says of the new name.
fn at_new(alloc: Global, name: u32, quantified: &Quantified) -> Result<Option<Formula>, StepFault>
    ensures made { IfOk result (λ made. made ≡ new_at name quantified.now) }
    ensures limit { result ≡ Err Limit → IsOversized (new_at name quantified.now) }
{
    match quantified {
        Quantified::Nodes { sym, body } => put_node(alloc, *sym, body, &Term::Var(name)),
        Quantified::Messages { msg, body, .. } => put_message(alloc, *msg, body, name),
    }
}

// The goal at the new name, which the sequent has then, and `true` in the goal's place.
fn name_goal(
    alloc: Global,
    inst: &Instances,
    sequent: &mut Sequent,
    name: u32,
) -> Result<Option<Formula>, StepFault>
    requires clean { is_clean sequent.old ≡ true }
    ensures made { IfOk result (λ made. IsNamed inst.now (with_goal sequent.old True) sequent.new name (as_universal sequent.old.goal) made) }
    ensures limit { result ≡ Err Limit → IsNamedTooLarge inst.now (with_goal sequent.old True) sequent.new name (as_universal sequent.old.goal) }
{
    let quantified = into_universal(take_goal(sequent));
    let made = name_within(alloc, inst, sequent, name, &quantified);
    drop(quantified);
    made
}

// The same for a hypothesis `some` or `any`.
fn name_fact(
    alloc: Global,
    inst: &Instances,
    sequent: &mut Sequent,
    hyp: u32,
    name: u32,
) -> Result<Option<Formula>, StepFault>
    ensures made { IfOk result (λ made. IsNamed inst.now sequent.old sequent.new name (part_of as_existential sequent.old hyp) made) }
    ensures limit { result ≡ Err Limit → IsNamedTooLarge inst.now sequent.old sequent.new name (part_of as_existential sequent.old hyp) }
{
    match copy_existential(alloc, sequent, hyp) {
        Ok(quantified) => {
            let made = name_within(alloc, inst, sequent, name, &quantified);
            drop(quantified);
            made
        }
        Err(_) => Err(StepFault::Memory),
    }
}

// The same, if there is a quantifier.
fn name_within(
    alloc: Global,
    inst: &Instances,
    sequent: &mut Sequent,
    name: u32,
    quantified: &Option<Quantified>,
) -> Result<Option<Formula>, StepFault>
    ensures made { IfOk result (λ made. IsNamed inst.now sequent.old sequent.new name quantified.now made) }
    ensures limit { result ≡ Err Limit → IsNamedTooLarge inst.now sequent.old sequent.new name quantified.now }
{
    match quantified {
        Some(one) => name_in(alloc, inst, sequent, name, one),
        None => Ok(None),
    }
}

// What is said of the new name, which the sequent has then.
fn name_in(
    alloc: Global,
    inst: &Instances,
    sequent: &mut Sequent,
    name: u32,
    quantified: &Quantified,
) -> Result<Option<Formula>, StepFault>
    ensures made { IfOk result (λ made. IsNamed inst.now sequent.old sequent.new name (Some quantified.now) made) }
    ensures limit { result ≡ Err Limit → IsNamedTooLarge inst.now sequent.old sequent.new name (Some quantified.now) }
{
    match add_name(inst, sequent, name, quantified) {
        Ok(fine) => if fine {
            at_new(alloc, name, quantified)
        } else {
            Ok(None)
        },
        Err(_) => Err(StepFault::Memory),
    }
}

/// A goal `all` or `each`, for a new variable or message.
pub(crate) fn open(
    alloc: Global,
    inst: &Instances,
    sequent: &mut Sequent,
    name: u32,
) -> Result<bool, StepFault>
    requires clean { is_clean sequent.old ≡ true }
    ensures { IsStep result sequent.new (only_clean (enter with_goal inst.now sequent.old name (as_universal sequent.old.goal))) }
{
    if !is_new(sequent, name) {
        return Ok(false);
    }
    match name_goal(alloc, inst, sequent, name) {
        Ok(Some(formula)) => Ok(set_goal(sequent, formula)),
        Ok(None) => Ok(false),
        Err(fault) => Err(fault),
    }
}

/// What a hypothesis `some` or `any` says, for a new variable or message, becomes a hypothesis.
pub(crate) fn unpack(
    alloc: Global,
    inst: &Instances,
    sequent: &mut Sequent,
    hyp: u32,
    new: u32,
    name: u32,
) -> Result<bool, StepFault>
    requires clean { is_clean sequent.old ≡ true }
    ensures { IsStep result sequent.new (only_clean (enter (λ t. with_fact t name) inst.now sequent.old new (part_of as_existential sequent.old hyp))) }
{
    if !is_new(sequent, new) {
        return Ok(false);
    }
    if is_fact(sequent.facts.as_slice(), name) {
        return Ok(false);
    }
    match name_fact(alloc, inst, sequent, hyp, new) {
        Ok(Some(formula)) => assume(sequent, name, formula),
        Ok(None) => Ok(false),
        Err(fault) => Err(fault),
    }
}

// Adds a hypothesis, and tells whether the sequent is clean then.
fn assume(sequent: &mut Sequent, name: u32, formula: Formula) -> Result<bool, StepFault>
    requires clean { is_clean sequent.old ≡ true }
    ensures { IsStep result sequent.new (only_clean (Some (with_fact sequent.old name formula ∷ []))) }
{
    match add_fact(sequent, name, formula) {
        Ok(fine) => Ok(fine),
        Err(_) => Err(StepFault::Memory),
    }
}

// What the hypothesis says of each node or message, copied, or of some.
fn copy_universal(
    alloc: Global,
    sequent: &Sequent,
    hyp: u32,
) -> Result<Option<Quantified>, AllocError>
    ensures { IfOk result (λ q. q ≡ part_of as_universal sequent.now hyp) }
{
    match fact_named(sequent.facts.as_slice(), hyp) {
        Some(fact) => Ok(into_universal(copy_formula(alloc, fact)?)),
        None => Ok(None),
    }
}

fn copy_existential(
    alloc: Global,
    sequent: &Sequent,
    hyp: u32,
) -> Result<Option<Quantified>, AllocError>
    ensures { IfOk result (λ q. q ≡ part_of as_existential sequent.now hyp) }
{
    match fact_named(sequent.facts.as_slice(), hyp) {
        Some(fact) => Ok(into_existential(copy_formula(alloc, fact)?)),
        None => Ok(None),
    }
}

// Whether the term is a node term whose names are those of the sequent.
fn is_allowed(inst: &Instances, sequent: &Sequent, term: &Term) -> bool
    ensures { result ≡ may_be_given inst.now sequent.now term.now }
{
    is_node_term(inst, sequent, term) && is_of(sequent, term)
}

// The formula at a node that is given, or None where it is no node term of the sequent.
fn at_node(
    alloc: Global,
    inst: &Instances,
    sequent: &Sequent,
    term: &Term,
    sym: u32,
    body: &Formula,
) -> Result<Option<Formula>, StepFault>
    ensures made { IfOk result (λ made. made ≡ node_at inst.now sequent.now (Some term.now) sym body.now) }
    ensures limit { result ≡ Err Limit → IsOversized (node_at inst.now sequent.now (Some term.now) sym body.now) }
{
    if is_allowed(inst, sequent, term) {
        put_node(alloc, sym, body, term)
    } else {
        Ok(None)
    }
}

fn at_given_node(
    alloc: Global,
    inst: &Instances,
    sequent: &Sequent,
    what: &Given,
    sym: u32,
    body: &Formula,
) -> Result<Option<Formula>, StepFault>
    ensures made { IfOk result (λ made. made ≡ node_at inst.now sequent.now (node_given sequent.now what.now) sym body.now) }
    ensures limit { result ≡ Err Limit → IsOversized (node_at inst.now sequent.now (node_given sequent.now what.now) sym body.now) }
{
    match what {
        Given::Node(term) => at_node(alloc, inst, sequent, term, sym, body),
        Given::Message(name) => {
            if sort_of(sequent.vars.as_slice(), *name).is_some() {
                at_node(alloc, inst, sequent, &Term::Var(*name), sym, body)
            } else {
                Ok(None)
            }
        }
    }
}

fn is_message_of(sequent: &Sequent, name: u32, label: Lab, tag: u8) -> bool
    ensures { result ≡ stands_for (message_named sequent.now.messages name) (number_of_label label) tag }
{
    match (
        message_of(sequent.messages.as_slice(), name),
        label_number(label),
    ) {
        (Some(message), Some(label)) => message.1 == label && message.2 == tag,
        _ => false,
    }
}

fn at_given_message(
    alloc: Global,
    sequent: &Sequent,
    what: &Given,
    msg: u32,
    label: Lab,
    tag: u8,
    body: &Formula,
) -> Result<Option<Formula>, StepFault>
    ensures made { IfOk result (λ made. made ≡ message_at sequent.now (message_given what.now) msg label tag body.now) }
    ensures limit { result ≡ Err Limit → IsOversized (message_at sequent.now (message_given what.now) msg label tag body.now) }
{
    match what {
        Given::Message(name) => {
            if is_message_of(sequent, *name, label, tag) {
                put_message(alloc, msg, body, *name)
            } else {
                Ok(None)
            }
        }
        Given::Node(_) => Ok(None),
    }
}

// What a quantified formula says of what is given.
fn instance(
    alloc: Global,
    inst: &Instances,
    sequent: &Sequent,
    what: &Given,
    quantified: &Quantified,
) -> Result<Option<Formula>, StepFault>
    ensures made { IfOk result (λ made. made ≡ instance_meant inst.now sequent.now what.now quantified.now) }
    ensures limit { result ≡ Err Limit → IsOversized (instance_meant inst.now sequent.now what.now quantified.now) }
{
    match quantified {
        Quantified::Nodes { sym, body } => { at_given_node(alloc, inst, sequent, what, *sym, body) }
        Quantified::Messages {
            msg,
            label,
            tag,
            body,
        } => at_given_message(alloc, sequent, what, *msg, *label, *tag, body),
    }
}

// What the goal says of what is given, and `true` in the goal's place.
fn goal_instance(
    alloc: Global,
    inst: &Instances,
    sequent: &mut Sequent,
    what: &Given,
) -> Result<Option<Formula>, StepFault>
    requires clean { is_clean sequent.old ≡ true }
    ensures made { IfOk result (λ made. made ≡ option_and_then (instance_meant inst.now sequent.old what.now) (as_existential sequent.old.goal)) }
    ensures limit { result ≡ Err Limit → IsOversized (option_and_then (instance_meant inst.now sequent.old what.now) (as_existential sequent.old.goal)) }
    ensures rest { sequent.new ≡ with_goal sequent.old True }
{
    match into_existential(take_goal(sequent)) {
        Some(quantified) => {
            let made = instance(alloc, inst, sequent, what, &quantified);
            drop(quantified);
            made
        }
        None => Ok(None),
    }
}

/// What a goal `some` or `any` says of what is given.
pub(crate) fn give(
    alloc: Global,
    inst: &Instances,
    sequent: &mut Sequent,
    what: &Given,
) -> Result<bool, StepFault>
    requires clean { is_clean sequent.old ≡ true }
    ensures { IsStep result sequent.new (only_clean (one_left (option_map (with_goal sequent.old) (option_and_then (instance_meant inst.now sequent.old what.now) (as_existential sequent.old.goal))))) }
{
    match goal_instance(alloc, inst, sequent, what) {
        Ok(Some(formula)) => Ok(set_goal(sequent, formula)),
        Ok(None) => Ok(false),
        Err(fault) => Err(fault),
    }
}

// What a hypothesis `all` or `each` says of what is given.
fn fact_instance(
    alloc: Global,
    inst: &Instances,
    sequent: &Sequent,
    hyp: u32,
    what: &Given,
) -> Result<Option<Formula>, StepFault>
    ensures made { IfOk result (λ made. made ≡ option_and_then (instance_meant inst.now sequent.now what.now) (part_of as_universal sequent.now hyp)) }
    ensures limit { result ≡ Err Limit → IsOversized (option_and_then (instance_meant inst.now sequent.now what.now) (part_of as_universal sequent.now hyp)) }
{
    match copy_universal(alloc, sequent, hyp) {
        Ok(Some(quantified)) => {
            let made = instance(alloc, inst, sequent, what, &quantified);
            drop(quantified);
            made
        }
        Ok(None) => Ok(None),
        Err(_) => Err(StepFault::Memory),
    }
}

/// What a hypothesis `all` or `each` says of what is given becomes a hypothesis.
pub(crate) fn inst(
    alloc: Global,
    inst: &Instances,
    sequent: &mut Sequent,
    hyp: u32,
    what: &Given,
    name: u32,
) -> Result<bool, StepFault>
    requires clean { is_clean sequent.old ≡ true }
    ensures { IsStep result sequent.new (only_clean (one_left (option_map (with_fact sequent.old name) (option_and_then (instance_meant inst.now sequent.old what.now) (part_of as_universal sequent.old hyp))))) }
{
    if is_fact(sequent.facts.as_slice(), name) {
        return Ok(false);
    }
    match fact_instance(alloc, inst, sequent, hyp, what) {
        Ok(Some(formula)) => assume(sequent, name, formula),
        Ok(None) => Ok(false),
        Err(fault) => Err(fault),
    }
}
