//! What is known of a step by the rule of its tag: its guard holds, and what it updates fits.

ghost use Rattle.std.specs.Prelude.{◌≡◌, ◌++◌, ◌∷◌, [], filter, map, unwrap_or, IfOk, OnOk};
ghost use Rattle.std.specs.Option.{option_copied};
ghost use Rattle.dl_term.specs.declared.syntax.Formula.{Eq, False};
ghost use Rattle.dl_term.specs.declared.syntax.Term.{Msg};
ghost use Rattle.dl_term.specs.declared.syntax.Part.TheVariants.{From, To};
ghost use Rattle.dl_wp.specs.Steps.{args_of_message};
ghost use Rattle.dl_model.specs.declared.sequent.Hypothesis.{Hypothesis as Fact};
ghost use Rattle.dl_model.specs.Lookup.{arg_names, never, no_tag, receive_of as receive_in};
ghost use Rattle.dl_inv.specs.Steps.{is_mine as is_addressed, send_hypotheses, receive_hypotheses};
ghost use Rattle.dl_inv.specs.Code.{guard_put, rule_facts, says_something};

use crate::facts::add_fact;
use crate::fits::{Scene, all_fit};
use crate::joined::{add_part, both};
use crate::step::{in_step, params_of, step_terms};
use dl_model::{Hypothesis, Instances, Sequent, Tag, Transition, Update};
use dl_term::{Formula, Part, Sort, Term, copy_term};
use dl_wp::{ReceiveStep, SendStep, Sight, message_args, spoken_of, tag_of};
use sqlite_items::Items;
use std::alloc::{AllocError, Global};

// The words that name the other node.
const TO: u32 = 5;

const FROM: u32 = 6;

// The names of the hypotheses.
const GUARD: u32 = 10;

const FITS: u32 = 11;

const MINE: u32 = 13;

fn names_of(alloc: Global, params: &[(u32, Sort)]) -> Result<Items<u32>, AllocError>
    ensures { IfOk result (λ names. names ≡ arg_names params.now) }
{
    let mut names = Items::new(alloc);
    for param in params {
        names.push(param.0)?;
    }
    Ok(names)
}

// The guard as it stands in the step, `false` where there is none.
fn guard_in(alloc: Global, sight: &Sight, guard: Option<&Formula>) -> Result<Formula, AllocError>
    ensures { IfOk result (λ made. made ≡ guard_put sight.now (unwrap_or (option_copied guard.entry) False)) }
{
    let Some(guard) = guard else {
        return Ok(Formula::False);
    };
    let terms = step_terms(alloc, sight.node, sight.other, sight.args)?;
    let names = names_of(alloc, sight.params)?;
    in_step(
        alloc,
        sight.label,
        sight.word,
        names.as_slice(),
        terms.as_slice(),
        guard,
    )
}

// Adds that the guard holds, and that the updates fit.
fn add_rule(
    alloc: Global,
    facts: &mut Items<Hypothesis>,
    scene: &Scene,
    guard: Option<&Formula>,
    updates: &[Update],
) -> Result<(), AllocError>
    ensures { OnOk result (facts.new ≡ facts.old ++ rule_facts scene.now (unwrap_or (option_copied guard.entry) False) updates.now) }
{
    let held = guard_in(alloc, &scene.sight, guard)?;
    add_fact(facts, GUARD, held)?;
    let fits = all_fit(alloc, scene, updates)?;
    add_fact(facts, FITS, fits)
}

// Adds the guard, and that the updates fit, to formulas that are joined.
fn add_rule_parts(
    alloc: Global,
    parts: &mut Items<Formula>,
    scene: &Scene,
    guard: Option<&Formula>,
    updates: &[Update],
) -> Result<(), AllocError>
    ensures { OnOk result (parts.new ≡ parts.old ++ filter says_something (map (λ (fact : Fact). fact.formula) (rule_facts scene.now (unwrap_or (option_copied guard.entry) False) updates.now))) }
{
    let held = guard_in(alloc, &scene.sight, guard)?;
    add_part(parts, held)?;
    let fits = all_fit(alloc, scene, updates)?;
    add_part(parts, fits)
}

// ---- sends

fn send_of(tag: Option<&Tag>) -> Option<&Transition>
    ensures { unwrap_or (option_copied result) never ≡ (unwrap_or (option_copied tag.entry) no_tag).send }
{
    match tag {
        Some(tag) => Some(&tag.send),
        None => None,
    }
}

fn receive_of(tag: Option<&Tag>) -> Option<&Transition>
    ensures { unwrap_or (option_copied result) never ≡ receive_in (unwrap_or (option_copied tag.entry) no_tag) }
{
    match tag {
        Some(tag) => tag.receive.as_ref(),
        None => None,
    }
}

fn guard_of(transition: Option<&Transition>) -> Option<&Formula>
    ensures { unwrap_or (option_copied result) False ≡ (unwrap_or (option_copied transition.entry) never).guard }
{
    match transition {
        Some(transition) => Some(&transition.guard),
        None => None,
    }
}

fn updates_of(transition: Option<&Transition>) -> &[Update]
    ensures { result.now ≡ (unwrap_or (option_copied transition.entry) never).updates }
{
    match transition {
        Some(transition) => transition.updates.as_slice(),
        None => &[],
    }
}

/// Adds what is known of a send.
pub fn add_send<'a>(
    alloc: Global,
    facts: &mut Items<Hypothesis>,
    inst: &'a Instances,
    known: &'a Sequent,
    step: &'a SendStep,
) -> Result<(), AllocError>
    ensures { OnOk result (facts.new ≡ facts.old ++ send_hypotheses inst.now known.now step.now) }
{
    let tag = tag_of(inst, known.own, step.label, step.tag);
    let scene = Scene {
        inst,
        known,
        sight: Sight {
            label: step.label,
            node: &step.sender,
            word: TO,
            other: &step.to,
            params: params_of(tag),
            args: step.args.as_slice(),
        },
        protocol: spoken_of(inst, known.own, step.label),
    };
    let send = send_of(tag);
    add_rule(alloc, facts, &scene, guard_of(send), updates_of(send))
}

/// Adds the formulas of what [`add_send`] adds to those that are joined.
pub fn add_send_parts<'a>(
    alloc: Global,
    parts: &mut Items<Formula>,
    inst: &'a Instances,
    known: &'a Sequent,
    step: &'a SendStep,
) -> Result<(), AllocError>
    ensures { OnOk result (parts.new ≡ parts.old ++ filter says_something (map (λ (fact : Fact). fact.formula) (send_hypotheses inst.now known.now step.now))) }
{
    let tag = tag_of(inst, known.own, step.label, step.tag);
    let scene = Scene {
        inst,
        known,
        sight: Sight {
            label: step.label,
            node: &step.sender,
            word: TO,
            other: &step.to,
            params: params_of(tag),
            args: step.args.as_slice(),
        },
        protocol: spoken_of(inst, known.own, step.label),
    };
    let send = send_of(tag);
    add_rule_parts(alloc, parts, &scene, guard_of(send), updates_of(send))
}

// ---- receives

// The message is addressed to the receiver.
fn to_receiver(alloc: Global, step: &ReceiveStep) -> Result<Formula, AllocError>
    ensures { IfOk result (λ made. made ≡ Eq (Msg step.now.msg To) step.now.receiver) }
{
    let receiver = copy_term(alloc, &step.receiver)?;
    let to = Term::Msg {
        msg: step.msg,
        part: Part::To,
    };
    Ok(Formula::Eq(to, receiver))
}

// The message is addressed to the receiver, and it is live.
fn is_mine(alloc: Global, step: &ReceiveStep) -> Result<Formula, AllocError>
    ensures { IfOk result (λ made. made ≡ is_addressed step.now) }
{
    let addressed = to_receiver(alloc, step)?;
    let live = Term::Msg {
        msg: step.msg,
        part: Part::Live,
    };
    both(alloc, addressed, Formula::Eq(live, Term::Num(1)))
}

// Adds what is known of a receive, with these terms for the sender and the arguments of the message.
fn add_receive_of<'a>(
    alloc: Global,
    facts: &mut Items<Hypothesis>,
    inst: &'a Instances,
    known: &'a Sequent,
    step: &'a ReceiveStep,
    sender: &'a Term,
    args: &'a [Term],
) -> Result<(), AllocError>
    requires sender { sender.now ≡ Msg step.now.msg From }
    requires args { args.now ≡ args_of_message step.now.msg }
    ensures { OnOk result (facts.new ≡ facts.old ++ receive_hypotheses inst.now known.now step.now) }
{
    let mine = is_mine(alloc, step)?;
    add_fact(facts, MINE, mine)?;
    let tag = tag_of(inst, known.own, step.label, step.tag);
    let scene = Scene {
        inst,
        known,
        sight: Sight {
            label: step.label,
            node: &step.receiver,
            word: FROM,
            other: sender,
            params: params_of(tag),
            args,
        },
        protocol: spoken_of(inst, known.own, step.label),
    };
    let receive = receive_of(tag);
    add_rule(alloc, facts, &scene, guard_of(receive), updates_of(receive))
}

/// Adds what is known of a receive.
pub fn add_receive(
    alloc: Global,
    facts: &mut Items<Hypothesis>,
    inst: &Instances,
    known: &Sequent,
    step: &ReceiveStep,
) -> Result<(), AllocError>
    ensures { OnOk result (facts.new ≡ facts.old ++ receive_hypotheses inst.now known.now step.now) }
{
    let args = message_args(step.msg);
    let sender = Term::Msg {
        msg: step.msg,
        part: Part::From,
    };
    let added = add_receive_of(alloc, facts, &*inst, &*known, &*step, &sender, &args);
    drop(sender);
    added
}
