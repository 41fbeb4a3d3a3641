//! The calls.

ghost use Rattle.std.specs.Prelude.{◌≡◌, ◌≤◌, ◌<◌, true, false, unwrap_or, IfOk, IfErr};
ghost use Rattle.std.specs.Option.{option_copied};
ghost use Rattle.dl_term.specs.declared.syntax.Term.{Msg};
ghost use Rattle.dl_term.specs.declared.syntax.Part.TheVariants.{From};
ghost use Rattle.dl_term.specs.Measures.{formula_nesting, is_oversized};
ghost use Rattle.dl_model.specs.Lookup.{no_tag, receive_of};
ghost use Rattle.dl_wp.specs.Steps.{Step, sent_message as message_sent, send_step, receive_step, args_of_message};
ghost use Rattle.dl_wp.specs.Before.{before as formula_before, before_sent, before_received};
ghost use Rattle.dl_wp.specs.Captures.{captures as captures_name, nothing_around};
ghost use Rattle.dl_wp.specs.Code.{step_of};
ghost use Rattle.dl_wp.specs.First.{at_first};

use crate::before::before;
use crate::bound::Bound;
use crate::captures::captures;
use crate::faults::{Stop, WpFault};
use crate::first::formula_first;
use crate::plan::{FROM, Motion, Plan, Sight, TO, tag_of};
use crate::steps::{ReceiveStep, SendStep};
use dl_model::{Instances, Tag, Update};
use dl_subst::NewMessage;
use dl_term::{DEEPEST_NESTING, Formula, LARGEST_SIZE, Part, Sort, Term, copy_term, depth};
use sqlite_items::Items;
use std::alloc::{AllocError, Global};

/// The formula that holds before a send exactly where `after` holds after it (`sends_hold`).
///
/// `self` is spoken of by a formula of the protocol `own`; where there is none, a formula names labels by their positions.
/// `Capture` comes only where a name that is free in a term of the step is bound around a place where the term is put.
/// `Size` comes only where none is, and the result has more than 1,000,000 parts or nests more than 4,000 deep. In
/// both cases no other refusal comes but `Memory`.
pub fn before_send(
    alloc: Global,
    inst: &Instances,
    own: Option<u8>,
    step: &SendStep,
    after: &Formula,
) -> Result<Formula, WpFault>
    ensures made { IfOk result (λ made. made ≡ before_sent inst.now own step.now after.now) }
    ensures quiet { IfOk result (λ made. captures_name (send_step inst.now own step.now) nothing_around after.now ≡ false) }
    ensures small { IfOk result (λ made. is_oversized made ≡ false) }
    ensures capture { (result ≡ Err WpFault.Capture) → captures_name (send_step inst.now own step.now) nothing_around after.now ≡ true }
    ensures size { (result ≡ Err WpFault.Size) → (captures_name (send_step inst.now own step.now) nothing_around after.now ≡ false) × (is_oversized (before_sent inst.now own step.now after.now) ≡ true) }
{
    let Ok(new) = sent_message(alloc, step) else {
        return Err(WpFault::Memory);
    };
    make_sent(alloc, &*inst, own, &*step, &new, after)
}

/// The formula that holds before a receive exactly where `after` holds after it (`receives_hold`).
///
/// `self` is spoken of by a formula of the protocol `own`; where there is none, a formula names labels by their positions.
/// `Capture` comes only where a name that is free in a term of the step is bound around a place where the term is put.
/// `Size` comes only where none is, and the result has more than 1,000,000 parts or nests more than 4,000 deep. In
/// both cases no other refusal comes but `Memory`.
pub fn before_receive(
    alloc: Global,
    inst: &Instances,
    own: Option<u8>,
    step: &ReceiveStep,
    after: &Formula,
) -> Result<Formula, WpFault>
    ensures made { IfOk result (λ made. made ≡ before_received inst.now own step.now after.now) }
    ensures quiet { IfOk result (λ made. captures_name (receive_step inst.now own step.now) nothing_around after.now ≡ false) }
    ensures small { IfOk result (λ made. is_oversized made ≡ false) }
    ensures capture { (result ≡ Err WpFault.Capture) → captures_name (receive_step inst.now own step.now) nothing_around after.now ≡ true }
    ensures size { (result ≡ Err WpFault.Size) → (captures_name (receive_step inst.now own step.now) nothing_around after.now ≡ false) × (is_oversized (before_received inst.now own step.now after.now) ≡ true) }
{
    let args = message_args(step.msg);
    let sender = Term::Msg {
        msg: step.msg,
        part: Part::From,
    };
    make_received(alloc, &*inst, own, &*step, &sender, &args, after)
}

/// The formula that holds in any state exactly where `formula`, in which no name is free, holds in the first state
/// (`first_states_hold`).
///
/// `self` is spoken of by a formula of the protocol `own`. `Capture` never comes. `Size` comes only where the result has
/// more than 1,000,000 parts or nests more than 4,000 deep, and then no other refusal comes but `Memory`.
pub fn at_init(
    alloc: Global,
    inst: &Instances,
    own: Option<u8>,
    formula: &Formula,
) -> Result<Formula, WpFault>
    requires { 1 ≤ inst.now.nodes }
    ensures made { IfOk result (λ made. made ≡ at_first inst.now own formula.now) }
    ensures small { IfOk result (λ made. is_oversized made ≡ false) }
    ensures capture { (result ≡ Err WpFault.Capture) → ⊥ }
    ensures size { (result ≡ Err WpFault.Size) → is_oversized (at_first inst.now own formula.now) ≡ true }
{
    match formula_first(alloc, inst, own, formula, LARGEST_SIZE) {
        Ok((made, _)) => not_too_deep(made),
        Err(Stop::Room) => Err(WpFault::Size),
        Err(Stop::Memory) => Err(WpFault::Memory),
    }
}

fn copy_items(alloc: Global, items: &[Term]) -> Result<Items<Term>, AllocError>
    ensures { IfOk result (λ copy. copy ≡ items.now) }
{
    let mut copy = Items::new(alloc);
    for item in items {
        copy.push(copy_term(alloc, item)?)?;
    }
    Ok(copy)
}

// The message that a send appends.
fn sent_message(alloc: Global, step: &SendStep) -> Result<NewMessage, AllocError>
    ensures { IfOk result (λ new. new ≡ message_sent step.now) }
{
    Ok(NewMessage {
        id: Term::Len(step.label),
        from: copy_term(alloc, &step.sender)?,
        to: copy_term(alloc, &step.to)?,
        live: Term::Num(1),
        args: copy_items(alloc, step.args.as_slice())?,
    })
}

/// The arguments of a message. A tag has at most 8.
pub fn message_args(msg: u32) -> [Term; 8]
    ensures { result ≡ args_of_message msg }
{
    [
        Term::Msg {
            msg,
            part: Part::Arg(0),
        },
        Term::Msg {
            msg,
            part: Part::Arg(1),
        },
        Term::Msg {
            msg,
            part: Part::Arg(2),
        },
        Term::Msg {
            msg,
            part: Part::Arg(3),
        },
        Term::Msg {
            msg,
            part: Part::Arg(4),
        },
        Term::Msg {
            msg,
            part: Part::Arg(5),
        },
        Term::Msg {
            msg,
            part: Part::Arg(6),
        },
        Term::Msg {
            msg,
            part: Part::Arg(7),
        },
    ]
}

fn params_of(tag: Option<&Tag>) -> &[(u32, Sort)]
    ensures { result.now ≡ (unwrap_or (option_copied tag.entry) no_tag).args }
{
    match tag {
        Some(tag) => tag.args.as_slice(),
        None => &[],
    }
}

fn updates_of_send(tag: Option<&Tag>) -> &[Update]
    ensures { result.now ≡ (unwrap_or (option_copied tag.entry) no_tag).send.updates }
{
    match tag {
        Some(tag) => tag.send.updates.as_slice(),
        None => &[],
    }
}

fn updates_of_receive(tag: Option<&Tag>) -> &[Update]
    ensures { result.now ≡ (receive_of (unwrap_or (option_copied tag.entry) no_tag)).updates }
{
    let Some(tag) = tag else {
        return &[];
    };
    match &tag.receive {
        Some(receive) => receive.updates.as_slice(),
        None => &[],
    }
}

fn not_too_deep(made: Formula) -> Result<Formula, WpFault>
    ensures kept { IfOk result (λ kept. (kept ≡ made) × (formula_nesting made ≤ 4000)) }
    ensures deep { IfErr result (λ fault. (fault ≡ WpFault.Size) × (4000 < formula_nesting made)) }
{
    if depth(&made) > DEEPEST_NESTING {
        Err(WpFault::Size)
    } else {
        Ok(made)
    }
}

fn make_sent<'a>(
    alloc: Global,
    inst: &'a Instances,
    own: Option<u8>,
    step: &'a SendStep,
    new: &'a NewMessage,
    after: &Formula,
) -> Result<Formula, WpFault>
    requires { new.now ≡ message_sent step.now }
    ensures made { IfOk result (λ made. made ≡ before_sent inst.now own step.now after.now) }
    ensures quiet { IfOk result (λ made. captures_name (send_step inst.now own step.now) nothing_around after.now ≡ false) }
    ensures small { IfOk result (λ made. is_oversized made ≡ false) }
    ensures capture { (result ≡ Err WpFault.Capture) → captures_name (send_step inst.now own step.now) nothing_around after.now ≡ true }
    ensures size { (result ≡ Err WpFault.Size) → (captures_name (send_step inst.now own step.now) nothing_around after.now ≡ false) × (is_oversized (before_sent inst.now own step.now after.now) ≡ true) }
{
    let tag = tag_of(inst, own, step.label, step.tag);
    let plan = Plan {
        sight: Sight {
            label: step.label,
            node: &step.sender,
            word: TO,
            other: &step.to,
            params: params_of(tag),
            args: step.args.as_slice(),
        },
        tag: step.tag,
        updates: updates_of_send(tag),
        motion: Motion::Sends(&new),
    };
    make(alloc, &plan, after)
}

fn make_received<'a>(
    alloc: Global,
    inst: &'a Instances,
    own: Option<u8>,
    step: &'a ReceiveStep,
    sender: &'a Term,
    args: &'a [Term],
    after: &Formula,
) -> Result<Formula, WpFault>
    requires sender { sender.now ≡ Msg step.now.msg From }
    requires args { args.now ≡ args_of_message step.now.msg }
    ensures made { IfOk result (λ made. made ≡ before_received inst.now own step.now after.now) }
    ensures quiet { IfOk result (λ made. captures_name (receive_step inst.now own step.now) nothing_around after.now ≡ false) }
    ensures small { IfOk result (λ made. is_oversized made ≡ false) }
    ensures capture { (result ≡ Err WpFault.Capture) → captures_name (receive_step inst.now own step.now) nothing_around after.now ≡ true }
    ensures size { (result ≡ Err WpFault.Size) → (captures_name (receive_step inst.now own step.now) nothing_around after.now ≡ false) × (is_oversized (before_received inst.now own step.now after.now) ≡ true) }
{
    let tag = tag_of(inst, own, step.label, step.tag);
    let plan = Plan {
        sight: Sight {
            label: step.label,
            node: &step.receiver,
            word: FROM,
            other: sender,
            params: params_of(tag),
            args,
        },
        tag: step.tag,
        updates: updates_of_receive(tag),
        motion: Motion::Receives(step.msg),
    };
    make(alloc, &plan, after)
}

fn make(alloc: Global, plan: &Plan, after: &Formula) -> Result<Formula, WpFault>
    ensures made { IfOk result (λ made. made ≡ formula_before (step_of plan.now) (λ m. false) after.now) }
    ensures quiet { IfOk result (λ made. captures_name (step_of plan.now) nothing_around after.now ≡ false) }
    ensures small { IfOk result (λ made. is_oversized made ≡ false) }
    ensures capture { (result ≡ Err WpFault.Capture) → captures_name (step_of plan.now) nothing_around after.now ≡ true }
    ensures size { (result ≡ Err WpFault.Size) → (captures_name (step_of plan.now) nothing_around after.now ≡ false) × (is_oversized (formula_before (step_of plan.now) (λ m. false) after.now) ≡ true) }
{
    if captures(plan, &Bound::Nothing, after) {
        return Err(WpFault::Capture);
    }
    match before(alloc, plan, &Bound::Nothing, after, LARGEST_SIZE) {
        Ok((made, _)) => not_too_deep(made),
        Err(Stop::Room) => Err(WpFault::Size),
        Err(Stop::Memory) => Err(WpFault::Memory),
    }
}
