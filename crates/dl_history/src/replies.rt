//! Which replies a state may give to a call.

ghost use Rattle.std.specs.Prelude.{◌≡◌, ◌↔◌, ◌==◌, ◌&&◌, IsTrue};
ghost use Rattle.std.specs.Ordering.{int_eq};
ghost use Rattle.std.specs.Cmp.Lexicographic.{pointwise};
ghost use Rattle.dl_model.specs.Formed.{InstancesAreFormed};
ghost use Rattle.dl_model.specs.Machine.{listed as the_listed};
ghost use Rattle.dl_model.specs.Runs.{IsMatch, IsGot, HasNoMatch, Replies, index_or_0 as the_index};
ghost use Rattle.dl_history.specs.Taken.{IsSent, IsReceipt, IsFound, IsRead, IsReplyTo};

use crate::same::same_numbers;
use dl_model::{Args, Call, Instances, Reply};
use dl_proto::receivable;
use dl_state::{Message, WorldState};
use dl_term::View;

// Whether the state may give the reply to the node's call.
pub(crate) fn is_reply(
    inst: &Instances,
    state: &WorldState,
    node: u32,
    call: &Call,
    reply: &Reply,
) -> bool
    requires { InstancesAreFormed inst.now }
    ensures { IsTrue result ↔ Replies inst.now state.now.state node call.now reply.now }
{
    answers(inst, state, node, call, reply)
}

fn answers(inst: &Instances, state: &WorldState, node: u32, call: &Call, reply: &Reply) -> bool
    requires { InstancesAreFormed inst.now }
    ensures { IsTrue result ↔ IsReplyTo inst.now state.now.state node call.now reply.now }
{
    match call {
        Call::Send { label, .. } => is_sent(state, *label, reply),
        Call::Poll { label, tag } => is_found(inst, state, node, *label, *tag, reply),
        Call::Await { label, tag } => is_found(inst, state, node, *label, *tag, reply),
        Call::Read {
            label,
            field,
            index,
        } => is_read(state, node, *label, *field, *index, reply),
    }
}

// Whether the reply is the id of the next message.
pub(crate) fn is_sent(state: &WorldState, label: u8, reply: &Reply) -> bool
    ensures { IsTrue result ↔ IsSent state.now.state label reply.now }
{
    match reply {
        Reply::Sent(id) => *id == state.len(label),
        Reply::Got { .. } => false,
        Reply::Miss => false,
        Reply::Value(_) => false,
    }
}

// Whether the reply is a message that the node can receive.
pub(crate) fn is_receipt(
    inst: &Instances,
    state: &WorldState,
    node: u32,
    label: u8,
    tag: u8,
    reply: &Reply,
) -> bool
    requires { InstancesAreFormed inst.now }
    ensures { IsTrue result ↔ IsReceipt inst.now state.now.state node label tag reply.now }
{
    match reply {
        Reply::Sent(_) => false,
        Reply::Got { id, from, args } => is_got(inst, state, node, label, tag, *id, *from, args),
        Reply::Miss => false,
        Reply::Value(_) => false,
    }
}

// Whether the reply is a message that the node can receive, or none where there is none.
fn is_found(
    inst: &Instances,
    state: &WorldState,
    node: u32,
    label: u8,
    tag: u8,
    reply: &Reply,
) -> bool
    requires { InstancesAreFormed inst.now }
    ensures { IsTrue result ↔ IsFound inst.now state.now.state node label tag reply.now }
{
    match reply {
        Reply::Sent(_) => false,
        Reply::Got { id, from, args } => is_got(inst, state, node, label, tag, *id, *from, args),
        Reply::Miss => has_no_match(inst, state, node, label, tag),
        Reply::Value(_) => false,
    }
}

// Whether the message is one that the node can receive, with this sender and these arguments.
fn is_got(
    inst: &Instances,
    state: &WorldState,
    node: u32,
    label: u8,
    tag: u8,
    id: u32,
    from: u32,
    args: &Args,
) -> bool
    requires { InstancesAreFormed inst.now }
    ensures { IsTrue result ↔ IsGot inst.now state.now.state node label tag id from (the_listed args.now) }
{
    match state.message(label, id) {
        Some(message) => {
            if !is_from(message, from, listed(args)) {
                return false;
            }
            is_match(inst, state, node, label, tag, id)
        }
        None => false,
    }
}

// Whether the message has this sender and these arguments.
fn is_from(message: &Message, from: u32, args: &[i64]) -> bool
    ensures { result ≡ ((message.now.from == from) && pointwise int_eq message.now.args args.now) }
{
    message.from == from && same_numbers(message.arguments(), args)
}

// Whether the message has the tag and the node can receive it.
fn is_match(inst: &Instances, state: &WorldState, node: u32, label: u8, tag: u8, id: u32) -> bool
    requires { InstancesAreFormed inst.now }
    ensures { IsTrue result ↔ IsMatch inst.now state.now.state node label tag id }
{
    match state.message(label, id) {
        Some(message) => {
            if !is_tagged(message, tag) {
                return false;
            }
            receivable(inst, state, label, id, node)
        }
        None => false,
    }
}

fn is_tagged(message: &Message, tag: u8) -> bool
    ensures { IsTrue result ↔ (message.now.tag ≡ tag) }
{
    message.tag == tag
}

fn has_no_match(inst: &Instances, state: &WorldState, node: u32, label: u8, tag: u8) -> bool
    requires { InstancesAreFormed inst.now }
    ensures { IsTrue result ↔ HasNoMatch inst.now state.now.state node label tag }
{
    for id in 0..state.len(label) {
        if is_match(inst, state, node, label, tag, id) {
            return false;
        }
    }
    true
}

// Whether the reply is the number of the node's field.
fn is_read(
    state: &WorldState,
    node: u32,
    label: u8,
    field: u8,
    index: Option<i64>,
    reply: &Reply,
) -> bool
    ensures { IsTrue result ↔ IsRead state.now.state node label field index reply.now }
{
    match reply {
        Reply::Sent(_) => false,
        Reply::Got { .. } => false,
        Reply::Miss => false,
        Reply::Value(value) => {
            *value
                == state.field(
                    label,
                    field,
                    i128::from(node),
                    i128::from(index_or_0(index)),
                )
        }
    }
}

fn index_or_0(index: Option<i64>) -> i64
    ensures { result ≡ the_index index }
{
    match index {
        Some(index) => index,
        None => 0,
    }
}

// The arguments, as many as their count.
pub(crate) fn listed(args: &Args) -> &[i64]
    ensures { result.now ≡ the_listed args.now }
{
    let count = usize::from(args.count);
    if count < args.values.len() {
        &args.values[..count]
    } else {
        &args.values
    }
}
