//! The reply to a call, and its step.

ghost use Rattle.std.specs.Prelude.{◌≡◌, ◌<◌, ◌≤◌, pos, length, Some, false, true};
ghost use Rattle.dl_term.specs.State.{soup_at, field_at};
ghost use Rattle.dl_model.specs.declared.history.Reply.TheVariants.{Got};
ghost use Rattle.dl_model.specs.Formed.{InstancesAreFormed};
ghost use Rattle.dl_model.specs.Histories.{is_wait_of};
ghost use Rattle.dl_model.specs.Machine.{listed, packed};
ghost use Rattle.dl_model.specs.Steps.{after_receive, message_in};
ghost use Rattle.dl_model.specs.Runs.{index_or_0, step_of, state_after};
ghost use Rattle.dl_model.specs.Delivery.{matches};
ghost use Rattle.dl_proto.specs.Shaped.{IsShaped};
ghost use Rattle.dl_soup.specs.Given.{CallIsGiven};
ghost use Rattle.dl_soup.specs.Replies.{got_or_miss, missed, reply_by, spare_after, taken, turned, turn_after, taken_turn, taken_state};

use crate::pick::{Wanted, pick, turned};
use crate::pool::Pool;
use dl_model::{Args, Call, Instances, Order, Reply};
use dl_state::{Message, WorldState};
use dl_term::View;

// Makes a node's call. The generator makes a turn where a message is received.
#[inline(always)]
pub(crate) fn answer(
    inst: &Instances,
    pool: &mut Pool,
    order: Order,
    turn: &mut u64,
    node: u32,
    call: &Call,
) -> Reply
    requires formed { InstancesAreFormed inst.now }
    requires shaped { IsShaped inst.now pool.old.state }
    requires given { CallIsGiven inst.now node call.now }
    requires room { 0 < pool.old.spare }
    ensures reply { result ≡ reply_by (taken order (turned turn.old)) inst.now pool.old.state node call.now }
    ensures state { pool.new.state ≡ state_after inst.now pool.old.state node (step_of call.now result) }
    ensures spare { spare_after pool.old.spare result ≤ pool.new.spare }
    ensures turn { turn.new ≡ turn_after turn.old result }
{
    match call {
        Call::Send {
            label,
            tag,
            to,
            args,
        } => Reply::Sent(pool.send(inst, *label, *tag, node, *to, listed(args))),
        Call::Poll { label, tag } => {
            let wanted = Wanted {
                node,
                label: *label,
                tag: *tag,
            };
            receive(inst, pool, order, turn, &wanted)
        }
        Call::Await { label, tag } => {
            let wanted = Wanted {
                node,
                label: *label,
                tag: *tag,
            };
            receive(inst, pool, order, turn, &wanted)
        }
        Call::Read {
            label,
            field,
            index,
        } => Reply::Value(read(pool.state(), node, *label, *field, *index)),
    }
}

// Whether the call waits: it is an await, and there is no message.
#[inline(always)]
pub(crate) fn waits(call: &Call, reply: &Reply) -> bool
    ensures { result ≡ is_wait_of call.now reply.now }
{
    match call {
        Call::Send { .. } => false,
        Call::Poll { .. } => false,
        Call::Await { .. } => missed(reply),
        Call::Read { .. } => false,
    }
}

#[inline(always)]
fn missed(reply: &Reply) -> bool
    ensures { result ≡ missed reply.now }
{
    match reply {
        Reply::Sent(_) => false,
        Reply::Got { .. } => false,
        Reply::Miss => true,
        Reply::Value(_) => false,
    }
}

// Receives the match that the order takes, if there is one.
#[inline(always)]
fn receive(
    inst: &Instances,
    pool: &mut Pool,
    order: Order,
    turn: &mut u64,
    wanted: &Wanted,
) -> Reply
    requires formed { InstancesAreFormed inst.now }
    requires shaped { IsShaped inst.now pool.old.state }
    requires node { wanted.now.node < inst.now.nodes }
    ensures reply { result ≡ got_or_miss pool.old.state wanted.now.label (taken order (turned turn.old) (matches inst.now pool.old.state wanted.now.node wanted.now.label wanted.now.tag)) }
    ensures pool { pool.new ≡ record { state = taken_state inst.now pool.old.state wanted.now.node wanted.now.label (taken order (turned turn.old) (matches inst.now pool.old.state wanted.now.node wanted.now.label wanted.now.tag)); spare = pool.old.spare } }
    ensures turn { turn.new ≡ taken_turn turn.old (taken order (turned turn.old) (matches inst.now pool.old.state wanted.now.node wanted.now.label wanted.now.tag)) }
{
    let x = turned(*turn);
    let Some(id) = pick(inst, pool, order, x, wanted) else {
        return Reply::Miss;
    };
    *turn = x;
    take(inst, pool, wanted, id)
}

// Receives the message with this id.
#[inline(always)]
fn take(inst: &Instances, pool: &mut Pool, wanted: &Wanted, id: u32) -> Reply
    requires formed { InstancesAreFormed inst.now }
    requires shaped { IsShaped inst.now pool.old.state }
    requires node { wanted.now.node < inst.now.nodes }
    requires known { id < length (soup_at pool.old.state wanted.now.label) }
    ensures reply { result ≡ got_or_miss pool.old.state wanted.now.label (Some id) }
    ensures pool { pool.new ≡ record { state = after_receive inst.now pool.old.state wanted.now.node wanted.now.label id; spare = pool.old.spare } }
{
    let reply = got(pool.state(), wanted.label, id);
    pool.receive(inst, wanted.label, id, wanted.node);
    reply
}

// The reply that tells the message with this id.
#[inline(always)]
fn got(state: &WorldState, label: u8, id: u32) -> Reply
    ensures { result ≡ Got id (message_in state.now.state label id).from (packed (message_in state.now.state label id).args) }
{
    match state.message(label, id) {
        Some(message) => Reply::Got {
            id,
            from: sender(message),
            args: packed(message.arguments()),
        },
        None => Reply::Got {
            id,
            from: 0,
            args: packed(&[]),
        },
    }
}

#[inline(always)]
fn sender(message: &Message) -> u32
    ensures { result ≡ message.now.from }
{
    message.from
}

// At most 8 numbers as the arguments of a call.
#[inline(always)]
fn packed(numbers: &[i64]) -> Args
    requires { length numbers.now ≤ 8 }
    ensures { result ≡ packed numbers.now }
{
    if numbers.is_empty() {
        return Args {
            count: 0,
            values: [0; 8],
        };
    }
    let mut values = [0; 8];
    values[..numbers.len()].copy_from_slice(numbers);
    Args {
        count: numbers.len() as u8,
        values,
    }
}

// The arguments, as many as their count.
#[inline(always)]
fn listed(args: &Args) -> &[i64]
    ensures { result.now ≡ listed args.now }
{
    let count = usize::from(args.count);
    if count < args.values.len() {
        &args.values[..count]
    } else {
        &args.values
    }
}

// What a field of the node has. The index is 0 for a field that is no row.
#[inline(always)]
fn read(state: &WorldState, node: u32, label: u8, field: u8, index: Option<i64>) -> i64
    ensures { result ≡ field_at state.now.state label field (pos node) (index_or_0 index) }
{
    let index = index.unwrap_or(0);
    state.field(label, field, i128::from(node), i128::from(index))
}
