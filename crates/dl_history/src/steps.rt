//! The step that a call and its reply make.

ghost use Rattle.std.specs.Prelude.{◌≡◌, ◌<◌, ◌≤◌, ◌+◌};
ghost use Rattle.dl_model.specs.Formed.{InstancesAreFormed};
ghost use Rattle.dl_model.specs.Runs.{step_of, state_after};
ghost use Rattle.dl_proto.specs.Shaped.{IsShaped};
ghost use Rattle.dl_history.specs.Taken.{CallIsGiven, ReceiptIsGiven, after_receipt, after_call};

use crate::replies::listed;
use dl_model::{Call, Instances, Reply};
use dl_proto::{apply_receive, apply_send};
use dl_state::WorldState;

// Makes the step, if they make one.
pub(crate) fn make_step(
    inst: &Instances,
    state: &mut WorldState,
    node: u32,
    call: &Call,
    reply: &Reply,
)
    requires formed { InstancesAreFormed inst.now }
    requires shaped { IsShaped inst.now state.old.state }
    requires given { CallIsGiven inst.now state.old.state node call.now reply.now }
    requires room { 0 < state.old.spare }
    ensures shaped { IsShaped inst.now state.new.state }
    ensures state { state.new.state ≡ state_after inst.now state.old.state node (step_of call.now reply.now) }
    ensures room { state.old.spare ≤ state.new.spare + 1 }
{
    make(inst, state, node, call, reply);
}

fn make(inst: &Instances, state: &mut WorldState, node: u32, call: &Call, reply: &Reply)
    requires formed { InstancesAreFormed inst.now }
    requires shaped { IsShaped inst.now state.old.state }
    requires given { CallIsGiven inst.now state.old.state node call.now reply.now }
    requires room { 0 < state.old.spare }
    ensures state { state.new.state ≡ after_call inst.now state.old.state node call.now reply.now }
    ensures room { state.old.spare ≤ state.new.spare + 1 }
{
    match call {
        Call::Send {
            label,
            tag,
            to,
            args,
        } => {
            apply_send(inst, state, *label, *tag, node, *to, listed(args));
        }
        Call::Poll { label, .. } => receive(inst, state, node, *label, reply),
        Call::Await { label, .. } => receive(inst, state, node, *label, reply),
        Call::Read { .. } => {}
    }
}

// Receives the message of the reply, if it has one.
fn receive(inst: &Instances, state: &mut WorldState, node: u32, label: u8, reply: &Reply)
    requires formed { InstancesAreFormed inst.now }
    requires shaped { IsShaped inst.now state.old.state }
    requires given { ReceiptIsGiven inst.now state.old.state node label reply.now }
    ensures state { state.new.state ≡ after_receipt inst.now state.old.state node label reply.now }
    ensures room { state.new.spare ≡ state.old.spare }
{
    match reply {
        Reply::Sent(_) => {}
        Reply::Got { id, .. } => apply_receive(inst, state, label, *id, node),
        Reply::Miss => {}
        Reply::Value(_) => {}
    }
}
