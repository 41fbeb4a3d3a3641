//! What a step does to the state.

ghost use Rattle.std.specs.Prelude.{◌≡◌, ◌<◌, ◌+◌, ◌∷◌, [], length};
ghost use Rattle.std.specs.List.{All};
ghost use Rattle.dl_term.specs.State.{soup_at};
ghost use Rattle.dl_term.specs.Names.{names_of};
ghost use Rattle.dl_model.specs.Lookup.{protocol_at, arg_names};
ghost use Rattle.dl_model.specs.Words.{with_numbers};
ghost use Rattle.dl_model.specs.Formed.{InstancesAreFormed, AreDistinct};
ghost use Rattle.dl_model.specs.Steps.{after_send, after_receive};
ghost use Rattle.dl_proto.specs.Shaped.{IsShaped};
ghost use Rattle.dl_proto.specs.Given.{SendIsGiven, ReceiveIsGiven};
ghost use Rattle.dl_proto.specs.Ready.{UpdateIsReady, TransitionIsReady, updated_fields};
ghost use Rattle.dl_proto.specs.Writes.{known_updates, send_updates, receive_updates};

use crate::find::find_tag;
use crate::test::{FROM, ME, TO};
use crate::write::write_of;
use dl_model::{Instances, Transition, Update};
use dl_state::{Message, WorldState};
use dl_term::{Env, Sort};

/// Makes a node's raw send, enabled or not, and answers the message's id: a live message is appended, and each update
/// whose index is a node and whose value is in its sort is made. All values are taken in the old state. It takes no
/// memory.
///
/// The conditions are that the instances are formed, that the state has their nodes, labels and fields and room for a
/// message, that the label, the tag and the node exist, and that there are as many arguments as the tag has.
pub fn apply_send(
    inst: &Instances,
    state: &mut WorldState,
    label: u8,
    tag: u8,
    from: u32,
    to: i64,
    args: &[i64],
) -> u32
    requires formed { InstancesAreFormed inst.now }
    requires shaped { IsShaped inst.now state.old.state }
    requires given { SendIsGiven inst.now label tag from args.now }
    requires room { 0 < state.old.spare }
    ensures id { result ≡ length (soup_at state.old.state label) }
    ensures state { state.new.state ≡ after_send inst.now state.old.state from label tag to args.now }
    ensures spare { state.new.spare + 1 ≡ state.old.spare }
{
    make_send(inst, state, label, tag, from, to, args);
    state.append(label, Message::new(tag, from, to, args))
}

// Makes the updates of a send.
#[inline(always)]
fn make_send(
    inst: &Instances,
    state: &mut WorldState,
    label: u8,
    tag: u8,
    from: u32,
    to: i64,
    args: &[i64],
)
    requires formed { InstancesAreFormed inst.now }
    requires shaped { IsShaped inst.now state.old.state }
    requires label { label < length inst.now.of }
    requires node { from < inst.now.nodes }
    ensures { state.new ≡ send_updates inst.now state.old label tag from to args.now }
{
    let Some(found) = find_tag(inst, label, tag) else {
        return;
    };
    let own = Env::Empty(label);
    let me = Env::Number(&own, ME, i64::from(from));
    let env = Env::Number(&me, TO, to);
    make(
        inst,
        state,
        label,
        from,
        &found.send,
        &env,
        found.args.as_slice(),
        args,
    );
}

/// Makes a node's receive of the message with this id: the updates are made, with all values taken in the old state,
/// and the message's mark is cleared. It takes no memory.
///
/// The conditions are that the instances are formed, that the state has their nodes, labels and fields, and that the
/// label, the message and the node exist. Where the message isn't receivable, the updates that fit are made.
pub fn apply_receive(inst: &Instances, state: &mut WorldState, label: u8, id: u32, node: u32)
    requires formed { InstancesAreFormed inst.now }
    requires shaped { IsShaped inst.now state.old.state }
    requires given { ReceiveIsGiven inst.now state.old.state label id node }
    ensures { state.new ≡ record { state = after_receive inst.now state.old.state node label id; spare = state.old.spare } }
{
    let Some(message) = state.message(label, id) else {
        return;
    };
    let message = *message;
    make_receive(inst, state, label, &message, node);
    state.consume(label, id);
}

// Makes the updates of a receive.
#[inline(always)]
fn make_receive(inst: &Instances, state: &mut WorldState, label: u8, message: &Message, node: u32)
    requires formed { InstancesAreFormed inst.now }
    requires shaped { IsShaped inst.now state.old.state }
    requires label { label < length inst.now.of }
    requires node { node < inst.now.nodes }
    ensures { state.new ≡ receive_updates inst.now state.old label message.now node }
{
    let Some(tag) = find_tag(inst, label, message.tag) else {
        return;
    };
    let Some(receive) = &tag.receive else {
        return;
    };
    let own = Env::Empty(label);
    let me = Env::Number(&own, ME, i64::from(node));
    let env = Env::Number(&me, FROM, i64::from(message.from));
    make(
        inst,
        state,
        label,
        node,
        receive,
        &env,
        tag.args.as_slice(),
        message.arguments(),
    );
}

// Makes the updates that fit, where the parameters stand for these numbers. Most tags have no parameter.
#[inline(always)]
fn make(
    inst: &Instances,
    state: &mut WorldState,
    label: u8,
    node: u32,
    transition: &Transition,
    env: &Env,
    params: &[(u32, Sort)],
    numbers: &[i64],
)
    requires ready { TransitionIsReady (protocol_at inst.now label) transition.now }
    requires shaped { IsShaped inst.now state.old.state }
    requires label { label < length inst.now.of }
    requires node { node < inst.now.nodes }
    ensures { state.new ≡ known_updates inst.now state.old label node (with_numbers (names_of env.now) (arg_names params.now) numbers.now) transition.now.updates }
{
    match params {
        [] => make_most(inst, state, label, node, transition.updates.as_slice(), env),
        _ => make_with(inst, state, label, node, transition, env, params, numbers),
    }
}

#[inline(never)]
fn make_with(
    inst: &Instances,
    state: &mut WorldState,
    label: u8,
    node: u32,
    transition: &Transition,
    env: &Env,
    params: &[(u32, Sort)],
    numbers: &[i64],
)
    requires ready { TransitionIsReady (protocol_at inst.now label) transition.now }
    requires shaped { IsShaped inst.now state.old.state }
    requires label { label < length inst.now.of }
    requires node { node < inst.now.nodes }
    ensures { state.new ≡ known_updates inst.now state.old label node (with_numbers (names_of env.now) (arg_names params.now) numbers.now) transition.now.updates }
{
    let [(name, _), params @ ..] = params else {
        return make_updates(inst, state, label, node, transition.updates.as_slice(), env);
    };
    let [number, numbers @ ..] = numbers else {
        return make_updates(inst, state, label, node, transition.updates.as_slice(), env);
    };
    make_with(
        inst,
        state,
        label,
        node,
        transition,
        &Env::Number(&*env, *name, *number),
        params,
        numbers,
    )
}

// Makes the updates that fit. Most sends have none, and most receives one.
#[inline(always)]
fn make_most(
    inst: &Instances,
    state: &mut WorldState,
    label: u8,
    node: u32,
    updates: &[Update],
    env: &Env,
)
    requires ready { All (UpdateIsReady (protocol_at inst.now label)) updates.now }
    requires once { AreDistinct (updated_fields updates.now) }
    requires shaped { IsShaped inst.now state.old.state }
    requires label { label < length inst.now.of }
    requires node { node < inst.now.nodes }
    ensures { state.new ≡ known_updates inst.now state.old label node (names_of env.now) updates.now }
{
    match updates {
        [] => (),
        [update] => make_one(inst, state, label, node, update, env),
        _ => make_updates(inst, state, label, node, updates, env),
    }
}

// Makes an update, where it fits.
#[inline(always)]
fn make_one(
    inst: &Instances,
    state: &mut WorldState,
    label: u8,
    node: u32,
    update: &Update,
    env: &Env,
)
    requires ready { UpdateIsReady (protocol_at inst.now label) update.now }
    requires shaped { IsShaped inst.now state.old.state }
    requires label { label < length inst.now.of }
    requires node { node < inst.now.nodes }
    ensures { state.new ≡ known_updates inst.now state.old label node (names_of env.now) (update.now ∷ []) }
{
    let Some(write) = write_of(inst, state, label, update, env) else {
        return;
    };
    state.set(label, update.field, node, write.index, write.number);
}

// Makes the updates that fit. Each is looked at before any is made: the later ones are made first, and since they are of
// other fields the order doesn't matter.
#[inline(never)]
fn make_updates(
    inst: &Instances,
    state: &mut WorldState,
    label: u8,
    node: u32,
    updates: &[Update],
    env: &Env,
)
    requires ready { All (UpdateIsReady (protocol_at inst.now label)) updates.now }
    requires once { AreDistinct (updated_fields updates.now) }
    requires shaped { IsShaped inst.now state.old.state }
    requires label { label < length inst.now.of }
    requires node { node < inst.now.nodes }
    ensures { state.new ≡ known_updates inst.now state.old label node (names_of env.now) updates.now }
{
    let [first, rest @ ..] = updates else {
        return;
    };
    let write = write_of(inst, state, label, first, env);
    make_updates(inst, state, label, node, rest, env);
    let Some(write) = write else {
        return;
    };
    state.set(label, first.field, node, write.index, write.number);
}
