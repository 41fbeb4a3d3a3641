//! Whether a step can be made, and whether a send meets a hook.

ghost use Rattle.std.specs.Prelude.{◌≡◌, ◌↔◌, ◌&&◌, ℕ, IsTrue, length};
ghost use Rattle.std.specs.List.{list_all, All};
ghost use Rattle.dl_term.specs.Names.{names_of};
ghost use Rattle.dl_term.specs.Meaning.{holds};
ghost use Rattle.dl_term.specs.Measures.{EachIsNarrow};
ghost use Rattle.dl_model.specs.declared.file.Decls.{Decls};
ghost use Rattle.dl_model.specs.Lookup.{protocol_at, tag_at, arg_names, hook_at};
ghost use Rattle.dl_model.specs.Words.{send_names, receive_names, with_numbers};
ghost use Rattle.dl_model.specs.Steps.{IsEnabled, IsReceivable, update_fits, hook_holds};
ghost use Rattle.dl_model.specs.Formed.{InstancesAreFormed};
ghost use Rattle.dl_proto.specs.Ready.{UpdateIsReady, TransitionIsReady, TagIsReady, passes, send_passes, receive_passes};

use crate::find::{are_in_sorts, find_tag, is_node};
use crate::write::write_of;
use dl_model::{Hook, Instances, Tag, Transition, Update};
use dl_state::{Message, WorldState};
use dl_term::{Env, Formula, Sort, holds};

// The name of `me` in guards, updates and hooks.
pub(crate) const ME: u32 = 4;

// The name of `to` in the guards and updates of sends, and in hooks.
pub(crate) const TO: u32 = 5;

// The name of `from` in the guards and updates of receives.
pub(crate) const FROM: u32 = 6;

/// Whether a node's send of a tag, to this addressee and with these arguments, is enabled. The condition is that the
/// instances are formed. It takes no memory.
pub fn enabled(
    inst: &Instances,
    state: &WorldState,
    label: u8,
    tag: u8,
    from: u32,
    to: i64,
    args: &[i64],
) -> bool
    requires { InstancesAreFormed inst.now }
    ensures { IsTrue result ↔ IsEnabled inst.now state.now.state from label tag to args.now }
{
    match find_tag(inst, label, tag) {
        Some(found) => can_send(inst, state, label, found, from, to, args),
        None => false,
    }
}

#[inline(always)]
fn can_send(
    inst: &Instances,
    state: &WorldState,
    label: u8,
    tag: &Tag,
    from: u32,
    to: i64,
    args: &[i64],
) -> bool
    requires { TagIsReady (protocol_at inst.now label) tag.now }
    ensures { result ≡ send_passes inst.now state.now.state label tag.now from to args.now }
{
    let own = Env::Empty(label);
    let me = Env::Number(&own, ME, i64::from(from));
    let env = Env::Number(&me, TO, to);
    is_node(inst.nodes, i128::from(to))
        && are_in_sorts(tag.args.as_slice(), args)
        && can_step(
            inst,
            state,
            label,
            &tag.send,
            &env,
            tag.args.as_slice(),
            args,
        )
}

/// Whether a node can receive the message with this id in the label's soup. The condition is that the instances are
/// formed. It takes no memory.
pub fn receivable(inst: &Instances, state: &WorldState, label: u8, id: u32, node: u32) -> bool
    requires { InstancesAreFormed inst.now }
    ensures { IsTrue result ↔ IsReceivable inst.now state.now.state node label id }
{
    match state.message(label, id) {
        Some(message) => {
            message.live
                && message.to == i64::from(node)
                && can_take(inst, state, label, message, node)
        }
        None => false,
    }
}

#[inline(always)]
fn can_take(inst: &Instances, state: &WorldState, label: u8, message: &Message, node: u32) -> bool
    requires { InstancesAreFormed inst.now }
    ensures { result ≡ receive_passes inst.now state.now.state label (tag_at inst.now label message.now.tag) message.now node }
{
    let Some(tag) = find_tag(inst, label, message.tag) else {
        return false;
    };
    let Some(receive) = &tag.receive else {
        return false;
    };
    let own = Env::Empty(label);
    let me = Env::Number(&own, ME, i64::from(node));
    let env = Env::Number(&me, FROM, i64::from(message.from));
    are_in_sorts(tag.args.as_slice(), message.arguments())
        && can_step(
            inst,
            state,
            label,
            receive,
            &env,
            tag.args.as_slice(),
            message.arguments(),
        )
}

/// Whether a send meets a hook: its formula holds in this state, which is the one before the send. The hook is one of
/// the send's label and tag. It takes no memory.
///
/// The condition is that the bound of each term in the formula is at most 2^127 - 1.
pub fn meets(hook: &Hook, state: &WorldState, from: u32, to: i64, args: &[i64]) -> bool
    requires { EachIsNarrow hook.now.formula }
    ensures formula { result ≡ holds hook.now.formula (send_names 0 hook.now.args from to args.now) state.now.state }
    ensures hook { (decls : Decls) (number : ℕ) → hook_at decls number ≡ hook.now → result ≡ hook_holds decls state.now.state number from to args.now }
{
    let own = Env::Empty(0);
    let me = Env::Number(&own, ME, i64::from(from));
    let env = Env::Number(&me, TO, to);
    holds_with(&hook.formula, &env, hook.args.as_slice(), args, state)
}

// Whether a formula holds, where these names stand for these numbers.
fn holds_with(
    formula: &Formula,
    env: &Env,
    names: &[u32],
    numbers: &[i64],
    state: &WorldState,
) -> bool
    requires { EachIsNarrow formula.now }
    ensures { result ≡ holds formula.now (with_numbers (names_of env.now) names.now numbers.now) state.now.state }
{
    let [name, names @ ..] = names else {
        return holds(formula, env, state);
    };
    let [number, numbers @ ..] = numbers else {
        return holds(formula, env, state);
    };
    holds_with(
        formula,
        &Env::Number(&*env, *name, *number),
        names,
        numbers,
        state,
    )
}

// Whether the guard holds and each update fits, where the parameters stand for these numbers. Most tags have no
// parameter.
#[inline(always)]
fn can_step(
    inst: &Instances,
    state: &WorldState,
    label: u8,
    transition: &Transition,
    env: &Env,
    params: &[(u32, Sort)],
    numbers: &[i64],
) -> bool
    requires { TransitionIsReady (protocol_at inst.now label) transition.now }
    ensures { result ≡ passes inst.now label (with_numbers (names_of env.now) (arg_names params.now) numbers.now) state.now.state transition.now }
{
    match params {
        [] => passes_all(inst, state, label, transition, env),
        _ => can_step_with(inst, state, label, transition, env, params, numbers),
    }
}

#[inline(never)]
fn can_step_with(
    inst: &Instances,
    state: &WorldState,
    label: u8,
    transition: &Transition,
    env: &Env,
    params: &[(u32, Sort)],
    numbers: &[i64],
) -> bool
    requires { TransitionIsReady (protocol_at inst.now label) transition.now }
    ensures { result ≡ passes inst.now label (with_numbers (names_of env.now) (arg_names params.now) numbers.now) state.now.state transition.now }
{
    let [(name, _), params @ ..] = params else {
        return passes_all(inst, state, label, transition, env);
    };
    let [number, numbers @ ..] = numbers else {
        return passes_all(inst, state, label, transition, env);
    };
    can_step_with(
        inst,
        state,
        label,
        transition,
        &Env::Number(&*env, *name, *number),
        params,
        numbers,
    )
}

// Whether the guard holds and each update fits.
#[inline(always)]
fn passes_all(
    inst: &Instances,
    state: &WorldState,
    label: u8,
    transition: &Transition,
    env: &Env,
) -> bool
    requires { TransitionIsReady (protocol_at inst.now label) transition.now }
    ensures { result ≡ passes inst.now label (names_of env.now) state.now.state transition.now }
{
    guard_holds(&transition.guard, env, state)
        && updates_fit(inst, state, label, transition.updates.as_slice(), env)
}

// Whether a guard holds. Most transitions have none, which is the guard `true`.
#[inline(always)]
#[tactic(auto, unfolding(dl_term::specs::Syntax::opened))]
fn guard_holds(guard: &Formula, env: &Env, state: &WorldState) -> bool
    requires { EachIsNarrow guard.now }
    ensures { result ≡ holds guard.now (names_of env.now) state.now.state }
{
    match guard {
        Formula::True => true,
        _ => holds(guard, env, state),
    }
}

#[inline(always)]
fn updates_fit(
    inst: &Instances,
    state: &WorldState,
    label: u8,
    updates: &[Update],
    env: &Env,
) -> bool
    requires { All (UpdateIsReady (protocol_at inst.now label)) updates.now }
    ensures { result ≡ list_all (update_fits inst.now label (names_of env.now) state.now.state) updates.now }
{
    updates.iter().all(|update| write_of(inst, state, label, update, env).is_some())
}
