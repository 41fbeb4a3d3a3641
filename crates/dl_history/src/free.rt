//! Calls of nodes without a program.

ghost use Rattle.std.specs.Prelude.{◌≡◌, ◌↔◌, IsTrue, if◌then◌else◌, ◌&&◌, ◌==◌, true};
ghost use Rattle.std.specs.List.{list_all};
ghost use Rattle.dl_term.specs.Measures.{EachIsNarrow};
ghost use Rattle.dl_model.specs.Formed.{IsFormed};
ghost use Rattle.dl_model.specs.Lookup.{composed};
ghost use Rattle.dl_model.specs.Runs.{IsFreeCall};
ghost use Rattle.dl_model.specs.Steps.{Sending, IsEnabled, Meets};
ghost use Rattle.dl_model.specs.Words.{send_names};
ghost use Rattle.dl_term.specs.Meaning.{holds};
ghost use Rattle.dl_history.specs.Taken.{hook_met, IsFreeTo, IsSent};

use crate::declared::hooks_of;
use crate::replies::{is_receipt, is_sent, listed};
use dl_model::{Call, Decls, Hook, Reply};
use dl_proto::{enabled, meets};
use dl_state::WorldState;
use sqlite_items::at;

// Whether a node without a program may make the call and get the reply.
pub(crate) fn is_free_call(
    decls: &Decls,
    state: &WorldState,
    node: u32,
    call: &Call,
    reply: &Reply,
) -> bool
    requires { IsFormed decls.now }
    ensures { IsTrue result ↔ IsFreeCall decls.now state.now.state node call.now reply.now }
{
    is_allowed(decls, state, node, call, reply)
}

fn is_allowed(decls: &Decls, state: &WorldState, node: u32, call: &Call, reply: &Reply) -> bool
    requires { IsFormed decls.now }
    ensures { IsTrue result ↔ IsFreeTo decls.now state.now.state node call.now reply.now }
{
    match call {
        Call::Send {
            label,
            tag,
            to,
            args,
        } => sends_freely(decls, state, node, *label, *tag, *to, listed(args), reply),
        Call::Poll { label, tag } => is_receipt(&decls.inst, state, node, *label, *tag, reply),
        Call::Await { .. } => false,
        Call::Read { .. } => false,
    }
}

// Whether a node without a program may make the send and get the reply.
fn sends_freely(
    decls: &Decls,
    state: &WorldState,
    node: u32,
    label: u8,
    tag: u8,
    to: i64,
    args: &[i64],
    reply: &Reply,
) -> bool
    requires { IsFormed decls.now }
    ensures { IsTrue result ↔ (IsSent state.now.state label reply.now × IsEnabled decls.now.inst state.now.state node label tag to args.now × Meets decls.now (composed decls.now) state.now.state node (Sending label tag to args.now)) }
{
    if !is_sent(state, label, reply) {
        return false;
    }
    if !enabled(&decls.inst, state, label, tag, node, to, args) {
        return false;
    }
    meets_hooks(decls, state, node, label, tag, to, args)
}

// Whether a send meets the hooks of the composed world.
fn meets_hooks(
    decls: &Decls,
    state: &WorldState,
    node: u32,
    label: u8,
    tag: u8,
    to: i64,
    args: &[i64],
) -> bool
    requires { IsFormed decls.now }
    ensures { IsTrue result ↔ Meets decls.now (composed decls.now) state.now.state node (Sending label tag to args.now) }
{
    meets_each(decls, hooks_of(decls), state, node, label, tag, to, args)
}

fn meets_each(
    decls: &Decls,
    hooks: &[u8],
    state: &WorldState,
    node: u32,
    label: u8,
    tag: u8,
    to: i64,
    args: &[i64],
) -> bool
    requires { IsFormed decls.now }
    ensures { result ≡ list_all (hook_met decls.now state.now.state node label tag to args.now) hooks.now }
{
    hooks.iter().all(|hook| meets_hook(decls, state, *hook, node, label, tag, to, args))
}

fn meets_hook(
    decls: &Decls,
    state: &WorldState,
    hook: u8,
    node: u32,
    label: u8,
    tag: u8,
    to: i64,
    args: &[i64],
) -> bool
    requires { IsFormed decls.now }
    ensures { result ≡ hook_met decls.now state.now.state node label tag to args.now hook }
{
    match at(decls.hooks.as_slice(), usize::from(hook)) {
        Some(found) => meets_found(found, state, node, label, tag, to, args),
        None => true,
    }
}

fn meets_found(
    hook: &Hook,
    state: &WorldState,
    node: u32,
    label: u8,
    tag: u8,
    to: i64,
    args: &[i64],
) -> bool
    requires { EachIsNarrow hook.now.formula }
    ensures { result ≡ (if (hook.now.client == label) && (hook.now.tag == tag) then holds hook.now.formula (send_names 0 hook.now.args node to args.now) state.now.state else true) }
{
    if hook.client == label && hook.tag == tag {
        meets(hook, state, node, to, args)
    } else {
        true
    }
}
