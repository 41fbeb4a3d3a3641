//! What a list begins with, and what stands behind it.

ghost use Rattle.std.specs.Prelude.{◌≡◌, ◌++◌, ◌∷◌, [], OnOk};
ghost use Rattle.dl_notation.specs.Behind.{entered};
ghost use Rattle.dl_notation.specs.Obligations.{has_point};
ghost use Rattle.dl_scope.specs.Walked.{environment};

use dl_notation::ListRole;
use dl_scope::{Text, Walk, clear};
use std::alloc::{AllocError, Global};

/// Enters an item. Its only error is want of memory.
fn enter_item<'a>(walk: &mut Walk<'a>, alloc: Global, word: &Text<'a>) -> Result<(), AllocError>
    ensures { OnOk result (environment walk.new ≡ entered (environment walk.old) ListRole.Item word.now) }
{
    clear(alloc, &mut walk.scope.variables);
    walk.scope.variables.push(Text::new("me"))?;
    if word.is(b"hook") {
        return walk.scope.variables.push(Text::new("to"));
    }
    Ok(())
}

/// Enters a transition, whose other node has this name. Its only error is want of memory.
fn enter_transition<'a>(
    walk: &mut Walk<'a>,
    alloc: Global,
    other: &'static str,
) -> Result<(), AllocError>
    ensures { OnOk result (environment walk.new ≡ record (environment walk.old) { variables = (environment walk.old).variables ++ other.now ∷ []; listed = [] }) }
{
    clear(alloc, &mut walk.scope.listed);
    walk.scope.variables.push(Text::new(other))
}

/// Whether the command has a point.
fn has_point(word: &Text) -> bool
    ensures { result ≡ has_point word.now }
{
    word.is(b"send")
        || word.is(b"await")
        || word.is(b"poll")
        || word.is(b"read")
        || word.is(b"while")
        || word.is(b"call")
}

/// Enters a command. Its only error is want of memory.
fn enter_command<'a>(walk: &mut Walk<'a>, alloc: Global, word: &Text<'a>) -> Result<(), AllocError>
    ensures { OnOk result (environment walk.new ≡ entered (environment walk.old) ListRole.Command word.now) }
{
    clear(alloc, &mut walk.scope.listed);
    if has_point(word) {
        return walk.points.push(word.copy());
    }
    Ok(())
}

/// Enters a list of things that may stand once. It has no error.
fn enter_listing<'a>(walk: &mut Walk<'a>, alloc: Global) -> Result<(), AllocError>
    ensures { OnOk result (environment walk.new ≡ record (environment walk.old) { listed = [] }) }
{
    clear(alloc, &mut walk.scope.listed);
    Ok(())
}

/// Enters an obligation. It has no error.
fn enter_obligation<'a>(walk: &mut Walk<'a>, word: &Text<'a>) -> Result<(), AllocError>
    ensures { OnOk result (environment walk.new ≡ entered (environment walk.old) ListRole.Obligation word.now) }
{
    walk.scope.obligation = word.copy();
    Ok(())
}

/// Enters a script. It has no error.
fn enter_script<'a>(walk: &mut Walk<'a>, alloc: Global) -> Result<(), AllocError>
    ensures { OnOk result (environment walk.new ≡ record (environment walk.old) { pending = [] }) }
{
    clear(alloc, &mut walk.scope.pending);
    Ok(())
}

/// Enters a list. Its only error is want of memory.
pub(crate) fn enter<'a>(
    walk: &mut Walk<'a>,
    alloc: Global,
    list: ListRole,
    word: &Text<'a>,
) -> Result<(), AllocError>
    ensures { OnOk result (environment walk.new ≡ entered (environment walk.old) list word.now) }
{
    match list {
        ListRole::Item => enter_item(walk, alloc, word),
        ListRole::Send => enter_transition(walk, alloc, "to"),
        ListRole::Receive => enter_transition(walk, alloc, "from"),
        ListRole::SortBody | ListRole::Arguments | ListRole::Parameters => {
            enter_listing(walk, alloc)
        }
        ListRole::WorldLabels | ListRole::WorldHooks => enter_listing(walk, alloc),
        ListRole::Command => enter_command(walk, alloc, word),
        ListRole::Obligation => enter_obligation(walk, word),
        ListRole::Script => enter_script(walk, alloc),
        ListRole::File | ListRole::Nodes | ListRole::ProtocolPart | ListRole::Argument => Ok(()),
        ListRole::Update | ListRole::HookArguments | ListRole::Composition => Ok(()),
        ListRole::Parameter | ListRole::Locals | ListRole::Precondition => Ok(()),
        ListRole::Postcondition | ListRole::Body | ListRole::Return => Ok(()),
        ListRole::Targets | ListRole::Then | ListRole::Else | ListRole::Program => Ok(()),
        ListRole::StepNames | ListRole::Certificate | ListRole::Multiple => Ok(()),
    }
}
