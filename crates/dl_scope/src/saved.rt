//! What the item had named before a list, to be put back behind it.

ghost use Rattle.std.specs.Prelude.{◌≡◌, ◌++◌, OnOk};
ghost use Rattle.dl_scope.specs.Walked.{environment, names_copied, no_scope, reset};

use crate::declared::{Protocol, add_each_sort};
use crate::names::add_all;
use crate::scope::Scope;
use crate::text::Text;
use crate::walk::Walk;
use sqlite_items::Items;
use std::alloc::{AllocError, Global};
use std::mem;

/// Nothing.
pub fn empty_scope<'a>(alloc: Global) -> Scope<'a>
    ensures { result ≡ no_scope }
{
    Scope {
        variables: Items::new(alloc),
        messages: Items::new(alloc),
        hypotheses: Items::new(alloc),
        locals: Items::new(alloc),
        pending: Items::new(alloc),
        own: Protocol::empty(alloc),
        has_own: false,
        parameters: Items::new(alloc),
        sort: None,
        core: Text::new(""),
        label: Text::new(""),
        arguments: None,
        procedure: Text::new(""),
        wanted: Items::new(alloc),
        obligation: Text::new(""),
        named: Items::new(alloc),
        listed: Items::new(alloc),
    }
}

/// Adds whether names are messages. Its only error is want of memory.
fn add_named(named: &mut Items<bool>, more: &[bool]) -> Result<(), AllocError>
    ensures { OnOk result (named.new ≡ named.old ++ more.now) }
{
    for is_message in more {
        named.push(*is_message)?;
    }
    Ok(())
}

/// Adds the names of a scope. Its only error is want of memory.
fn copy_names<'a>(scope: &Scope<'a>, copy: &mut Scope<'a>) -> Result<(), AllocError>
    requires { copy.old ≡ no_scope }
    ensures { OnOk result (copy.new ≡ names_copied scope.now) }
{
    add_all(&mut copy.variables, scope.variables.as_slice())?;
    add_all(&mut copy.messages, scope.messages.as_slice())?;
    add_all(&mut copy.hypotheses, scope.hypotheses.as_slice())?;
    add_all(&mut copy.locals, scope.locals.as_slice())?;
    add_all(&mut copy.pending, scope.pending.as_slice())?;
    add_all(&mut copy.listed, scope.listed.as_slice())
}

/// Adds what a scope holds besides its names. Its only error is want of memory.
fn copy_rest<'a>(scope: &Scope<'a>, copy: &mut Scope<'a>) -> Result<(), AllocError>
    requires { copy.old ≡ names_copied scope.now }
    ensures { OnOk result (copy.new ≡ scope.now) }
{
    copy.own.copy_from(&scope.own)?;
    add_each_sort(&mut copy.parameters, scope.parameters.as_slice())?;
    add_each_sort(&mut copy.wanted, scope.wanted.as_slice())?;
    add_named(&mut copy.named, scope.named.as_slice())?;
    copy.has_own = scope.has_own;
    copy.sort = scope.sort;
    copy.core = scope.core.copy();
    copy.label = scope.label.copy();
    copy.arguments = scope.arguments;
    copy.procedure = scope.procedure.copy();
    copy.obligation = scope.obligation.copy();
    Ok(())
}

/// Makes an empty scope the same as another. Its only error is want of memory.
pub fn copy_scope<'a>(scope: &Scope<'a>, copy: &mut Scope<'a>) -> Result<(), AllocError>
    requires { copy.old ≡ no_scope }
    ensures { OnOk result (copy.new ≡ scope.now) }
{
    copy_names(scope, copy)?;
    copy_rest(scope, copy)
}

/// Puts what the item had named back.
pub fn close<'a>(walk: &mut Walk<'a>, saved: &mut Scope<'a>)
    ensures { environment walk.new ≡ reset (environment walk.old) saved.old }
{
    mem::swap(&mut walk.scope, saved);
}
