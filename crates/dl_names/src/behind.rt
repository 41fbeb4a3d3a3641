//! What stands behind a name.

ghost use Rattle.std.specs.Prelude.{◌≡◌, ◌++◌, ◌∷◌, [], pos, unwrap_or, IfOk, OnOk};
ghost use Rattle.std.specs.Option.{option_copied};
ghost use Rattle.dl_notation.specs.Behind.{all_but_first, constant_behind, declaring, introducing, listing, named_behind, naming, wants_message};
ghost use Rattle.dl_notation.specs.Environment.{no_protocol};
ghost use Rattle.dl_scope.specs.Walked.{environment, sorts_of};

use dl_notation::NameRole;
use dl_scope::{
    Procedure, Protocol, Text, Walk, add, add_each_sort, add_new, arguments_of, clear,
    procedure_named, protocol_named, sort_named,
};
use dl_term::Sort;
use indexmap::IndexMap;
use sqlite_items::Items;
use std::alloc::{AllocError, Global};
use std::mem;

/// Adds a declared name. Its only error is want of memory.
fn declare<'a>(walk: &mut Walk<'a>, text: Text<'a>) -> Result<(), AllocError>
    ensures { OnOk result (environment walk.new ≡ declaring (environment walk.old) text.entry) }
{
    add_new(&mut walk.declared, text)
}

/// Adds a value beside a text that has none. Its only error is want of memory, which it also answers for a text
/// that has one.
pub(crate) fn add_value<'a, V: Copy>(
    map: &mut IndexMap<Text<'a>, V>,
    text: Text<'a>,
    value: V,
) -> Result<(), AllocError>
    ensures { OnOk result (map.new.entries ≡ map.old.entries ++ (text.entry, value) ∷ []) }
{
    match map.insert(text, value) {
        Ok(old) => match old {
            None => Ok(()),
            Some(_) => Err(AllocError),
        },
        Err(_) => Err(AllocError),
    }
}

/// A count as a value. Its only error is a count that passes 2^63 - 1, which no list's length does.
fn value_of(count: usize) -> Result<i64, AllocError>
    ensures { IfOk result (λ value. value ≡ pos count) }
{
    if count > 9_223_372_036_854_775_807 {
        return Err(AllocError);
    }
    Ok(count as i64)
}

/// Adds a node. Its only error is want of memory.
fn declare_node<'a>(walk: &mut Walk<'a>, text: Text<'a>) -> Result<(), AllocError>
    ensures { OnOk result (environment walk.new ≡ named_behind (environment walk.old) NameRole.NewNode text.entry) }
{
    let value = value_of(walk.nodes.len())?;
    add_value(&mut walk.words, text.copy(), value)?;
    walk.nodes.push(text.copy())?;
    declare(walk, text)
}

/// Adds an enumerator. Its only error is want of memory.
fn declare_enumerator<'a>(walk: &mut Walk<'a>, text: Text<'a>) -> Result<(), AllocError>
    ensures { OnOk result (environment walk.new ≡ named_behind (environment walk.old) NameRole.NewEnumerator text.entry) }
{
    let value = value_of(walk.scope.listed.len())?;
    add_value(&mut walk.words, text.copy(), value)?;
    walk.scope.listed.push(text.copy())?;
    declare(walk, text)
}

/// Adds a name that may stand once in its list. Its only error is want of memory.
fn list<'a>(walk: &mut Walk<'a>, text: Text<'a>) -> Result<(), AllocError>
    ensures { OnOk result (environment walk.new ≡ listing (environment walk.old) text.entry) }
{
    walk.scope.listed.push(text)
}

/// Adds an argument or a parameter. Its only error is want of memory.
fn introduce<'a>(walk: &mut Walk<'a>, text: Text<'a>) -> Result<(), AllocError>
    ensures { OnOk result (environment walk.new ≡ introducing (environment walk.old) text.entry) }
{
    add(&mut walk.others, text.copy())?;
    walk.scope.variables.push(text.copy())?;
    walk.scope.listed.push(text)
}

/// Adds a local. Its only error is want of memory.
fn introduce_local<'a>(walk: &mut Walk<'a>, text: Text<'a>) -> Result<(), AllocError>
    ensures { OnOk result (environment walk.new ≡ named_behind (environment walk.old) NameRole.NewLocal text.entry) }
{
    add(&mut walk.others, text.copy())?;
    walk.scope.locals.push(text)
}

/// Adds a name that a script opens. Its only error is want of memory.
fn open<'a>(walk: &mut Walk<'a>, text: Text<'a>) -> Result<(), AllocError>
    ensures { OnOk result (environment walk.new ≡ named_behind (environment walk.old) NameRole.NewOpened text.entry) }
{
    add(&mut walk.others, text.copy())?;
    walk.scope.variables.push(text.copy())?;
    walk.scope.messages.push(text)
}

/// Takes the first of some values away.
pub(crate) fn take_first<V: Copy + Drop>(values: &mut Items<V>)
    ensures { values.new ≡ all_but_first values.old }
{
    if !values.is_empty() {
        let _ = values.remove(0);
    }
}

/// Whether the next name that the obligation wants is a message.
fn wants_message(named: &[bool]) -> bool
    ensures { result ≡ wants_message named.now }
{
    match named.first() {
        Some(is_message) => *is_message,
        None => false,
    }
}

/// Adds a name that a proof gives to a part of its obligation. Its only error is want of memory.
fn name_part<'a>(walk: &mut Walk<'a>, is_message: bool, text: Text<'a>) -> Result<(), AllocError>
    ensures { OnOk result (environment walk.new ≡ naming (environment walk.old) is_message text.entry) }
{
    add(&mut walk.others, text.copy())?;
    take_first(&mut walk.scope.named);
    if is_message {
        walk.scope.messages.push(text)
    } else {
        walk.scope.variables.push(text)
    }
}

/// Adds the next name that a proof gives to a part of its obligation. Its only error is want of memory.
fn name_step<'a>(walk: &mut Walk<'a>, text: Text<'a>) -> Result<(), AllocError>
    ensures { OnOk result (environment walk.new ≡ named_behind (environment walk.old) NameRole.NewStepName text.entry) }
{
    let is_message = wants_message(walk.scope.named.as_slice());
    name_part(walk, is_message, text)
}

/// Adds a hypothesis. Its only error is want of memory.
fn suppose<'a>(walk: &mut Walk<'a>, text: Text<'a>) -> Result<(), AllocError>
    ensures { OnOk result (environment walk.new ≡ named_behind (environment walk.old) NameRole.NewHypothesis text.entry) }
{
    walk.scope.hypotheses.push(text)
}

/// Notes a hypothesis for the script behind the next one. Its only error is want of memory.
fn suppose_later<'a>(walk: &mut Walk<'a>, alloc: Global, text: Text<'a>) -> Result<(), AllocError>
    ensures { OnOk result (environment walk.new ≡ named_behind (environment walk.old) NameRole.NewLastHypothesis text.entry) }
{
    clear(alloc, &mut walk.scope.pending);
    walk.scope.pending.push(text)
}

/// Makes an empty protocol the same as another, where there is one. Its only error is want of memory.
fn fill_protocol<'a>(own: &mut Protocol<'a>, other: Option<&Protocol<'a>>) -> Result<(), AllocError>
    requires { own.old ≡ no_protocol }
    ensures { OnOk result (own.new ≡ unwrap_or (option_copied other.entry) no_protocol) }
{
    match other {
        Some(other) => own.copy_from(other),
        None => Ok(()),
    }
}

/// Makes the protocol of this name the item's own. Its only error is want of memory.
fn take_protocol<'a>(walk: &mut Walk<'a>, alloc: Global, text: Text<'a>) -> Result<(), AllocError>
    ensures { OnOk result (environment walk.new ≡ named_behind (environment walk.old) NameRole.Protocol text.entry) }
{
    let mut own = Protocol::empty(alloc);
    let result = fill_protocol(&mut own, protocol_named(walk, &text));
    mem::swap(&mut walk.scope.own, &mut own);
    drop(own);
    result
}

/// Notes the sort just before. Its only error is want of memory.
fn take_sort<'a>(walk: &mut Walk<'a>, text: Text<'a>) -> Result<(), AllocError>
    ensures { OnOk result (environment walk.new ≡ named_behind (environment walk.old) NameRole.Sort text.entry) }
{
    let sort = sort_named(walk, &text)?;
    walk.scope.sort = sort;
    Ok(())
}

/// Notes the core of a hook. It has no error.
fn take_core<'a>(walk: &mut Walk<'a>, text: Text<'a>) -> Result<(), AllocError>
    ensures { OnOk result (environment walk.new ≡ named_behind (environment walk.old) NameRole.Core text.entry) }
{
    walk.scope.core = text;
    Ok(())
}

/// Notes the label just before. It has no error.
fn take_label<'a>(walk: &mut Walk<'a>, text: Text<'a>) -> Result<(), AllocError>
    ensures { OnOk result (environment walk.new ≡ named_behind (environment walk.old) NameRole.Label text.entry) }
{
    walk.scope.label = text;
    Ok(())
}

/// Notes the number of arguments of the tag just before. It has no error.
fn take_arguments<'a>(walk: &mut Walk<'a>, text: Text<'a>) -> Result<(), AllocError>
    ensures { OnOk result (environment walk.new ≡ named_behind (environment walk.old) NameRole.HookTag text.entry) }
{
    let arguments = arguments_of(walk, &walk.scope.label, &text);
    walk.scope.arguments = arguments;
    Ok(())
}

/// Adds the sorts of a procedure's parameters, where there is one. Its only error is want of memory.
fn add_sorts(sorts: &mut Items<Sort>, procedure: Option<&Procedure>) -> Result<(), AllocError>
    requires { sorts.old ≡ [] }
    ensures { OnOk result (sorts.new ≡ sorts_of (option_copied procedure.entry)) }
{
    match procedure {
        Some(procedure) => add_each_sort(sorts, procedure.sorts.as_slice()),
        None => Ok(()),
    }
}

/// Notes the procedure just before. Its only error is want of memory.
fn take_procedure<'a>(walk: &mut Walk<'a>, alloc: Global, text: Text<'a>) -> Result<(), AllocError>
    ensures { OnOk result (environment walk.new ≡ named_behind (environment walk.old) NameRole.Procedure text.entry) }
{
    let mut wanted = Items::new(alloc);
    let result = add_sorts(&mut wanted, procedure_named(walk, &text));
    mem::swap(&mut walk.scope.wanted, &mut wanted);
    drop(wanted);
    walk.scope.procedure = text;
    result
}

/// Goes past a name. Its only error is want of memory.
pub(crate) fn pass_name<'a>(
    walk: &mut Walk<'a>,
    alloc: Global,
    role: NameRole,
    text: Text<'a>,
) -> Result<(), AllocError>
    ensures { OnOk result (environment walk.new ≡ named_behind (environment walk.old) role text.entry) }
{
    match role {
        NameRole::NewNode => declare_node(walk, text),
        NameRole::NewEnumerator => declare_enumerator(walk, text),
        NameRole::NewSort
        | NameRole::NewProtocol
        | NameRole::NewLabel
        | NameRole::NewHook
        | NameRole::NewWorld
        | NameRole::NewInvariant
        | NameRole::NewProcedure => declare(walk, text),
        NameRole::NewArgument | NameRole::NewHookArgument | NameRole::NewParameter => {
            introduce(walk, text)
        }
        NameRole::NewLocal => introduce_local(walk, text),
        NameRole::NewStepName => name_step(walk, text),
        NameRole::NewOpened => open(walk, text),
        NameRole::NewHypothesis => suppose(walk, text),
        NameRole::NewLastHypothesis => suppose_later(walk, alloc, text),
        NameRole::Protocol => take_protocol(walk, alloc, text),
        NameRole::Sort => take_sort(walk, text),
        NameRole::Core => take_core(walk, text),
        NameRole::Client | NameRole::Label => take_label(walk, text),
        NameRole::HookTag | NameRole::ReceivedTag => take_arguments(walk, text),
        NameRole::ListedLabel
        | NameRole::ListedHook
        | NameRole::UpdatedField
        | NameRole::Target
        | NameRole::DeployedNode => list(walk, text),
        NameRole::Procedure => take_procedure(walk, alloc, text),
        NameRole::NewField | NameRole::NewTag | NameRole::World | NameRole::Invariant => Ok(()),
        NameRole::SentTag | NameRole::ReadField | NameRole::Callee | NameRole::Node => Ok(()),
        NameRole::Claimed | NameRole::ProtocolTag | NameRole::StepTag => Ok(()),
        NameRole::Hypothesis | NameRole::Rewritten => Ok(()),
    }
}

/// Goes past a constant.
pub(crate) fn pass_constant(walk: &mut Walk)
    ensures { environment walk.new ≡ constant_behind (environment walk.old) }
{
    take_first(&mut walk.scope.wanted);
}
