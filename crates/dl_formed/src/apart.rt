//! Whether no quantifier of the file binds the name of another variable.

ghost use Rattle.std.specs.Prelude.{◌≡◌, IfOk};
ghost use Rattle.std.specs.List.{list_all};
ghost use Rattle.dl_model.specs.Formed.{file_variables};
ghost use Rattle.dl_formed.specs.Decided.{receive_is_apart, tag_is_apart, coherence_is_apart, protocol_is_apart, hook_is_apart, invariant_is_apart};
ghost use Rattle.dl_formed.specs.Programs.{proc_is_apart, command_is_apart};
ghost use Rattle.dl_formed.specs.Whole.{binds_none_of};

use crate::collect::variables_of_file;
use crate::formulas;
use crate::names::NameSet;
use dl_model::{Command, Decls, Hook, Invariant, Proc, Protocol, Tag, Transition};
use dl_term::Formula;
use std::alloc::{AllocError, Global};

// Whether no quantifier of the file binds the name of another variable.
pub(crate) fn is_apart(alloc: Global, decls: &Decls) -> Result<bool, AllocError>
    ensures { IfOk result (λ apart. apart ≡ binds_none_of (file_variables decls.now) decls.now) }
{
    let variables = variables_of_file(alloc, decls)?;
    let apart = is_apart_from(alloc, decls, variables.as_slice());
    drop(variables);
    apart
}

fn is_apart_from(alloc: Global, decls: &Decls, variables: &[u32]) -> Result<bool, AllocError>
    ensures { IfOk result (λ apart. apart ≡ binds_none_of variables.now decls.now) }
{
    let names = NameSet::of(alloc, variables)?;
    let apart = file_is_apart(decls, &names);
    drop(names);
    Ok(apart)
}

fn file_is_apart(decls: &Decls, names: &NameSet) -> bool
    ensures { result ≡ binds_none_of names.now decls.now }
{
    protocols_are_apart(decls.inst.protocols.as_slice(), names)
        && hooks_are_apart(decls.hooks.as_slice(), names)
        && invariants_are_apart(decls.invariants.as_slice(), names)
        && procs_are_apart(decls.procs.as_slice(), names)
}

fn protocols_are_apart(protocols: &[Protocol], names: &NameSet) -> bool
    ensures { result ≡ list_all (protocol_is_apart names.now) protocols.now }
{
    for protocol in protocols {
        if !protocol_is_apart(protocol, names) {
            return false;
        }
    }
    true
}

fn protocol_is_apart(protocol: &Protocol, names: &NameSet) -> bool
    ensures { result ≡ protocol_is_apart names.now protocol.now }
{
    tags_are_apart(protocol.tags.as_slice(), names)
        && coherence_is_apart(&protocol.coherence, names)
}

fn tags_are_apart(tags: &[Tag], names: &NameSet) -> bool
    ensures { result ≡ list_all (tag_is_apart names.now) tags.now }
{
    for tag in tags {
        if !tag_is_apart(tag, names) {
            return false;
        }
    }
    true
}

fn tag_is_apart(tag: &Tag, names: &NameSet) -> bool
    ensures { result ≡ tag_is_apart names.now tag.now }
{
    formulas::is_apart(&tag.send.guard, names) && receive_is_apart(&tag.receive, names)
}

fn receive_is_apart(receive: &Option<Transition>, names: &NameSet) -> bool
    ensures { result ≡ receive_is_apart names.now receive.now }
{
    match receive {
        Some(step) => formulas::is_apart(&step.guard, names),
        None => true,
    }
}

fn coherence_is_apart(coherence: &Option<Formula>, names: &NameSet) -> bool
    ensures { result ≡ coherence_is_apart names.now coherence.now }
{
    match coherence {
        Some(formula) => formulas::is_apart(formula, names),
        None => true,
    }
}

fn hooks_are_apart(hooks: &[Hook], names: &NameSet) -> bool
    ensures { result ≡ list_all (hook_is_apart names.now) hooks.now }
{
    for hook in hooks {
        if !formulas::is_apart(&hook.formula, names) {
            return false;
        }
    }
    true
}

fn invariants_are_apart(invariants: &[Invariant], names: &NameSet) -> bool
    ensures { result ≡ list_all (invariant_is_apart names.now) invariants.now }
{
    for invariant in invariants {
        if !formulas::is_apart(&invariant.formula, names) {
            return false;
        }
    }
    true
}

fn procs_are_apart(procs: &[Proc], names: &NameSet) -> bool
    ensures { result ≡ list_all (proc_is_apart names.now) procs.now }
{
    for proc in procs {
        if !proc_is_apart(proc, names) {
            return false;
        }
    }
    true
}

fn proc_is_apart(proc: &Proc, names: &NameSet) -> bool
    ensures { result ≡ proc_is_apart names.now proc.now }
{
    formulas::is_apart(&proc.pre, names)
        && formulas::is_apart(&proc.post, names)
        && commands_are_apart(proc.body.as_slice(), names)
}

#[cycle(commands)]
fn commands_are_apart(commands: &[Command], names: &NameSet) -> bool
    ensures { result ≡ list_all (command_is_apart names.now) commands.now }
{
    for command in commands {
        if !command_is_apart(command, names) {
            return false;
        }
    }
    true
}

#[cycle(commands)]
fn command_is_apart(command: &Command, names: &NameSet) -> bool
    ensures { result ≡ command_is_apart names.now command.now }
{
    match command {
        Command::Send { note, .. } => formulas::is_apart(note, names),
        Command::Await { note, .. } => formulas::is_apart(note, names),
        Command::Poll { note, .. } => formulas::is_apart(note, names),
        Command::Read { note, .. } => formulas::is_apart(note, names),
        Command::Set { .. } => true,
        Command::If { yes, no, .. } => {
            if !commands_are_apart(yes.as_slice(), names) {
                return false;
            }
            commands_are_apart(no.as_slice(), names)
        }
        Command::While { note, body, .. } => {
            if !formulas::is_apart(note, names) {
                return false;
            }
            commands_are_apart(body.as_slice(), names)
        }
        Command::Call { note, frame, .. } => {
            formulas::is_apart(note, names) && formulas::is_apart(frame, names)
        }
    }
}
