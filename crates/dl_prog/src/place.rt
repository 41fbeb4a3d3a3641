//! Where a path leads.

ghost use Rattle.std.specs.Prelude.{◌≡◌, ◌<◌, ◌+◌, ◌^◌, Some, OnSome, slice_get};
ghost use Rattle.std.specs.Option.{option_copied};
ghost use Rattle.dl_model.specs.Lookup.{proc_at};
ghost use Rattle.dl_prog.specs.Places.{inner, commands_in, proc_in};

use crate::stack::Step;
use dl_model::{Command, Proc};
use dl_term::Sort;
use sqlite_items::at;

// The commands of a procedure, or none where there is no such procedure.
#[inline(always)]
pub(crate) fn body_of(procs: &[Proc], number: usize) -> &[Command]
    ensures { result.now ≡ (proc_at procs.now number).body }
{
    match at(procs, number) {
        Some(proc) => proc.body.as_slice(),
        None => &[],
    }
}

pub(crate) fn locals_of(procs: &[Proc], number: usize) -> &[u32]
    ensures { result.now ≡ (proc_at procs.now number).locals }
{
    match at(procs, number) {
        Some(proc) => proc.locals.as_slice(),
        None => &[],
    }
}

pub(crate) fn params_of(procs: &[Proc], number: usize) -> &[(u32, Sort)]
    ensures { result.now ≡ (proc_at procs.now number).params }
{
    match at(procs, number) {
        Some(proc) => proc.params.as_slice(),
        None => &[],
    }
}

// The procedure that a path leads into.
pub(crate) fn proc_in(steps: &[Step]) -> u8
    ensures { result ≡ proc_in steps.now }
{
    let [step, outer @ ..] = steps else {
        return 0;
    };
    match step {
        Step::Enter { proc, .. } => *proc,
        Step::Inside { .. } => proc_in(outer),
    }
}

// The commands that a path leads into. Most paths are a procedure, or a command of one: these are followed with no call, and
// only longer ones with a recursion.
#[inline(always)]
pub(crate) fn commands_in<'a>(procs: &'a [Proc], steps: &[Step]) -> &'a [Command]
    ensures { result.now ≡ commands_in procs.now steps.now }
{
    let [step, outer @ ..] = steps else {
        return &[];
    };
    match step {
        Step::Enter { proc, .. } => body_of(procs, usize::from(*proc)),
        Step::Inside { at, first, .. } => commands_at(outer_commands(procs, outer), *at, *first),
    }
}

// The commands around the innermost ones.
#[inline(always)]
fn outer_commands<'a>(procs: &'a [Proc], steps: &[Step]) -> &'a [Command]
    ensures { result.now ≡ commands_in procs.now steps.now }
{
    let [step, outer @ ..] = steps else {
        return &[];
    };
    match step {
        Step::Enter { proc, .. } => body_of(procs, usize::from(*proc)),
        Step::Inside { at, first, .. } => commands_at(far_commands(procs, outer), *at, *first),
    }
}

// The commands that a path of any length leads into.
fn far_commands<'a>(procs: &'a [Proc], steps: &[Step]) -> &'a [Command]
    ensures { result.now ≡ commands_in procs.now steps.now }
{
    let [step, outer @ ..] = steps else {
        return &[];
    };
    match step {
        Step::Enter { proc, .. } => body_of(procs, usize::from(*proc)),
        Step::Inside { at, first, .. } => commands_at(far_commands(procs, outer), *at, *first),
    }
}

// The command at a position, which is then not the greatest number.
#[inline(always)]
pub(crate) fn command_at(commands: &[Command], position: usize) -> Option<&Command>
    ensures value { option_copied result ≡ slice_get commands.now position }
    ensures more { OnSome result (position + 1 < 2 ^ 64) }
{
    if position < commands.len() {
        at(commands, position)
    } else {
        None
    }
}

// The commands in the command at a position.
#[inline(always)]
fn commands_at(commands: &[Command], position: usize, yes: bool) -> &[Command]
    ensures { result.now ≡ inner (slice_get commands.now position) yes }
{
    match at(commands, position) {
        Some(command) => inner(command, yes),
        None => &[],
    }
}

// The commands in a command: of a choice those of one branch.
#[inline(always)]
fn inner(command: &Command, first: bool) -> &[Command]
    ensures { result.now ≡ inner (Some command.now) first }
{
    match command {
        Command::If { yes, no, .. } => { if first { yes.as_slice() } else { no.as_slice() } }
        Command::While { body, .. } => body.as_slice(),
        Command::Send { .. } => &[],
        Command::Await { .. } => &[],
        Command::Poll { .. } => &[],
        Command::Read { .. } => &[],
        Command::Set { .. } => &[],
        Command::Call { .. } => &[],
    }
}
