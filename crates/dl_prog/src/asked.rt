//! Calls that are answered at once.
//!
//! An answer is large, and each function that hands it up costs a copy. The commonest calls of a machine, a send without
//! arguments and an await, are therefore read as something small, and become an answer only in the last place.

ghost use Rattle.std.specs.Prelude.{Some, slice_get};
ghost use Rattle.dl_prog.specs.Asked.{AsksFor, IsSend};
ghost use Rattle.dl_prog.specs.Slots.{named};

use crate::slots::Slot;
use crate::values::plain;
use dl_model::Command;
use dl_term::Term;
use sqlite_items::at;

// What a command asks for.
#[derive(Clone, Copy)]
pub(crate) enum Asked {
    // A message without arguments, to an addressee that is found at once.
    Send { label: u8, tag: u8, to: i64 },
    Await { label: u8, tag: u8 },
    // Anything, these two as well.
    Other,
}

// What the command at a position asks for.
#[inline(always)]
pub(crate) fn asked_at(commands: &[Command], position: usize, slots: &[Slot; 25]) -> Asked
    ensures { AsksFor (slice_get commands.now position) (named slots.now) result }
{
    match at(commands, position) {
        Some(command) => asked_by(command, slots),
        None => Asked::Other,
    }
}

#[inline(always)]
fn asked_by(command: &Command, slots: &[Slot; 25]) -> Asked
    ensures { AsksFor (Some command.now) (named slots.now) result }
{
    match command {
        Command::Send {
            label,
            tag,
            to,
            args,
            ..
        } => plain_send(*label, *tag, to, args.as_slice(), slots),
        Command::Await { label, tag, .. } => Asked::Await {
            label: *label,
            tag: *tag,
        },
        Command::Poll { .. } => Asked::Other,
        Command::Read { .. } => Asked::Other,
        Command::Set { .. } => Asked::Other,
        Command::If { .. } => Asked::Other,
        Command::While { .. } => Asked::Other,
        Command::Call { .. } => Asked::Other,
    }
}

#[inline(always)]
fn plain_send(label: u8, tag: u8, to: &Term, args: &[Term], slots: &[Slot; 25]) -> Asked
    ensures { IsSend label tag to.now args.now (named slots.now) result }
{
    let [] = args else {
        return Asked::Other;
    };
    match plain(to, slots) {
        Some(to) => Asked::Send { label, tag, to },
        None => Asked::Other,
    }
}
