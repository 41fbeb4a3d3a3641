//! Which points of procedures are sends.

ghost use Rattle.std.specs.Prelude.{◌≡◌, ◌++◌, [], false, slice_get, unwrap_or, IfOk, OnOk};
ghost use Rattle.dl_means.specs.Points.{is_send_in as sends_in};
ghost use Rattle.dl_means.specs.Flags.{flags_of, flags_in, flags_of_all, is_flagged, fits_flags};

use dl_model::{Command, Proc};
use dl_sequent::Duty;
use sqlite_items::Items;
use std::alloc::{AllocError, Global};

/// Adds of each point of these commands whether it is a send.
#[cycle(points)]
fn add_points(commands: &[Command], points: &mut Items<bool>) -> Result<(), AllocError>
    ensures { OnOk result (points.new ≡ points.old ++ flags_in commands.now) }
{
    for command in commands {
        add_points_of(command, points)?;
    }
    Ok(())
}

#[cycle(points)]
fn add_points_of(command: &Command, points: &mut Items<bool>) -> Result<(), AllocError>
    ensures { OnOk result (points.new ≡ points.old ++ flags_of command.now) }
{
    match command {
        Command::Send { .. } => points.push(true),
        Command::Await { .. } => points.push(false),
        Command::Poll { .. } => points.push(false),
        Command::Read { .. } => points.push(false),
        Command::Set { .. } => Ok(()),
        Command::If { yes, no, .. } => {
            add_points(yes.as_slice(), points)?;
            add_points(no.as_slice(), points)?;
            Ok(())
        }
        Command::While { body, .. } => {
            points.push(false)?;
            add_points(body.as_slice(), points)?;
            Ok(())
        }
        Command::Call { .. } => points.push(false),
    }
}

/// Of each point of a procedure whether it is a send.
fn points_of(alloc: Global, proc: &Proc) -> Result<Items<bool>, AllocError>
    ensures { IfOk result (λ points. points ≡ flags_in proc.now.body) }
{
    let mut points = Items::new(alloc);
    add_points(proc.body.as_slice(), &mut points)?;
    Ok(points)
}

/// The same of each procedure. Its only error is want of memory.
pub(crate) fn points_of_all(alloc: Global, procs: &[Proc]) -> Result<Items<Items<bool>>, AllocError>
    ensures { IfOk result (λ points. points ≡ flags_of_all procs.now) }
{
    let mut all = Items::new(alloc);
    for proc in procs {
        all.push(points_of(alloc, proc)?)?;
    }
    Ok(all)
}

fn flag_at(points: &[bool], at: usize) -> bool
    ensures { result ≡ unwrap_or (slice_get points.now at) false }
{
    match points.get(at) {
        Some(is) => *is,
        None => false,
    }
}

/// Whether the point of this number, from 1, is a send.
fn is_send_in(points: &[bool], point: u32) -> bool
    ensures { result ≡ sends_in points.now point }
{
    if point == 0 {
        return false;
    }
    flag_at(points, point as usize - 1)
}

/// The points of the procedure of this number, and none where there is no such procedure.
fn points_numbered(points: &[Items<bool>], proc: u8) -> &[bool]
    ensures { result.now ≡ unwrap_or (slice_get points.now proc) [] }
{
    match points.get(usize::from(proc)) {
        Some(flags) => flags.as_slice(),
        None => &[],
    }
}

/// Whether the point of this number of a procedure is a send, by the points of each.
fn is_send(points: &[Items<bool>], proc: u8, point: u32) -> bool
    ensures { result ≡ is_flagged points.now proc point }
{
    is_send_in(points_numbered(points, proc), point)
}

/// Whether what follows a send is about one, and what follows a read isn't: both are written alike.
pub(crate) fn fits_point(points: &[Items<bool>], duty: Duty) -> bool
    ensures { result ≡ fits_flags points.now duty }
{
    match duty {
        Duty::InitProtocol { .. } => true,
        Duty::InitInvariant { .. } => true,
        Duty::StepProtocol { .. } => true,
        Duty::StepInvariant { .. } => true,
        Duty::Start { .. } => true,
        Duty::Guard { .. } => true,
        Duty::AfterSend { proc, point } => is_send(points, proc, point),
        Duty::Got { .. } => true,
        Duty::Miss { .. } => true,
        Duty::AfterRead { proc, point } => !is_send(points, proc, point),
        Duty::Body { .. } => true,
        Duty::Exit { .. } => true,
        Duty::Enter { .. } => true,
        Duty::Leave { .. } => true,
        Duty::Stable { .. } => true,
        Duty::Frame { .. } => true,
        Duty::Deploy { .. } => true,
    }
}
