//! How many points the procedures of a file have: the commands with an annotation.

ghost use Rattle.std.specs.Prelude.{◌≡◌, ◌^◌, ◌-◌, min, nat_le};
ghost use Rattle.dl_formed.specs.Programs.{points_of, points_of_procs, command_points};

use dl_model::{Command, Proc};

// The most points of a file.
const MOST_POINTS: u64 = 1_048_576;

// Whether the procedures have no more points than a file may have.
pub(crate) fn are_few(procs: &[Proc]) -> bool
    ensures { result ≡ nat_le (points_of_procs procs.now) 1048576 }
{
    all_points(procs) <= MOST_POINTS
}

// The points of the procedures, or the greatest `u64` where they are more.
fn all_points(procs: &[Proc]) -> u64
    ensures { result ≡ min (points_of_procs procs.now) (2 ^ 64 - 1) }
{
    let mut points = 0;
    for proc in procs {
        points = points_of(proc.body.as_slice()).saturating_add(points);
    }
    points
}

#[cycle(points)]
fn points_of(commands: &[Command]) -> u64
    ensures { result ≡ min (points_of commands.now) (2 ^ 64 - 1) }
{
    let mut points = 0;
    for command in commands {
        points = command_points(command).saturating_add(points);
    }
    points
}

#[cycle(points)]
fn command_points(command: &Command) -> u64
    ensures { result ≡ min (command_points command.now) (2 ^ 64 - 1) }
{
    match command {
        Command::Send { .. } => 1,
        Command::Await { .. } => 1,
        Command::Poll { .. } => 1,
        Command::Read { .. } => 1,
        Command::Set { .. } => 0,
        Command::If { yes, no, .. } => {
            points_of(yes.as_slice()).saturating_add(points_of(no.as_slice()))
        }
        Command::While { body, .. } => points_of(body.as_slice()).saturating_add(1),
        Command::Call { .. } => 1,
    }
}
