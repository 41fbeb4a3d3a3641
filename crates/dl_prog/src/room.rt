//! How much room a machine needs: a step for each choice, loop and procedure that it is in.

ghost use Rattle.std.specs.Prelude.{◌≡◌, ◌^◌, ◌-◌, min, max};
ghost use Rattle.dl_prog.specs.Ready.{depth_of, command_depth, room_below};

use crate::place::body_of;
use dl_model::{Command, Proc};

// What a chain of calls of the first procedures needs at most, or the greatest `u64` where that is more.
pub(crate) fn room_below(procs: &[Proc], count: usize) -> u64
    ensures { result ≡ min (room_below procs.now count) (2 ^ 64 - 1) }
{
    let mut room: u64 = 0;
    for number in 0..count {
        room = room.saturating_add(depth_of(body_of(procs, number)).saturating_add(1));
    }
    room
}

// How deep choices and loops nest.
#[cycle(depth)]
fn depth_of(commands: &[Command]) -> u64
    ensures { result ≡ min (depth_of commands.now) (2 ^ 64 - 1) }
{
    let mut depth = 0;
    for command in commands {
        depth = greater(command_depth(command), depth);
    }
    depth
}

#[cycle(depth)]
fn command_depth(command: &Command) -> u64
    ensures { result ≡ min (command_depth command.now) (2 ^ 64 - 1) }
{
    match command {
        Command::If { yes, no, .. } => {
            greater(depth_of(yes.as_slice()), depth_of(no.as_slice())).saturating_add(1)
        }
        Command::While { body, .. } => depth_of(body.as_slice()).saturating_add(1),
        Command::Send { .. } => 0,
        Command::Await { .. } => 0,
        Command::Poll { .. } => 0,
        Command::Read { .. } => 0,
        Command::Set { .. } => 0,
        Command::Call { .. } => 0,
    }
}

fn greater(left: u64, right: u64) -> u64
    ensures { result ≡ max left right }
{
    if left < right { right } else { left }
}
