//! The points of a procedure: where one stands, and what has to hold after it. Points go by their numbers from 0 on here.

ghost use Rattle.std.specs.Prelude.{◌≡◌, ◌∷◌, ◌^◌, ◌-◌, true, min, OnOk};
ghost use Rattle.dl_term.specs.Measures.{is_oversized};
ghost use Rattle.dl_model.specs.Block.{block_of};
ghost use Rattle.dl_triples.specs.Points.{next_of, point_at};
ghost use Rattle.dl_triples.specs.Commands.{command_points, points_of_commands};
ghost use Rattle.dl_points.specs.Passing.{after_of};
ghost use Rattle.dl_points.specs.Finding.{found_at, found_in, next_at, next_in};

use crate::backward::{Trail, after_over, put_formula};
use dl_inv::BuildFault;
use dl_model::{Command, Proc};
use dl_term::Formula;
use std::alloc::Global;

// ---- how many points there are

// The points of the commands, or the greatest `u64` where they are more.
#[cycle(count)]
fn count_all(commands: &[Command]) -> u64
    ensures { result ≡ min (points_of_commands commands.now) (2 ^ 64 - 1) }
{
    let mut points = 0;
    for command in commands {
        points = count(command).saturating_add(points);
    }
    points
}

#[cycle(count)]
fn count(command: &Command) -> u64
    ensures { result ≡ min (command_points command.now) (2 ^ 64 - 1) }
{
    match command {
        Command::Send { .. } => 1,
        Command::Await { .. } => 1,
        Command::Poll { .. } => 1,
        Command::Read { .. } => 1,
        Command::Set { .. } => 0,
        Command::If { yes, no, .. } => {
            count_all(yes.as_slice()).saturating_add(count_all(no.as_slice()))
        }
        Command::While { body, .. } => count_all(body.as_slice()).saturating_add(1),
        Command::Call { .. } => 1,
    }
}

// ---- where a point stands

// The commands from the point on, to the end of its block, and none where there is no such point.
#[cycle(find)]
fn find<'a>(commands: &'a [Command], point: u32) -> &'a [Command]
    ensures { block_of result.now ≡ found_in (block_of commands.now) point }
{
    let mut left = point;
    for (index, command) in commands.iter().enumerate() {
        let points = count(command);
        if u64::from(left) < points {
            return find_at(command, &commands[index..], &commands[index + 1..], left);
        }
        left -= points as u32;
    }
    &[]
}

// The same for a point of a command, with the commands from this one on, and those after it.
#[cycle(find)]
fn find_at<'a>(
    command: &'a Command,
    here: &'a [Command],
    rest: &'a [Command],
    point: u32,
) -> &'a [Command]
    requires { here.now ≡ command.now ∷ rest.now }
    ensures { block_of result.now ≡ found_at command.now (block_of rest.now) point }
{
    match command {
        Command::Send { .. } => here,
        Command::Await { .. } => here,
        Command::Poll { .. } => here,
        Command::Read { .. } => here,
        Command::Set { .. } => &[],
        Command::If { yes, no, .. } => {
            let points = count_all(yes.as_slice());
            if u64::from(point) < points {
                return find(yes.as_slice(), point);
            }
            find(no.as_slice(), point - points as u32)
        }
        Command::While { body, .. } => {
            if point == 0 {
                return here;
            }
            find(body.as_slice(), point - 1)
        }
        Command::Call { .. } => here,
    }
}

/// The commands of a procedure from the point with this number from 1 on, to the end of its block, and none where there is
/// no such point.
pub fn commands_from(proc: &Proc, point: u32) -> &[Command]
    ensures { block_of result.now ≡ (point_at proc.now point).block }
{
    if point == 0 {
        return &[];
    }
    find(proc.body.as_slice(), point - 1)
}

// ---- what has to hold after a point

#[cycle(next)]
fn next_over(
    alloc: Global,
    commands: &[Command],
    point: u32,
    trail: &Trail,
    formula: &mut Formula,
) -> Result<(), BuildFault>
    ensures made { OnOk result (formula.new ≡ next_in (block_of commands.now) (after_of trail.now) point) }
    ensures limit { (result ≡ Err BuildFault.Limit) → is_oversized (next_in (block_of commands.now) (after_of trail.now) point) ≡ true }
{
    let mut left = point;
    for (index, command) in commands.iter().enumerate() {
        let points = count(command);
        if u64::from(left) < points {
            let outer = Trail::Runs(&*trail, &commands[index + 1..]);
            return next_at_over(alloc, command, left, &outer, formula);
        }
        left -= points as u32;
    }
    put_formula(formula, Formula::True);
    Ok(())
}

// The same for a point of a command, with what comes after this one.
#[cycle(next)]
fn next_at_over(
    alloc: Global,
    command: &Command,
    point: u32,
    trail: &Trail,
    formula: &mut Formula,
) -> Result<(), BuildFault>
    ensures made { OnOk result (formula.new ≡ next_at command.now (after_of trail.now) point) }
    ensures limit { (result ≡ Err BuildFault.Limit) → is_oversized (next_at command.now (after_of trail.now) point) ≡ true }
{
    match command {
        Command::Send { .. } => after_over(alloc, trail, formula),
        Command::Await { .. } => after_over(alloc, trail, formula),
        Command::Poll { .. } => after_over(alloc, trail, formula),
        Command::Read { .. } => after_over(alloc, trail, formula),
        Command::Set { .. } => after_over(alloc, trail, formula),
        Command::If { yes, no, .. } => {
            let points = count_all(yes.as_slice());
            if u64::from(point) < points {
                return next_over(alloc, yes.as_slice(), point, trail, formula);
            }
            next_over(alloc, no.as_slice(), point - points as u32, trail, formula)
        }
        Command::While { note, body, .. } => {
            if point == 0 {
                return after_over(alloc, trail, formula);
            }
            let end = Trail::Repeats(note);
            next_over(alloc, body.as_slice(), point - 1, &end, formula)
        }
        Command::Call { .. } => after_over(alloc, trail, formula),
    }
}

/// Writes what has to hold after the point of a procedure with this number from 1 on over a formula.
pub fn next_of_point(
    alloc: Global,
    proc: &Proc,
    point: u32,
    formula: &mut Formula,
) -> Result<(), BuildFault>
    ensures made { OnOk result (formula.new ≡ next_of (point_at proc.now point)) }
    ensures limit { (result ≡ Err BuildFault.Limit) → is_oversized (next_of (point_at proc.now point)) ≡ true }
{
    if point == 0 {
        put_formula(formula, Formula::True);
        return Ok(());
    }
    let end = Trail::Returns(&*proc);
    next_over(alloc, proc.body.as_slice(), point - 1, &end, formula)
}
