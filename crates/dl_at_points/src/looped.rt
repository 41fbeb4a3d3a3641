//! The obligations of loops.

ghost use Rattle.std.specs.Prelude.{◌≡◌, ◌≤◌, ◌++◌, ◌∷◌, [], true, length, OnOk};
ghost use Rattle.dl_term.specs.declared.syntax.Formula.{Not};
ghost use Rattle.dl_term.specs.Measures.{is_oversized};
ghost use Rattle.dl_model.specs.Block.{block_of, followed};
ghost use Rattle.dl_inv.specs.Steps.{called};
ghost use Rattle.dl_triples.specs.Words.{test_word};
ghost use Rattle.dl_triples.specs.Points.{next_of, point_at, pre_of};
ghost use Rattle.dl_triples.specs.Obligations.{body_at, exit_at, facts_at, tested_sequent};

use dl_inv::BuildFault;
use dl_model::{Command, Decls, Hypothesis, Proc, Sequent};
use dl_parts::{add_copy, add_facts_at, put_facts, put_goal, put_known, put_nothing};
use dl_points::{Trail, after_over, commands_from, next_of_point, opposite};
use dl_term::Formula;
use sqlite_items::Items;
use std::alloc::{AllocError, Global};

// The names of hypotheses that no file declares.
const TEST: u32 = 15;

// The body of the loop keeps its annotation.
fn fill_body(
    alloc: Global,
    decls: &Decls,
    proc: &Proc,
    command: &Command,
    rest: &[Command],
    made: &mut Sequent,
) -> Result<(), BuildFault>
    requires { length decls.now.invariants ≤ 255 }
    ensures made { OnOk result (made.new ≡ body_at decls.now proc.now (followed command.now (block_of rest.now))) }
    ensures limit { (result ≡ Err BuildFault.Limit) → is_oversized (body_at decls.now proc.now (followed command.now (block_of rest.now))).goal ≡ true }
{
    match command {
        Command::Send { .. } => put_nothing(alloc, made),
        Command::Await { .. } => put_nothing(alloc, made),
        Command::Poll { .. } => put_nothing(alloc, made),
        Command::Read { .. } => put_nothing(alloc, made),
        Command::Set { .. } => put_nothing(alloc, made),
        Command::If { .. } => put_nothing(alloc, made),
        Command::While { test, note, body } => {
            looped(alloc, decls, proc, note, test, body.as_slice(), made)
        }
        Command::Call { .. } => put_nothing(alloc, made),
    }
}

fn looped(
    alloc: Global,
    decls: &Decls,
    proc: &Proc,
    note: &Formula,
    test: &Formula,
    body: &[Command],
    made: &mut Sequent,
) -> Result<(), BuildFault>
    requires { length decls.now.invariants ≤ 255 }
    ensures made { OnOk result (made.new ≡ tested_sequent decls.now proc.now note.now test.now (pre_of (block_of body.now) note.now)) }
    ensures limit { (result ≡ Err BuildFault.Limit) → is_oversized (tested_sequent decls.now proc.now note.now test.now (pre_of (block_of body.now) note.now)).goal ≡ true }
{
    put_known(alloc, decls, proc, made)?;
    put_tested(alloc, decls, proc, note, test, made)?;
    put_looped(alloc, note, body, made)
}

// Writes the facts, and an outcome of the test, over the hypotheses of a sequent.
fn put_tested(
    alloc: Global,
    decls: &Decls,
    proc: &Proc,
    note: &Formula,
    outcome: &Formula,
    made: &mut Sequent,
) -> Result<(), AllocError>
    requires { length decls.now.invariants ≤ 255 }
    ensures { OnOk result (made.new ≡ record made.old { facts = facts_at decls.now proc.now note.now ++ called test_word outcome.now ∷ [] }) }
{
    let mut facts = Items::new(alloc);
    let added = add_tested(alloc, &mut facts, decls, proc, note, outcome);
    put_facts(made, facts);
    added
}

fn add_tested(
    alloc: Global,
    facts: &mut Items<Hypothesis>,
    decls: &Decls,
    proc: &Proc,
    note: &Formula,
    outcome: &Formula,
) -> Result<(), AllocError>
    requires { length decls.now.invariants ≤ 255 }
    ensures { OnOk result (facts.new ≡ facts.old ++ (facts_at decls.now proc.now note.now ++ called test_word outcome.now ∷ [])) }
{
    add_facts_at(alloc, facts, decls, proc, note)?;
    add_copy(alloc, facts, TEST, outcome)
}

fn put_looped(
    alloc: Global,
    note: &Formula,
    body: &[Command],
    made: &mut Sequent,
) -> Result<(), BuildFault>
    ensures made { OnOk result (made.new ≡ record made.old { goal = pre_of (block_of body.now) note.now }) }
    ensures limit { (result ≡ Err BuildFault.Limit) → is_oversized (pre_of (block_of body.now) note.now) ≡ true }
{
    let end = Trail::Repeats(&*note);
    let way = Trail::Runs(&end, &*body);
    let mut goal = Formula::True;
    let done = after_over(alloc, &way, &mut goal);
    put_goal(made, goal);
    done
}

// What follows holds after the loop.
fn fill_exit(
    alloc: Global,
    decls: &Decls,
    proc: &Proc,
    point: u32,
    command: &Command,
    rest: &[Command],
    made: &mut Sequent,
) -> Result<(), BuildFault>
    requires { length decls.now.invariants ≤ 255 }
    ensures made { OnOk result (made.new ≡ exit_at decls.now proc.now (followed command.now (block_of rest.now)) (next_of (point_at proc.now point))) }
    ensures limit { (result ≡ Err BuildFault.Limit) → is_oversized (exit_at decls.now proc.now (followed command.now (block_of rest.now)) (next_of (point_at proc.now point))).goal ≡ true }
{
    match command {
        Command::Send { .. } => put_nothing(alloc, made),
        Command::Await { .. } => put_nothing(alloc, made),
        Command::Poll { .. } => put_nothing(alloc, made),
        Command::Read { .. } => put_nothing(alloc, made),
        Command::Set { .. } => put_nothing(alloc, made),
        Command::If { .. } => put_nothing(alloc, made),
        Command::While { test, note, .. } => { left(alloc, decls, proc, point, note, test, made) }
        Command::Call { .. } => put_nothing(alloc, made),
    }
}

fn left(
    alloc: Global,
    decls: &Decls,
    proc: &Proc,
    point: u32,
    note: &Formula,
    test: &Formula,
    made: &mut Sequent,
) -> Result<(), BuildFault>
    requires { length decls.now.invariants ≤ 255 }
    ensures made { OnOk result (made.new ≡ tested_sequent decls.now proc.now note.now (Not test.now) (next_of (point_at proc.now point))) }
    ensures limit { (result ≡ Err BuildFault.Limit) → is_oversized (tested_sequent decls.now proc.now note.now (Not test.now) (next_of (point_at proc.now point))).goal ≡ true }
{
    let outcome = opposite(alloc, test)?;
    let filled = left_with(alloc, decls, proc, point, note, &outcome, made);
    drop(outcome);
    filled
}

fn left_with(
    alloc: Global,
    decls: &Decls,
    proc: &Proc,
    point: u32,
    note: &Formula,
    outcome: &Formula,
    made: &mut Sequent,
) -> Result<(), BuildFault>
    requires { length decls.now.invariants ≤ 255 }
    ensures made { OnOk result (made.new ≡ tested_sequent decls.now proc.now note.now outcome.now (next_of (point_at proc.now point))) }
    ensures limit { (result ≡ Err BuildFault.Limit) → is_oversized (tested_sequent decls.now proc.now note.now outcome.now (next_of (point_at proc.now point))).goal ≡ true }
{
    put_known(alloc, decls, proc, made)?;
    put_tested(alloc, decls, proc, note, outcome, made)?;
    put_next(alloc, proc, point, made)
}

fn put_next(alloc: Global, proc: &Proc, point: u32, made: &mut Sequent) -> Result<(), BuildFault>
    ensures made { OnOk result (made.new ≡ record made.old { goal = next_of (point_at proc.now point) }) }
    ensures limit { (result ≡ Err BuildFault.Limit) → is_oversized (next_of (point_at proc.now point)) ≡ true }
{
    let mut goal = Formula::True;
    let done = next_of_point(alloc, proc, point, &mut goal);
    put_goal(made, goal);
    done
}

/// Writes the obligation of a loop at the point, where its test holds, over a sequent.
pub fn body_point(
    alloc: Global,
    decls: &Decls,
    proc: &Proc,
    point: u32,
    made: &mut Sequent,
) -> Result<(), BuildFault>
    requires { length decls.now.invariants ≤ 255 }
    ensures made { OnOk result (made.new ≡ body_at decls.now proc.now (point_at proc.now point).block) }
    ensures limit { (result ≡ Err BuildFault.Limit) → is_oversized (body_at decls.now proc.now (point_at proc.now point).block).goal ≡ true }
{
    let commands = commands_from(proc, point);
    if commands.is_empty() {
        return put_nothing(alloc, made);
    }
    fill_body(alloc, decls, proc, &commands[0], &commands[1..], made)
}

/// Writes the obligation of a loop at the point, where its test doesn't hold, over a sequent.
pub fn exit_point(
    alloc: Global,
    decls: &Decls,
    proc: &Proc,
    point: u32,
    made: &mut Sequent,
) -> Result<(), BuildFault>
    requires { length decls.now.invariants ≤ 255 }
    ensures made { OnOk result (made.new ≡ exit_at decls.now proc.now (point_at proc.now point).block (next_of (point_at proc.now point))) }
    ensures limit { (result ≡ Err BuildFault.Limit) → is_oversized (exit_at decls.now proc.now (point_at proc.now point).block (next_of (point_at proc.now point))).goal ≡ true }
{
    let commands = commands_from(proc, point);
    if commands.is_empty() {
        return put_nothing(alloc, made);
    }
    fill_exit(
        alloc,
        decls,
        proc,
        point,
        &commands[0],
        &commands[1..],
        made,
    )
}
