//! The obligations of what sets a local.

ghost use Rattle.std.specs.Prelude.{◌≡◌, ◌≤◌, true, None, Some, length, pos, IfOk, OnOk};
ghost use Rattle.dl_term.specs.declared.syntax.Term.{Num};
ghost use Rattle.dl_term.specs.Measures.{is_oversized};
ghost use Rattle.dl_model.specs.Block.{block_of, followed};
ghost use Rattle.dl_subst.specs.Substitution.{substituted};
ghost use Rattle.dl_triples.specs.Points.{next_of, point_at};
ghost use Rattle.dl_triples.specs.Obligations.{assigned_sequent, missed_at, read_at, term_read as read_term};

use dl_inv::BuildFault;
use dl_model::{Command, Decls, Proc, Sequent};
use dl_parts::{ME, hold, put_goal, put_known, put_nothing};
use dl_points::{commands_from, next_of_point, value_over};
use dl_term::{Formula, Lab, Term, copy_term};
use sqlite_items::Boxed;
use std::alloc::{AllocError, Global};

// What follows holds where there is no message.
fn fill_missed(
    alloc: Global,
    decls: &Decls,
    proc: &Proc,
    point: u32,
    command: &Command,
    rest: &[Command],
    made: &mut Sequent,
) -> Result<(), BuildFault>
    requires { length decls.now.invariants ≤ 255 }
    ensures made { OnOk result (made.new ≡ missed_at decls.now proc.now (followed command.now (block_of rest.now)) (next_of (point_at proc.now point))) }
    ensures limit { (result ≡ Err BuildFault.Limit) → is_oversized (missed_at decls.now proc.now (followed command.now (block_of rest.now)) (next_of (point_at proc.now point))).goal ≡ true }
{
    match command {
        Command::Send { .. } => put_nothing(alloc, made),
        Command::Await { .. } => put_nothing(alloc, made),
        Command::Poll { note, got, .. } => { missed(alloc, decls, proc, point, note, *got, made) }
        Command::Read { .. } => put_nothing(alloc, made),
        Command::Set { .. } => put_nothing(alloc, made),
        Command::If { .. } => put_nothing(alloc, made),
        Command::While { .. } => put_nothing(alloc, made),
        Command::Call { .. } => put_nothing(alloc, made),
    }
}

fn missed(
    alloc: Global,
    decls: &Decls,
    proc: &Proc,
    point: u32,
    note: &Formula,
    got: u32,
    made: &mut Sequent,
) -> Result<(), BuildFault>
    requires { length decls.now.invariants ≤ 255 }
    ensures made { OnOk result (made.new ≡ assigned_sequent decls.now proc.now note.now got (Num (pos 0)) (next_of (point_at proc.now point))) }
    ensures limit { (result ≡ Err BuildFault.Limit) → is_oversized (assigned_sequent decls.now proc.now note.now got (Num (pos 0)) (next_of (point_at proc.now point))).goal ≡ true }
{
    let zero = Term::Num(0);
    let filled = assigned(alloc, decls, proc, point, note, got, &zero, made);
    drop(zero);
    filled
}

fn assigned(
    alloc: Global,
    decls: &Decls,
    proc: &Proc,
    point: u32,
    note: &Formula,
    into: u32,
    term: &Term,
    made: &mut Sequent,
) -> Result<(), BuildFault>
    requires { length decls.now.invariants ≤ 255 }
    ensures made { OnOk result (made.new ≡ assigned_sequent decls.now proc.now note.now into (term.now) (next_of (point_at proc.now point))) }
    ensures limit { (result ≡ Err BuildFault.Limit) → is_oversized (assigned_sequent decls.now proc.now note.now into (term.now) (next_of (point_at proc.now point))).goal ≡ true }
{
    put_known(alloc, decls, proc, made)?;
    hold(alloc, decls, proc, note, made)?;
    put_assigned(alloc, proc, point, into, term, made)
}

pub(crate) fn put_assigned(
    alloc: Global,
    proc: &Proc,
    point: u32,
    into: u32,
    term: &Term,
    made: &mut Sequent,
) -> Result<(), BuildFault>
    ensures made { OnOk result (made.new ≡ record made.old { goal = substituted (next_of (point_at proc.now point)) into term.now }) }
    ensures limit { (result ≡ Err BuildFault.Limit) → is_oversized (substituted (next_of (point_at proc.now point)) into term.now) ≡ true }
{
    let mut goal = Formula::True;
    let done = assigned_goal(alloc, proc, point, into, term, &mut goal);
    put_goal(made, goal);
    done
}

fn assigned_goal(
    alloc: Global,
    proc: &Proc,
    point: u32,
    into: u32,
    term: &Term,
    goal: &mut Formula,
) -> Result<(), BuildFault>
    ensures made { OnOk result (goal.new ≡ substituted (next_of (point_at proc.now point)) into term.now) }
    ensures limit { (result ≡ Err BuildFault.Limit) → is_oversized (substituted (next_of (point_at proc.now point)) into term.now) ≡ true }
{
    next_of_point(alloc, proc, point, goal)?;
    value_over(alloc, into, term, goal)
}

// What follows holds with what was read.
fn fill_read(
    alloc: Global,
    decls: &Decls,
    proc: &Proc,
    point: u32,
    command: &Command,
    rest: &[Command],
    made: &mut Sequent,
) -> Result<(), BuildFault>
    requires { length decls.now.invariants ≤ 255 }
    ensures made { OnOk result (made.new ≡ read_at decls.now proc.now (followed command.now (block_of rest.now)) (next_of (point_at proc.now point))) }
    ensures limit { (result ≡ Err BuildFault.Limit) → is_oversized (read_at decls.now proc.now (followed command.now (block_of rest.now)) (next_of (point_at proc.now point))).goal ≡ true }
{
    match command {
        Command::Send { .. } => put_nothing(alloc, made),
        Command::Await { .. } => put_nothing(alloc, made),
        Command::Poll { .. } => put_nothing(alloc, made),
        Command::Read {
            note,
            into,
            label,
            field,
            index,
        } => {
            read(
                alloc, decls, proc, point, note, *into, *label, *field, index, made,
            )
        }
        Command::Set { .. } => put_nothing(alloc, made),
        Command::If { .. } => put_nothing(alloc, made),
        Command::While { .. } => put_nothing(alloc, made),
        Command::Call { .. } => put_nothing(alloc, made),
    }
}

fn read(
    alloc: Global,
    decls: &Decls,
    proc: &Proc,
    point: u32,
    note: &Formula,
    into: u32,
    label: u8,
    field: u8,
    index: &Option<Term>,
    made: &mut Sequent,
) -> Result<(), BuildFault>
    requires { length decls.now.invariants ≤ 255 }
    ensures made { OnOk result (made.new ≡ assigned_sequent decls.now proc.now note.now into (read_term label field index.now) (next_of (point_at proc.now point))) }
    ensures limit { (result ≡ Err BuildFault.Limit) → is_oversized (assigned_sequent decls.now proc.now note.now into (read_term label field index.now) (next_of (point_at proc.now point))).goal ≡ true }
{
    let term = term_read(alloc, label, field, index)?;
    let filled = assigned(alloc, decls, proc, point, note, into, &term, made);
    drop(term);
    filled
}

// An own field, or an own row at the index.
fn term_read(alloc: Global, label: u8, field: u8, index: &Option<Term>) -> Result<Term, AllocError>
    ensures { IfOk result (λ term. term ≡ read_term label field index.now) }
{
    match index {
        None => field_read(alloc, label, field),
        Some(index) => row_read(alloc, label, field, index),
    }
}

fn field_read(alloc: Global, label: u8, field: u8) -> Result<Term, AllocError>
    ensures { IfOk result (λ term. term ≡ read_term label field None) }
{
    let node = Boxed::new(alloc, Term::Var(ME))?;
    Ok(Term::Field {
        label: Lab::At(label),
        field,
        node,
    })
}

fn row_read(alloc: Global, label: u8, field: u8, index: &Term) -> Result<Term, AllocError>
    ensures { IfOk result (λ term. term ≡ read_term label field (Some index.now)) }
{
    let index = copy_term(alloc, index)?;
    match Boxed::new(alloc, index) {
        Ok(index) => row_at(alloc, label, field, index),
        Err(error) => Err(error),
    }
}

fn row_at(alloc: Global, label: u8, field: u8, index: Boxed<Term>) -> Result<Term, AllocError>
    ensures { IfOk result (λ term. term ≡ read_term label field (Some index)) }
{
    match Boxed::new(alloc, Term::Var(ME)) {
        Ok(node) => Ok(Term::Row {
            label: Lab::At(label),
            field,
            node,
            index,
        }),
        Err(error) => {
            drop(index);
            Err(error)
        }
    }
}

/// Writes the obligation of a poll that finds no message at the point over a sequent.
pub fn missed_point(
    alloc: Global,
    decls: &Decls,
    proc: &Proc,
    point: u32,
    made: &mut Sequent,
) -> Result<(), BuildFault>
    requires { length decls.now.invariants ≤ 255 }
    ensures made { OnOk result (made.new ≡ missed_at decls.now proc.now (point_at proc.now point).block (next_of (point_at proc.now point))) }
    ensures limit { (result ≡ Err BuildFault.Limit) → is_oversized (missed_at decls.now proc.now (point_at proc.now point).block (next_of (point_at proc.now point))).goal ≡ true }
{
    let commands = commands_from(proc, point);
    if commands.is_empty() {
        return put_nothing(alloc, made);
    }
    fill_missed(
        alloc,
        decls,
        proc,
        point,
        &commands[0],
        &commands[1..],
        made,
    )
}

/// Writes the obligation of a read at the point over a sequent.
pub fn read_point(
    alloc: Global,
    decls: &Decls,
    proc: &Proc,
    point: u32,
    made: &mut Sequent,
) -> Result<(), BuildFault>
    requires { length decls.now.invariants ≤ 255 }
    ensures made { OnOk result (made.new ≡ read_at decls.now proc.now (point_at proc.now point).block (next_of (point_at proc.now point))) }
    ensures limit { (result ≡ Err BuildFault.Limit) → is_oversized (read_at decls.now proc.now (point_at proc.now point).block (next_of (point_at proc.now point))).goal ≡ true }
{
    let commands = commands_from(proc, point);
    if commands.is_empty() {
        return put_nothing(alloc, made);
    }
    fill_read(
        alloc,
        decls,
        proc,
        point,
        &commands[0],
        &commands[1..],
        made,
    )
}
