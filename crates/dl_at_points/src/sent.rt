//! The obligations of sends.

ghost use Rattle.std.specs.Prelude.{◌≡◌, ◌≤◌, ◌++◌, ◌∷◌, [], true, false, None, length, OnOk};
ghost use Rattle.dl_term.specs.declared.syntax.Lab.TheVariants.{At};
ghost use Rattle.dl_term.specs.Measures.{is_oversized};
ghost use Rattle.dl_model.specs.Block.{block_of, followed};
ghost use Rattle.dl_wp.specs.Steps.{send_step};
ghost use Rattle.dl_wp.specs.Before.{before_sent};
ghost use Rattle.dl_wp.specs.Captures.{captures, nothing_around};
ghost use Rattle.dl_inv.specs.Words.{guard_word};
ghost use Rattle.dl_inv.specs.Steps.{called};
ghost use Rattle.dl_triples.specs.Points.{next_of, point_at};
ghost use Rattle.dl_triples.specs.Obligations.{allowed_in, facts_at, guard_at, guard_sequent, known_in, sending as sending_of, sent_at, sent_sequent};
ghost use Rattle.dl_triples.specs.Built.{send_captures};

use dl_inv::{BuildFault, add_fact};
use dl_model::{Command, Decls, Hypothesis, Instances, Proc, Sequent};
use dl_parts::{
    add_facts_at, allowed, hold, next_on_the_way, put_facts, put_goal, put_known, put_nothing,
    sending, sent_over,
};
use dl_points::commands_from;
use dl_term::{Formula, Term};
use dl_wp::SendStep;
use sqlite_items::Items;
use std::alloc::{AllocError, Global};

// The names of hypotheses that no file declares.
const GUARD: u32 = 10;

// The send is allowed.
fn fill_guard(
    alloc: Global,
    decls: &Decls,
    proc: &Proc,
    command: &Command,
    rest: &[Command],
    made: &mut Sequent,
) -> Result<(), BuildFault>
    requires { length decls.now.invariants ≤ 255 }
    ensures made { OnOk result (made.new ≡ guard_at decls.now proc.now (followed command.now (block_of rest.now))) }
    ensures limit { (result ≡ Err BuildFault.Limit) → is_oversized (guard_at decls.now proc.now (followed command.now (block_of rest.now))).goal ≡ true }
{
    match command {
        Command::Send {
            note,
            label,
            tag,
            to,
            args,
        } => {
            guard_sent(
                alloc,
                decls,
                proc,
                note,
                *label,
                *tag,
                to,
                args.as_slice(),
                made,
            )
        }
        Command::Await { .. } => put_nothing(alloc, made),
        Command::Poll { .. } => put_nothing(alloc, made),
        Command::Read { .. } => put_nothing(alloc, made),
        Command::Set { .. } => put_nothing(alloc, made),
        Command::If { .. } => put_nothing(alloc, made),
        Command::While { .. } => put_nothing(alloc, made),
        Command::Call { .. } => put_nothing(alloc, made),
    }
}

fn guard_sent(
    alloc: Global,
    decls: &Decls,
    proc: &Proc,
    note: &Formula,
    label: u8,
    tag: u8,
    to: &Term,
    args: &[Term],
    made: &mut Sequent,
) -> Result<(), BuildFault>
    requires { length decls.now.invariants ≤ 255 }
    ensures made { OnOk result (made.new ≡ guard_sequent decls.now proc.now note.now label tag (sending_of label tag to.now args.now)) }
    ensures limit { (result ≡ Err BuildFault.Limit) → ⊥ }
{
    let step = sending(alloc, label, tag, to, args)?;
    let filled = guard_by(alloc, decls, proc, note, label, tag, &step, made);
    drop(step);
    Ok(filled?)
}

fn guard_by(
    alloc: Global,
    decls: &Decls,
    proc: &Proc,
    note: &Formula,
    label: u8,
    tag: u8,
    step: &SendStep,
    made: &mut Sequent,
) -> Result<(), AllocError>
    requires few { length decls.now.invariants ≤ 255 }
    requires label { step.now.label ≡ At label }
    requires tag { step.now.tag ≡ tag }
    ensures { OnOk result (made.new ≡ guard_sequent decls.now proc.now note.now label tag step.now) }
{
    put_known(alloc, decls, proc, made)?;
    put_allowed(alloc, decls, proc, label, tag, step, made)?;
    hold(alloc, decls, proc, note, made)
}

fn put_allowed(
    alloc: Global,
    decls: &Decls,
    proc: &Proc,
    label: u8,
    tag: u8,
    step: &SendStep,
    made: &mut Sequent,
) -> Result<(), AllocError>
    requires known { made.now ≡ known_in decls.now proc.now }
    requires label { step.now.label ≡ At label }
    requires tag { step.now.tag ≡ tag }
    ensures { OnOk result (made.new ≡ record (known_in decls.now proc.now) { goal = allowed_in decls.now proc.now label tag step.now }) }
{
    let goal = allowed(alloc, decls, proc, &*made, label, tag, step)?;
    put_goal(made, goal);
    Ok(())
}

// What follows holds after the send.
fn fill_sent(
    alloc: Global,
    decls: &Decls,
    proc: &Proc,
    point: u32,
    command: &Command,
    rest: &[Command],
    made: &mut Sequent,
) -> Result<(), BuildFault>
    requires few { length decls.now.invariants ≤ 255 }
    requires quiet { send_captures decls.now (followed command.now (block_of rest.now)) (next_of (point_at proc.now point)) ≡ false }
    ensures made { OnOk result (made.new ≡ sent_at decls.now proc.now (followed command.now (block_of rest.now)) (next_of (point_at proc.now point))) }
    ensures limit { (result ≡ Err BuildFault.Limit) → is_oversized (sent_at decls.now proc.now (followed command.now (block_of rest.now)) (next_of (point_at proc.now point))).goal ≡ true }
{
    match command {
        Command::Send {
            note,
            label,
            tag,
            to,
            args,
        } => {
            sent_to(
                alloc,
                decls,
                proc,
                point,
                note,
                *label,
                *tag,
                to,
                args.as_slice(),
                made,
            )
        }
        Command::Await { .. } => put_nothing(alloc, made),
        Command::Poll { .. } => put_nothing(alloc, made),
        Command::Read { .. } => put_nothing(alloc, made),
        Command::Set { .. } => put_nothing(alloc, made),
        Command::If { .. } => put_nothing(alloc, made),
        Command::While { .. } => put_nothing(alloc, made),
        Command::Call { .. } => put_nothing(alloc, made),
    }
}

fn sent_to(
    alloc: Global,
    decls: &Decls,
    proc: &Proc,
    point: u32,
    note: &Formula,
    label: u8,
    tag: u8,
    to: &Term,
    args: &[Term],
    made: &mut Sequent,
) -> Result<(), BuildFault>
    requires few { length decls.now.invariants ≤ 255 }
    requires quiet { captures (send_step decls.now.inst None (sending_of label tag to.now args.now)) nothing_around (next_of (point_at proc.now point)) ≡ false }
    ensures made { OnOk result (made.new ≡ sent_sequent decls.now proc.now note.now label tag (sending_of label tag to.now args.now) (next_of (point_at proc.now point))) }
    ensures limit { (result ≡ Err BuildFault.Limit) → is_oversized (before_sent decls.now.inst None (sending_of label tag to.now args.now) (next_of (point_at proc.now point))) ≡ true }
{
    let step = sending(alloc, label, tag, to, args)?;
    let filled = sent_by(alloc, decls, proc, point, note, label, tag, &step, made);
    drop(step);
    filled
}

fn sent_by(
    alloc: Global,
    decls: &Decls,
    proc: &Proc,
    point: u32,
    note: &Formula,
    label: u8,
    tag: u8,
    step: &SendStep,
    made: &mut Sequent,
) -> Result<(), BuildFault>
    requires few { length decls.now.invariants ≤ 255 }
    requires label { step.now.label ≡ At label }
    requires tag { step.now.tag ≡ tag }
    requires quiet { captures (send_step decls.now.inst None step.now) nothing_around (next_of (point_at proc.now point)) ≡ false }
    ensures made { OnOk result (made.new ≡ sent_sequent decls.now proc.now note.now label tag step.now (next_of (point_at proc.now point))) }
    ensures limit { (result ≡ Err BuildFault.Limit) → is_oversized (before_sent decls.now.inst None step.now (next_of (point_at proc.now point))) ≡ true }
{
    put_known(alloc, decls, proc, made)?;
    put_sent_facts(alloc, decls, proc, note, label, tag, step, made)?;
    put_sent(alloc, &decls.inst, proc, point, step, made)
}

// Writes the facts, and that the send is allowed, over the hypotheses of a sequent.
fn put_sent_facts(
    alloc: Global,
    decls: &Decls,
    proc: &Proc,
    note: &Formula,
    label: u8,
    tag: u8,
    step: &SendStep,
    made: &mut Sequent,
) -> Result<(), AllocError>
    requires few { length decls.now.invariants ≤ 255 }
    requires known { made.now ≡ known_in decls.now proc.now }
    requires label { step.now.label ≡ At label }
    requires tag { step.now.tag ≡ tag }
    ensures { OnOk result (made.new ≡ record (known_in decls.now proc.now) { facts = facts_at decls.now proc.now note.now ++ called guard_word (allowed_in decls.now proc.now label tag step.now) ∷ [] }) }
{
    let mut facts = Items::new(alloc);
    let added = add_sent_facts(
        alloc, &mut facts, decls, proc, note, label, tag, step, &*made,
    );
    put_facts(made, facts);
    added
}

fn add_sent_facts(
    alloc: Global,
    facts: &mut Items<Hypothesis>,
    decls: &Decls,
    proc: &Proc,
    note: &Formula,
    label: u8,
    tag: u8,
    step: &SendStep,
    known: &Sequent,
) -> Result<(), AllocError>
    requires few { length decls.now.invariants ≤ 255 }
    requires known { known.now ≡ known_in decls.now proc.now }
    requires label { step.now.label ≡ At label }
    requires tag { step.now.tag ≡ tag }
    ensures { OnOk result (facts.new ≡ facts.old ++ (facts_at decls.now proc.now note.now ++ called guard_word (allowed_in decls.now proc.now label tag step.now) ∷ [])) }
{
    add_facts_at(alloc, facts, decls, proc, note)?;
    let held = allowed(alloc, decls, proc, known, label, tag, step)?;
    add_fact(facts, GUARD, held)
}

fn put_sent(
    alloc: Global,
    inst: &Instances,
    proc: &Proc,
    point: u32,
    step: &SendStep,
    made: &mut Sequent,
) -> Result<(), BuildFault>
    requires { captures (send_step inst.now None step.now) nothing_around (next_of (point_at proc.now point)) ≡ false }
    ensures made { OnOk result (made.new ≡ record made.old { goal = before_sent inst.now None step.now (next_of (point_at proc.now point)) }) }
    ensures limit { (result ≡ Err BuildFault.Limit) → is_oversized (before_sent inst.now None step.now (next_of (point_at proc.now point))) ≡ true }
{
    let mut goal = Formula::True;
    let done = sent_goal(alloc, inst, proc, point, step, &mut goal);
    put_goal(made, goal);
    done
}

fn sent_goal(
    alloc: Global,
    inst: &Instances,
    proc: &Proc,
    point: u32,
    step: &SendStep,
    goal: &mut Formula,
) -> Result<(), BuildFault>
    requires { captures (send_step inst.now None step.now) nothing_around (next_of (point_at proc.now point)) ≡ false }
    ensures made { OnOk result (goal.new ≡ before_sent inst.now None step.now (next_of (point_at proc.now point))) }
    ensures limit { (result ≡ Err BuildFault.Limit) → is_oversized (before_sent inst.now None step.now (next_of (point_at proc.now point))) ≡ true }
{
    next_on_the_way(alloc, proc, point, goal)?;
    sent_over(alloc, inst, step, goal)
}

/// Writes that the send at the point is allowed over a sequent.
pub fn guard_point(
    alloc: Global,
    decls: &Decls,
    proc: &Proc,
    point: u32,
    made: &mut Sequent,
) -> Result<(), BuildFault>
    requires { length decls.now.invariants ≤ 255 }
    ensures made { OnOk result (made.new ≡ guard_at decls.now proc.now (point_at proc.now point).block) }
    ensures limit { (result ≡ Err BuildFault.Limit) → is_oversized (guard_at decls.now proc.now (point_at proc.now point).block).goal ≡ true }
{
    let commands = commands_from(proc, point);
    if commands.is_empty() {
        return put_nothing(alloc, made);
    }
    fill_guard(alloc, decls, proc, &commands[0], &commands[1..], made)
}

/// Writes the obligation of what holds after the send at the point over a sequent.
pub fn sent_point(
    alloc: Global,
    decls: &Decls,
    proc: &Proc,
    point: u32,
    made: &mut Sequent,
) -> Result<(), BuildFault>
    requires few { length decls.now.invariants ≤ 255 }
    requires quiet { send_captures decls.now (point_at proc.now point).block (next_of (point_at proc.now point)) ≡ false }
    ensures made { OnOk result (made.new ≡ sent_at decls.now proc.now (point_at proc.now point).block (next_of (point_at proc.now point))) }
    ensures limit { (result ≡ Err BuildFault.Limit) → is_oversized (sent_at decls.now proc.now (point_at proc.now point).block (next_of (point_at proc.now point))).goal ≡ true }
{
    let commands = commands_from(proc, point);
    if commands.is_empty() {
        return put_nothing(alloc, made);
    }
    fill_sent(
        alloc,
        decls,
        proc,
        point,
        &commands[0],
        &commands[1..],
        made,
    )
}
