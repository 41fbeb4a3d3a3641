//! The obligations of receives.

ghost use Rattle.std.specs.Prelude.{◌≡◌, ◌≤◌, ◌++◌, ◌∷◌, true, false, None, length, pos, IfOk, OnOk};
ghost use Rattle.dl_term.specs.declared.syntax.Term.{Num};
ghost use Rattle.dl_term.specs.Measures.{is_oversized};
ghost use Rattle.dl_model.specs.Block.{block_of, followed};
ghost use Rattle.dl_wp.specs.Steps.{args_of_message, receive_step};
ghost use Rattle.dl_wp.specs.Before.{before_received};
ghost use Rattle.dl_wp.specs.Captures.{captures, nothing_around};
ghost use Rattle.dl_inv.specs.Steps.{name_at as name_among, receive_hypotheses};
ghost use Rattle.dl_triples.specs.Points.{next_of, point_at};
ghost use Rattle.dl_triples.specs.Obligations.{facts_at, got_at, got_sequent, put as put_all, taking as taking_of, terms_of_message};
ghost use Rattle.dl_triples.specs.Built.{got_captures, receive_captures};

use dl_inv::{BuildFault, add_receive};
use dl_model::{Command, Decls, Hypothesis, Instances, Proc, Sequent};
use dl_parts::{
    ME, add_facts_at, add_terms, name_at, next_on_the_way, put_facts, put_goal, put_known_with,
    put_nothing, received_over, terms_over,
};
use dl_points::commands_from;
use dl_term::{Formula, Lab, Part, Term};
use dl_wp::{ReceiveStep, message_args};
use sqlite_items::Items;
use std::alloc::{AllocError, Global};

// What follows holds after the message is received.
fn fill_got(
    alloc: Global,
    decls: &Decls,
    proc: &Proc,
    point: u32,
    command: &Command,
    rest: &[Command],
    msg: u32,
    made: &mut Sequent,
) -> Result<(), BuildFault>
    requires few { length decls.now.invariants ≤ 255 }
    requires quiet { got_captures decls.now (followed command.now (block_of rest.now)) msg (next_of (point_at proc.now point)) ≡ false }
    ensures made { OnOk result (made.new ≡ got_at decls.now proc.now (followed command.now (block_of rest.now)) msg (next_of (point_at proc.now point))) }
    ensures limit { (result ≡ Err BuildFault.Limit) → is_oversized (got_at decls.now proc.now (followed command.now (block_of rest.now)) msg (next_of (point_at proc.now point))).goal ≡ true }
{
    match command {
        Command::Send { .. } => put_nothing(alloc, made),
        Command::Await {
            note,
            label,
            tag,
            sender,
            args,
        } => {
            awaited(
                alloc,
                decls,
                proc,
                point,
                note,
                *label,
                *tag,
                msg,
                *sender,
                args.as_slice(),
                made,
            )
        }
        Command::Poll {
            note,
            got,
            label,
            tag,
            sender,
            args,
        } => {
            polled(
                alloc,
                decls,
                proc,
                point,
                note,
                *got,
                *label,
                *tag,
                msg,
                *sender,
                args.as_slice(),
                made,
            )
        }
        Command::Read { .. } => put_nothing(alloc, made),
        Command::Set { .. } => put_nothing(alloc, made),
        Command::If { .. } => put_nothing(alloc, made),
        Command::While { .. } => put_nothing(alloc, made),
        Command::Call { .. } => put_nothing(alloc, made),
    }
}

fn awaited(
    alloc: Global,
    decls: &Decls,
    proc: &Proc,
    point: u32,
    note: &Formula,
    label: u8,
    tag: u8,
    msg: u32,
    sender: u32,
    args: &[u32],
    made: &mut Sequent,
) -> Result<(), BuildFault>
    requires few { length decls.now.invariants ≤ 255 }
    requires quiet { receive_captures decls.now label tag msg (sender ∷ args.now) (terms_of_message msg) (next_of (point_at proc.now point)) ≡ false }
    ensures made { OnOk result (made.new ≡ got_sequent decls.now proc.now note.now label tag msg (sender ∷ args.now) (terms_of_message msg) (next_of (point_at proc.now point))) }
    ensures limit { (result ≡ Err BuildFault.Limit) → is_oversized (got_sequent decls.now proc.now note.now label tag msg (sender ∷ args.now) (terms_of_message msg) (next_of (point_at proc.now point))).goal ≡ true }
{
    let targets = targets_of(alloc, sender, args)?;
    let terms = message_terms(alloc, msg)?;
    let filled = got_with(
        alloc,
        decls,
        proc,
        point,
        note,
        label,
        tag,
        msg,
        targets.as_slice(),
        terms.as_slice(),
        made,
    );
    drop(terms);
    filled
}

fn polled(
    alloc: Global,
    decls: &Decls,
    proc: &Proc,
    point: u32,
    note: &Formula,
    got: u32,
    label: u8,
    tag: u8,
    msg: u32,
    sender: u32,
    args: &[u32],
    made: &mut Sequent,
) -> Result<(), BuildFault>
    requires few { length decls.now.invariants ≤ 255 }
    requires quiet { receive_captures decls.now label tag msg (got ∷ sender ∷ args.now) (Num (pos 1) ∷ terms_of_message msg) (next_of (point_at proc.now point)) ≡ false }
    ensures made { OnOk result (made.new ≡ got_sequent decls.now proc.now note.now label tag msg (got ∷ sender ∷ args.now) (Num (pos 1) ∷ terms_of_message msg) (next_of (point_at proc.now point))) }
    ensures limit { (result ≡ Err BuildFault.Limit) → is_oversized (got_sequent decls.now proc.now note.now label tag msg (got ∷ sender ∷ args.now) (Num (pos 1) ∷ terms_of_message msg) (next_of (point_at proc.now point))).goal ≡ true }
{
    let targets = polled_targets(alloc, got, sender, args)?;
    let terms = polled_terms(alloc, msg)?;
    let filled = got_with(
        alloc,
        decls,
        proc,
        point,
        note,
        label,
        tag,
        msg,
        targets.as_slice(),
        terms.as_slice(),
        made,
    );
    drop(terms);
    filled
}

fn add_numbers(numbers: &mut Items<u32>, more: &[u32]) -> Result<(), AllocError>
    ensures { OnOk result (numbers.new ≡ numbers.old ++ more.now) }
{
    for number in more {
        numbers.push(*number)?;
    }
    Ok(())
}

fn targets_of(alloc: Global, sender: u32, args: &[u32]) -> Result<Items<u32>, AllocError>
    ensures { IfOk result (λ targets. targets ≡ sender ∷ args.now) }
{
    let mut targets = Items::new(alloc);
    targets.push(sender)?;
    add_numbers(&mut targets, args)?;
    Ok(targets)
}

fn polled_targets(
    alloc: Global,
    got: u32,
    sender: u32,
    args: &[u32],
) -> Result<Items<u32>, AllocError>
    ensures { IfOk result (λ targets. targets ≡ got ∷ sender ∷ args.now) }
{
    let mut targets = Items::new(alloc);
    targets.push(got)?;
    targets.push(sender)?;
    add_numbers(&mut targets, args)?;
    Ok(targets)
}

fn add_message_terms(
    alloc: Global,
    terms: &mut Items<Term>,
    msg: u32,
    args: &[Term],
) -> Result<(), AllocError>
    requires { args.now ≡ args_of_message msg }
    ensures { OnOk result (terms.new ≡ terms.old ++ terms_of_message msg) }
{
    let sender = Term::Msg {
        msg,
        part: Part::From,
    };
    terms.push(sender)?;
    add_terms(alloc, terms, args)
}

// The sender and the arguments of a message.
fn message_terms(alloc: Global, msg: u32) -> Result<Items<Term>, AllocError>
    ensures { IfOk result (λ terms. terms ≡ terms_of_message msg) }
{
    let args = message_args(msg);
    let mut terms = Items::new(alloc);
    add_message_terms(alloc, &mut terms, msg, &args)?;
    Ok(terms)
}

// That there is one, and its sender and its arguments.
fn polled_terms(alloc: Global, msg: u32) -> Result<Items<Term>, AllocError>
    ensures { IfOk result (λ terms. terms ≡ Num (pos 1) ∷ terms_of_message msg) }
{
    let args = message_args(msg);
    let mut terms = Items::new(alloc);
    terms.push(Term::Num(1))?;
    add_message_terms(alloc, &mut terms, msg, &args)?;
    Ok(terms)
}

fn taking(label: u8, tag: u8, msg: u32) -> ReceiveStep
    ensures { result ≡ taking_of label tag msg }
{
    ReceiveStep {
        label: Lab::At(label),
        tag,
        receiver: Term::Var(ME),
        msg,
    }
}

fn got_with(
    alloc: Global,
    decls: &Decls,
    proc: &Proc,
    point: u32,
    note: &Formula,
    label: u8,
    tag: u8,
    msg: u32,
    targets: &[u32],
    terms: &[Term],
    made: &mut Sequent,
) -> Result<(), BuildFault>
    requires few { length decls.now.invariants ≤ 255 }
    requires quiet { receive_captures decls.now label tag msg targets.now terms.now (next_of (point_at proc.now point)) ≡ false }
    ensures made { OnOk result (made.new ≡ got_sequent decls.now proc.now note.now label tag msg (targets.now) (terms.now) (next_of (point_at proc.now point))) }
    ensures limit { (result ≡ Err BuildFault.Limit) → is_oversized (got_sequent decls.now proc.now note.now label tag msg (targets.now) (terms.now) (next_of (point_at proc.now point))).goal ≡ true }
{
    let step = taking(label, tag, msg);
    let filled = got_by(
        alloc, decls, proc, point, note, label, tag, &step, targets, terms, made,
    );
    drop(step);
    filled
}

fn got_by(
    alloc: Global,
    decls: &Decls,
    proc: &Proc,
    point: u32,
    note: &Formula,
    label: u8,
    tag: u8,
    step: &ReceiveStep,
    targets: &[u32],
    terms: &[Term],
    made: &mut Sequent,
) -> Result<(), BuildFault>
    requires few { length decls.now.invariants ≤ 255 }
    requires step { step.now ≡ taking_of label tag step.now.msg }
    requires quiet { receive_captures decls.now label tag step.now.msg targets.now terms.now (next_of (point_at proc.now point)) ≡ false }
    ensures made { OnOk result (made.new ≡ got_sequent decls.now proc.now note.now label tag step.now.msg (targets.now) (terms.now) (next_of (point_at proc.now point))) }
    ensures limit { (result ≡ Err BuildFault.Limit) → is_oversized (got_sequent decls.now proc.now note.now label tag step.now.msg (targets.now) (terms.now) (next_of (point_at proc.now point))).goal ≡ true }
{
    put_known_with(alloc, decls, proc, label, tag, step.msg, made)?;
    put_got_facts(alloc, decls, proc, note, step, made)?;
    put_got(alloc, &decls.inst, proc, point, step, targets, terms, made)
}

// Writes the facts, and what is known of the receive, over the hypotheses of a sequent.
fn put_got_facts(
    alloc: Global,
    decls: &Decls,
    proc: &Proc,
    note: &Formula,
    step: &ReceiveStep,
    made: &mut Sequent,
) -> Result<(), AllocError>
    requires { length decls.now.invariants ≤ 255 }
    ensures { OnOk result (made.new ≡ record made.old { facts = facts_at decls.now proc.now note.now ++ receive_hypotheses decls.now.inst made.old step.now }) }
{
    let mut facts = Items::new(alloc);
    let added = add_got_facts(alloc, &mut facts, decls, proc, note, step, &*made);
    put_facts(made, facts);
    added
}

fn add_got_facts(
    alloc: Global,
    facts: &mut Items<Hypothesis>,
    decls: &Decls,
    proc: &Proc,
    note: &Formula,
    step: &ReceiveStep,
    known: &Sequent,
) -> Result<(), AllocError>
    requires { length decls.now.invariants ≤ 255 }
    ensures { OnOk result (facts.new ≡ facts.old ++ (facts_at decls.now proc.now note.now ++ receive_hypotheses decls.now.inst known.now step.now)) }
{
    add_facts_at(alloc, facts, decls, proc, note)?;
    add_receive(alloc, facts, &decls.inst, known, step)
}

fn put_got(
    alloc: Global,
    inst: &Instances,
    proc: &Proc,
    point: u32,
    step: &ReceiveStep,
    targets: &[u32],
    terms: &[Term],
    made: &mut Sequent,
) -> Result<(), BuildFault>
    requires { captures (receive_step inst.now None step.now) nothing_around (put_all (next_of (point_at proc.now point)) targets.now terms.now) ≡ false }
    ensures made { OnOk result (made.new ≡ record made.old { goal = before_received inst.now None step.now (put_all (next_of (point_at proc.now point)) targets.now terms.now) }) }
    ensures limit { (result ≡ Err BuildFault.Limit) → is_oversized (before_received inst.now None step.now (put_all (next_of (point_at proc.now point)) targets.now terms.now)) ≡ true }
{
    let mut goal = Formula::True;
    let done = got_goal(alloc, inst, proc, point, step, targets, terms, &mut goal);
    put_goal(made, goal);
    done
}

fn got_goal(
    alloc: Global,
    inst: &Instances,
    proc: &Proc,
    point: u32,
    step: &ReceiveStep,
    targets: &[u32],
    terms: &[Term],
    goal: &mut Formula,
) -> Result<(), BuildFault>
    requires { captures (receive_step inst.now None step.now) nothing_around (put_all (next_of (point_at proc.now point)) targets.now terms.now) ≡ false }
    ensures made { OnOk result (goal.new ≡ before_received inst.now None step.now (put_all (next_of (point_at proc.now point)) targets.now terms.now)) }
    ensures limit { (result ≡ Err BuildFault.Limit) → is_oversized (before_received inst.now None step.now (put_all (next_of (point_at proc.now point)) targets.now terms.now)) ≡ true }
{
    next_on_the_way(alloc, proc, point, goal)?;
    terms_over(alloc, targets, terms, goal)?;
    received_over(alloc, inst, step, goal)
}

/// Writes the obligation of a message that is taken at the point over a sequent.
pub fn got_point(
    alloc: Global,
    decls: &Decls,
    proc: &Proc,
    point: u32,
    names: &[u32],
    made: &mut Sequent,
) -> Result<(), BuildFault>
    requires few { length decls.now.invariants ≤ 255 }
    requires quiet { got_captures decls.now (point_at proc.now point).block (name_among names.now 0) (next_of (point_at proc.now point)) ≡ false }
    ensures made { OnOk result (made.new ≡ got_at decls.now proc.now (point_at proc.now point).block (name_among names.now 0) (next_of (point_at proc.now point))) }
    ensures limit { (result ≡ Err BuildFault.Limit) → is_oversized (got_at decls.now proc.now (point_at proc.now point).block (name_among names.now 0) (next_of (point_at proc.now point))).goal ≡ true }
{
    let commands = commands_from(proc, point);
    if commands.is_empty() {
        return put_nothing(alloc, made);
    }
    fill_got(
        alloc,
        decls,
        proc,
        point,
        &commands[0],
        &commands[1..],
        name_at(names, 0),
        made,
    )
}
