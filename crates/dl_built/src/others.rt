//! The obligations of steps of other nodes.

ghost use Rattle.std.specs.Prelude.{◌≡◌, ◌≤◌, ◌++◌, ◌∷◌, [], true, false, None, length, IfOk, OnOk};
ghost use Rattle.dl_term.specs.declared.syntax.Lab.TheVariants.{At};
ghost use Rattle.dl_term.specs.declared.syntax.Term.{Var};
ghost use Rattle.dl_term.specs.declared.syntax.Formula.{Eq, Not, True};
ghost use Rattle.dl_term.specs.Measures.{is_oversized};
ghost use Rattle.dl_model.specs.Block.{block_of, followed};
ghost use Rattle.dl_model.specs.Lookup.{world_at};
ghost use Rattle.dl_model.specs.Words.{me_word};
ghost use Rattle.dl_wp.specs.Steps.{send_step, receive_step};
ghost use Rattle.dl_wp.specs.Before.{before_sent, before_received};
ghost use Rattle.dl_wp.specs.Captures.{captures, nothing_around};
ghost use Rattle.dl_inv.specs.Words.{hooks_word};
ghost use Rattle.dl_inv.specs.Steps.{called, receive_by as receiving_by, receive_hypotheses, send_by as sending_by, send_hypotheses, all_hooks};
ghost use Rattle.dl_inv.specs.Obligations.{receive_known as known_of_receive, send_known as known_of_send};
ghost use Rattle.dl_triples.specs.Points.{frame_of, note_of, point_at};
ghost use Rattle.dl_triples.specs.Obligations.{facts_at, is_other, kept_by_receive as kept_receive, kept_by_send as kept_send, kept_sequent, vars_of};
ghost use Rattle.dl_triples.specs.Built.{stays_at, step_captures, vars_at};

use dl_inv::{
    BuildFault, add_fact, add_receive, add_send, receive_by, receive_known, send_by, send_known,
};
use dl_model::{Command, Decls, Hypothesis, Instances, Proc, Sequent};
use dl_parts::{
    ME, add_facts_at, hooks_met, put_beside, put_facts, put_goal, put_sequent, stopped,
};
use dl_points::commands_from;
use dl_term::{Formula, Lab, Term, copy_term};
use dl_wp::{ReceiveStep, SendStep, before_receive, before_send};
use sqlite_items::{Boxed, Items};
use std::alloc::{AllocError, Global};

// The names of hypotheses that no file declares.
const HOOKS: u32 = 12;

const OTHER: u32 = 14;

// Another node makes the step.
fn add_other(alloc: Global, facts: &mut Items<Hypothesis>, node: &Term) -> Result<(), AllocError>
    ensures { OnOk result (facts.new ≡ facts.old ++ is_other node.now ∷ []) }
{
    let other = other_node(alloc, node)?;
    add_fact(facts, OTHER, other)
}

fn other_node(alloc: Global, node: &Term) -> Result<Formula, AllocError>
    ensures { IfOk result (λ made. made ≡ Not (Eq node.now (Var me_word))) }
{
    let node = copy_term(alloc, node)?;
    match Boxed::new(alloc, Formula::Eq(node, Term::Var(ME))) {
        Ok(same) => Ok(Formula::Not(same)),
        Err(error) => Err(error),
    }
}

fn kept_by_send(
    alloc: Global,
    decls: &Decls,
    proc: &Proc,
    point: u32,
    formula: &Formula,
    label: u8,
    tag: u8,
    names: &[u32],
    made: &mut Sequent,
) -> Result<(), BuildFault>
    requires few { length decls.now.invariants ≤ 255 }
    requires quiet { step_captures decls.now formula.now label tag false names.now ≡ false }
    ensures made { OnOk result (made.new ≡ kept_send decls.now proc.now (vars_at decls.now proc.now point) formula.now label tag names.now) }
    ensures limit { (result ≡ Err BuildFault.Limit) → is_oversized (kept_send decls.now proc.now (vars_at decls.now proc.now point) formula.now label tag names.now).goal ≡ true }
{
    let step = send_by(alloc, Lab::At(label), tag, names)?;
    let filled = kept_after_send(
        alloc, decls, proc, point, formula, label, tag, names, &step, made,
    );
    drop(step);
    filled
}

fn kept_after_send(
    alloc: Global,
    decls: &Decls,
    proc: &Proc,
    point: u32,
    formula: &Formula,
    label: u8,
    tag: u8,
    names: &[u32],
    step: &SendStep,
    made: &mut Sequent,
) -> Result<(), BuildFault>
    requires few { length decls.now.invariants ≤ 255 }
    requires step { step.now ≡ sending_by (At label) tag names.now }
    requires quiet { step_captures decls.now formula.now label tag false names.now ≡ false }
    ensures made { OnOk result (made.new ≡ kept_send decls.now proc.now (vars_at decls.now proc.now point) formula.now label tag names.now) }
    ensures limit { (result ≡ Err BuildFault.Limit) → is_oversized (kept_send decls.now proc.now (vars_at decls.now proc.now point) formula.now label tag names.now).goal ≡ true }
{
    put_send_known(alloc, &decls.inst, label, tag, names, made)?;
    put_beside(alloc, decls, proc, point, made)?;
    put_send_facts(alloc, decls, proc, formula, label, tag, step, made)?;
    put_before_send(alloc, &decls.inst, step, formula, made)
}

fn put_send_known(
    alloc: Global,
    inst: &Instances,
    label: u8,
    tag: u8,
    names: &[u32],
    made: &mut Sequent,
) -> Result<(), AllocError>
    ensures { OnOk result (made.new ≡ known_of_send inst.now None (At label) tag names.now) }
{
    let known = send_known(alloc, inst, None, Lab::At(label), tag, names)?;
    put_sequent(made, known);
    Ok(())
}

fn put_send_facts(
    alloc: Global,
    decls: &Decls,
    proc: &Proc,
    formula: &Formula,
    label: u8,
    tag: u8,
    step: &SendStep,
    made: &mut Sequent,
) -> Result<(), AllocError>
    requires few { length decls.now.invariants ≤ 255 }
    requires label { step.now.label ≡ At label }
    ensures { OnOk result (made.new ≡ record made.old { facts = facts_at decls.now proc.now formula.now ++ (is_other step.now.sender ∷ (send_hypotheses decls.now.inst made.old step.now ++ called hooks_word (all_hooks decls.now (world_at decls.now proc.now.world) label tag step.now) ∷ [])) }) }
{
    let mut facts = Items::new(alloc);
    let added = add_send_facts(
        alloc, &mut facts, decls, proc, formula, label, tag, step, &*made,
    );
    put_facts(made, facts);
    added
}

fn add_send_facts(
    alloc: Global,
    facts: &mut Items<Hypothesis>,
    decls: &Decls,
    proc: &Proc,
    formula: &Formula,
    label: u8,
    tag: u8,
    step: &SendStep,
    known: &Sequent,
) -> Result<(), AllocError>
    requires few { length decls.now.invariants ≤ 255 }
    requires label { step.now.label ≡ At label }
    ensures { OnOk result (facts.new ≡ facts.old ++ (facts_at decls.now proc.now formula.now ++ (is_other step.now.sender ∷ (send_hypotheses decls.now.inst known.now step.now ++ called hooks_word (all_hooks decls.now (world_at decls.now proc.now.world) label tag step.now) ∷ [])))) }
{
    add_facts_at(alloc, facts, decls, proc, formula)?;
    add_other(alloc, facts, &step.sender)?;
    add_send(alloc, facts, &decls.inst, known, step)?;
    add_hooks(alloc, facts, decls, proc, label, tag, step)
}

fn add_hooks(
    alloc: Global,
    facts: &mut Items<Hypothesis>,
    decls: &Decls,
    proc: &Proc,
    label: u8,
    tag: u8,
    step: &SendStep,
) -> Result<(), AllocError>
    requires { step.now.label ≡ At label }
    ensures { OnOk result (facts.new ≡ facts.old ++ called hooks_word (all_hooks decls.now (world_at decls.now proc.now.world) label tag step.now) ∷ []) }
{
    let met = hooks_met(alloc, decls, proc, label, tag, step)?;
    add_fact(facts, HOOKS, met)
}

fn put_before_send(
    alloc: Global,
    inst: &Instances,
    step: &SendStep,
    formula: &Formula,
    made: &mut Sequent,
) -> Result<(), BuildFault>
    requires { captures (send_step inst.now None step.now) nothing_around formula.now ≡ false }
    ensures made { OnOk result (made.new ≡ record made.old { goal = before_sent inst.now None step.now formula.now }) }
    ensures limit { (result ≡ Err BuildFault.Limit) → is_oversized (before_sent inst.now None step.now formula.now) ≡ true }
{
    match before_send(alloc, inst, None, step, formula) {
        Ok(goal) => {
            put_goal(made, goal);
            Ok(())
        }
        Err(fault) => Err(stopped(fault)),
    }
}

fn kept_by_receive(
    alloc: Global,
    decls: &Decls,
    proc: &Proc,
    point: u32,
    formula: &Formula,
    label: u8,
    tag: u8,
    names: &[u32],
    made: &mut Sequent,
) -> Result<(), BuildFault>
    requires few { length decls.now.invariants ≤ 255 }
    requires quiet { step_captures decls.now formula.now label tag true names.now ≡ false }
    ensures made { OnOk result (made.new ≡ kept_receive decls.now proc.now (vars_at decls.now proc.now point) formula.now label tag names.now) }
    ensures limit { (result ≡ Err BuildFault.Limit) → is_oversized (kept_receive decls.now proc.now (vars_at decls.now proc.now point) formula.now label tag names.now).goal ≡ true }
{
    let step = receive_by(Lab::At(label), tag, names);
    let filled = kept_after_receive(
        alloc, decls, proc, point, formula, label, tag, names, &step, made,
    );
    drop(step);
    filled
}

fn kept_after_receive(
    alloc: Global,
    decls: &Decls,
    proc: &Proc,
    point: u32,
    formula: &Formula,
    label: u8,
    tag: u8,
    names: &[u32],
    step: &ReceiveStep,
    made: &mut Sequent,
) -> Result<(), BuildFault>
    requires few { length decls.now.invariants ≤ 255 }
    requires step { step.now ≡ receiving_by (At label) tag names.now }
    requires quiet { step_captures decls.now formula.now label tag true names.now ≡ false }
    ensures made { OnOk result (made.new ≡ kept_receive decls.now proc.now (vars_at decls.now proc.now point) formula.now label tag names.now) }
    ensures limit { (result ≡ Err BuildFault.Limit) → is_oversized (kept_receive decls.now proc.now (vars_at decls.now proc.now point) formula.now label tag names.now).goal ≡ true }
{
    put_receive_known(alloc, &decls.inst, label, tag, names, made)?;
    put_beside(alloc, decls, proc, point, made)?;
    put_receive_facts(alloc, decls, proc, formula, step, made)?;
    put_before_receive(alloc, &decls.inst, step, formula, made)
}

fn put_receive_known(
    alloc: Global,
    inst: &Instances,
    label: u8,
    tag: u8,
    names: &[u32],
    made: &mut Sequent,
) -> Result<(), AllocError>
    ensures { OnOk result (made.new ≡ known_of_receive inst.now None (At label) tag names.now) }
{
    let known = receive_known(alloc, inst, None, Lab::At(label), tag, names)?;
    put_sequent(made, known);
    Ok(())
}

fn put_receive_facts(
    alloc: Global,
    decls: &Decls,
    proc: &Proc,
    formula: &Formula,
    step: &ReceiveStep,
    made: &mut Sequent,
) -> Result<(), AllocError>
    requires { length decls.now.invariants ≤ 255 }
    ensures { OnOk result (made.new ≡ record made.old { facts = facts_at decls.now proc.now formula.now ++ (is_other step.now.receiver ∷ receive_hypotheses decls.now.inst made.old step.now) }) }
{
    let mut facts = Items::new(alloc);
    let added = add_receive_facts(alloc, &mut facts, decls, proc, formula, step, &*made);
    put_facts(made, facts);
    added
}

fn add_receive_facts(
    alloc: Global,
    facts: &mut Items<Hypothesis>,
    decls: &Decls,
    proc: &Proc,
    formula: &Formula,
    step: &ReceiveStep,
    known: &Sequent,
) -> Result<(), AllocError>
    requires { length decls.now.invariants ≤ 255 }
    ensures { OnOk result (facts.new ≡ facts.old ++ (facts_at decls.now proc.now formula.now ++ (is_other step.now.receiver ∷ receive_hypotheses decls.now.inst known.now step.now))) }
{
    add_facts_at(alloc, facts, decls, proc, formula)?;
    add_other(alloc, facts, &step.receiver)?;
    add_receive(alloc, facts, &decls.inst, known, step)
}

fn put_before_receive(
    alloc: Global,
    inst: &Instances,
    step: &ReceiveStep,
    formula: &Formula,
    made: &mut Sequent,
) -> Result<(), BuildFault>
    requires { captures (receive_step inst.now None step.now) nothing_around formula.now ≡ false }
    ensures made { OnOk result (made.new ≡ record made.old { goal = before_received inst.now None step.now formula.now }) }
    ensures limit { (result ≡ Err BuildFault.Limit) → is_oversized (before_received inst.now None step.now formula.now) ≡ true }
{
    match before_receive(alloc, inst, None, step, formula) {
        Ok(goal) => {
            put_goal(made, goal);
            Ok(())
        }
        Err(fault) => Err(stopped(fault)),
    }
}

// A step of another node keeps the formula.
fn fill_kept(
    alloc: Global,
    decls: &Decls,
    proc: &Proc,
    point: u32,
    formula: &Formula,
    label: u8,
    tag: u8,
    receive: bool,
    names: &[u32],
    made: &mut Sequent,
) -> Result<(), BuildFault>
    requires few { length decls.now.invariants ≤ 255 }
    requires quiet { step_captures decls.now formula.now label tag receive names.now ≡ false }
    ensures made { OnOk result (made.new ≡ kept_sequent decls.now proc.now (vars_at decls.now proc.now point) formula.now label tag receive names.now) }
    ensures limit { (result ≡ Err BuildFault.Limit) → is_oversized (kept_sequent decls.now proc.now (vars_at decls.now proc.now point) formula.now label tag receive names.now).goal ≡ true }
{
    if receive {
        kept_by_receive(alloc, decls, proc, point, formula, label, tag, names, made)
    } else {
        kept_by_send(alloc, decls, proc, point, formula, label, tag, names, made)
    }
}

// The annotation of the point that the command is, or `truth`.
fn note_in<'a>(command: &'a Command, rest: &'a [Command], truth: &'a Formula) -> &'a Formula
    requires { truth.now ≡ True }
    ensures { result.now ≡ note_of (followed command.now (block_of rest.now)) }
{
    match command {
        Command::Send { note, .. } => note,
        Command::Await { note, .. } => note,
        Command::Poll { note, .. } => note,
        Command::Read { note, .. } => note,
        Command::Set { .. } => truth,
        Command::If { .. } => truth,
        Command::While { note, .. } => note,
        Command::Call { note, .. } => note,
    }
}

// The annotation of the point that the commands begin with, or `truth`.
fn note_at<'a>(commands: &'a [Command], truth: &'a Formula) -> &'a Formula
    requires { truth.now ≡ True }
    ensures { result.now ≡ note_of (block_of commands.now) }
{
    if commands.is_empty() {
        return truth;
    }
    note_in(&commands[0], &commands[1..], truth)
}

// What the call holds on to that the command is, or `truth`.
fn frame_in<'a>(command: &'a Command, rest: &'a [Command], truth: &'a Formula) -> &'a Formula
    requires { truth.now ≡ True }
    ensures { result.now ≡ frame_of (followed command.now (block_of rest.now)) }
{
    match command {
        Command::Send { .. } => truth,
        Command::Await { .. } => truth,
        Command::Poll { .. } => truth,
        Command::Read { .. } => truth,
        Command::Set { .. } => truth,
        Command::If { .. } => truth,
        Command::While { .. } => truth,
        Command::Call { frame, .. } => frame,
    }
}

// What the call holds on to that the commands begin with, or `truth`.
fn frame_at<'a>(commands: &'a [Command], truth: &'a Formula) -> &'a Formula
    requires { truth.now ≡ True }
    ensures { result.now ≡ frame_of (block_of commands.now) }
{
    if commands.is_empty() {
        return truth;
    }
    frame_in(&commands[0], &commands[1..], truth)
}

// What has to stay at a point: its annotation, or the postcondition for the point 0.
fn stays<'a>(proc: &'a Proc, point: u32, truth: &'a Formula) -> &'a Formula
    requires { truth.now ≡ True }
    ensures { result.now ≡ stays_at proc.now point }
{
    if point == 0 {
        return &proc.post;
    }
    note_at(commands_from(proc, point), truth)
}

pub(crate) fn fill_stable(
    alloc: Global,
    decls: &Decls,
    proc: &Proc,
    point: u32,
    label: u8,
    tag: u8,
    receive: bool,
    names: &[u32],
    made: &mut Sequent,
) -> Result<(), BuildFault>
    requires few { length decls.now.invariants ≤ 255 }
    requires quiet { step_captures decls.now (stays_at proc.now point) label tag receive names.now ≡ false }
    ensures made { OnOk result (made.new ≡ kept_sequent decls.now proc.now (vars_at decls.now proc.now point) (stays_at proc.now point) label tag receive names.now) }
    ensures limit { (result ≡ Err BuildFault.Limit) → is_oversized (kept_sequent decls.now proc.now (vars_at decls.now proc.now point) (stays_at proc.now point) label tag receive names.now).goal ≡ true }
{
    let truth = Formula::True;
    let formula = stays(&*proc, point, &truth);
    let filled = fill_kept(
        alloc, decls, &*proc, point, formula, label, tag, receive, names, made,
    );
    drop(truth);
    filled
}

pub(crate) fn fill_frame(
    alloc: Global,
    decls: &Decls,
    proc: &Proc,
    point: u32,
    label: u8,
    tag: u8,
    receive: bool,
    names: &[u32],
    made: &mut Sequent,
) -> Result<(), BuildFault>
    requires few { length decls.now.invariants ≤ 255 }
    requires quiet { step_captures decls.now (frame_of (point_at proc.now point).block) label tag receive names.now ≡ false }
    ensures made { OnOk result (made.new ≡ kept_sequent decls.now proc.now (vars_of decls.now proc.now) (frame_of (point_at proc.now point).block) label tag receive names.now) }
    ensures limit { (result ≡ Err BuildFault.Limit) → is_oversized (kept_sequent decls.now proc.now (vars_of decls.now proc.now) (frame_of (point_at proc.now point).block) label tag receive names.now).goal ≡ true }
{
    let truth = Formula::True;
    let commands = commands_from(&*proc, point);
    let formula = frame_at(commands, &truth);
    let filled = fill_kept(
        alloc, decls, &*proc, 1, formula, label, tag, receive, names, made,
    );
    drop(truth);
    filled
}
