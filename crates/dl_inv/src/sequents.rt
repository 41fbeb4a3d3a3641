//! The sequents of obligations.

ghost use Rattle.std.specs.Prelude.{◌≡◌, ◌≤◌, ◌++◌, ◌∷◌, [], true, false, IfErr, IfOk, OnOk};
ghost use Rattle.dl_term.specs.declared.syntax.Formula.{True};
ghost use Rattle.dl_term.specs.declared.syntax.Lab.TheVariants.{At};
ghost use Rattle.dl_term.specs.Measures.{is_oversized};
ghost use Rattle.dl_model.specs.Formed.{FileIsSmall};
ghost use Rattle.dl_sequent.specs.declared.duty.Duty.TheVariants.{StepProtocol, StepInvariant};
ghost use Rattle.dl_sequent.specs.Sizes.{is_too_large as too_large};
ghost use Rattle.dl_wp.specs.First.{at_first};
ghost use Rattle.dl_wp.specs.Before.{before_sent, before_received};
ghost use Rattle.dl_wp.specs.Captures.{captures, nothing_around};
ghost use Rattle.dl_wp.specs.Steps.{send_step, receive_step};
ghost use Rattle.dl_inv.specs.declared.sequents.BuildFault.TheVariants.{Memory};
ghost use Rattle.dl_inv.specs.Words.{hooks_word};
ghost use Rattle.dl_inv.specs.Joined.{all_of};
ghost use Rattle.dl_inv.specs.Code.{hooks_put};
ghost use Rattle.dl_inv.specs.Steps.{called, send_hypotheses, receive_hypotheses, send_by as sending, receive_by as receiving};
ghost use Rattle.dl_inv.specs.Obligations.{send_known as known_of_send, receive_known as known_of_receive, coherence_of as coherence_in, init_sequent, invariant_at, sequent_of, known as nothing_but};
ghost use Rattle.dl_inv.specs.Taken.{MayTake, captured};
ghost use Rattle.dl_inv.specs.Built.{home_facts, before_of, hooks_in, send_with, receive_with, sent, received, kept, captured_by};

use crate::facts::{Extent, add_fact, add_facts, extent_of};
use crate::hooks::{Sending, all_hooks};
use crate::rule::{add_receive, add_send};
use crate::step::{receive_by, receive_known, send_by, send_known, step_terms};
use dl_model::{Decls, Hypothesis, Instances, Invariant, Sequent};
use dl_sequent::{Duty, is_too_large};
use dl_term::{Formula, Lab, Term, copy_formula};
use dl_wp::{ReceiveStep, SendStep, WpFault, at_init, before_receive, before_send};
use sqlite_items::{Items, at};
use std::alloc::{AllocError, Global};
use std::mem;

// The names of hypotheses that no file declares.
const SELF: u32 = 3;

const HOOKS: u32 = 12;

/// Why the sequent of an obligation was not built.
#[derive(Debug, Drop)]
pub enum BuildFault {
    /// It has more than 1,000,000 parts, or a formula of it nests more than 4,000 deep.
    Limit,
    /// Want of memory.
    Memory,
}

impl From<AllocError> for BuildFault {
    ghost from_gives = { λ _ e. e ≡ Memory };

    fn from(_e: AllocError) -> BuildFault {
        BuildFault::Memory
    }
}

// The place of an invariant in the file, its world, and the label of a step in it.
#[derive(Clone, Copy)]
pub(crate) struct Home<'a> {
    position: u8,
    world: Extent<'a>,
    label: u8,
}

// What steps are to keep: the coherence of a protocol, or an invariant.
#[derive(Clone, Copy)]
pub(crate) struct Claim<'a> {
    // The protocol of `self`, for a coherence.
    own: Option<u8>,
    // The label of the steps.
    label: Lab,
    // The name that it has as a hypothesis.
    name: u32,
    formula: &'a Formula,
    // None for a coherence.
    home: Option<Home<'a>>,
}

/// The sequent of an obligation that takes these names.
///
/// The conditions are that the file is within its limits, and that the obligation may take the names. `Limit` comes only
/// where the sequent has more than 1,000,000 parts or a formula that nests more than 4,000 deep, and then no other
/// refusal comes but `Memory`. An obligation of a program has no hypothesis here, and the goal `true`.
pub fn build(
    alloc: Global,
    decls: &Decls,
    duty: &Duty,
    names: &[u32],
) -> Result<Sequent, BuildFault>
    requires small { FileIsSmall decls.now }
    requires taken { MayTake decls.now duty.now names.now }
    ensures made { IfOk result (λ made. made ≡ sequent_of decls.now duty.now names.now) }
    ensures small { IfOk result (λ made. too_large made ≡ false) }
    ensures limit { (result ≡ Err BuildFault.Limit) → too_large (sequent_of decls.now duty.now names.now) ≡ true }
{
    let mut made = nothing_known(alloc);
    match fill(alloc, decls, duty, names, &mut made) {
        Ok(()) => not_too_large(made),
        Err(fault) => {
            drop(made);
            Err(fault)
        }
    }
}

fn nothing_known(alloc: Global) -> Sequent
    ensures { result ≡ nothing_but [] [] None }
{
    Sequent {
        vars: Items::new(alloc),
        messages: Items::new(alloc),
        facts: Items::new(alloc),
        goal: Formula::True,
        own: None,
    }
}

fn not_too_large(made: Sequent) -> Result<Sequent, BuildFault>
    ensures kept { IfOk result (λ kept. (kept ≡ made) × (too_large made ≡ false)) }
    ensures limit { IfErr result (λ fault. (fault ≡ BuildFault.Limit) × (too_large made ≡ true)) }
{
    if is_too_large(&made) {
        drop(made);
        return Err(BuildFault::Limit);
    }
    Ok(made)
}

// Writes the sequent over another one, where its goal is not too large.
fn fill(
    alloc: Global,
    decls: &Decls,
    duty: &Duty,
    names: &[u32],
    made: &mut Sequent,
) -> Result<(), BuildFault>
    requires some { 1 ≤ decls.now.inst.nodes }
    requires quiet { captured decls.now duty.now names.now ≡ false }
    ensures made { OnOk result (made.new ≡ sequent_of decls.now duty.now names.now) }
    ensures limit { (result ≡ Err BuildFault.Limit) → is_oversized (sequent_of decls.now duty.now names.now).goal ≡ true }
{
    match duty {
        Duty::InitProtocol { protocol } => protocol_at_first(alloc, decls, *protocol, made),
        Duty::InitInvariant { invariant } => invariant_at_first(alloc, decls, *invariant, made),
        Duty::StepProtocol {
            protocol,
            tag,
            receive,
        } => step_of_protocol(alloc, decls, *protocol, *tag, *receive, names, made),
        Duty::StepInvariant {
            invariant,
            label,
            tag,
            receive,
        } => step_of_invariant(
            alloc, decls, *invariant, *label, *tag, *receive, names, made,
        ),
        _ => {
            put(made, nothing_known(alloc));
            Ok(())
        }
    }
}

// ---- parts of a sequent

fn put(place: &mut Sequent, made: Sequent)
    ensures { place.new ≡ made }
{
    drop(mem::replace(place, made));
}

fn put_goal(place: &mut Sequent, goal: Formula)
    ensures { place.new ≡ record place.old { goal = goal } }
{
    drop(mem::replace(&mut place.goal, goal));
}

fn put_facts(place: &mut Sequent, facts: Items<Hypothesis>)
    ensures { place.new ≡ record place.old { facts = facts } }
{
    drop(mem::replace(&mut place.facts, facts));
}

// ---- refusals

// A step captures no name of an obligation, so `Size` and `Memory` are all that is left.
fn refused(fault: WpFault) -> BuildFault
    requires { fault ≡ WpFault.Capture → ⊥ }
    ensures { (result ≡ BuildFault.Limit) → fault ≡ WpFault.Size }
{
    match fault {
        WpFault::Size => BuildFault::Limit,
        WpFault::Memory => BuildFault::Memory,
        WpFault::Capture => unreachable!(),
    }
}

fn goal_at_first(
    alloc: Global,
    inst: &Instances,
    own: Option<u8>,
    formula: &Formula,
) -> Result<Formula, BuildFault>
    requires { 1 ≤ inst.now.nodes }
    ensures made { IfOk result (λ goal. goal ≡ at_first inst.now own formula.now) }
    ensures limit { (result ≡ Err BuildFault.Limit) → is_oversized (at_first inst.now own formula.now) ≡ true }
{
    match at_init(alloc, inst, own, formula) {
        Ok(goal) => Ok(goal),
        Err(fault) => Err(refused(fault)),
    }
}

fn goal_before_send(
    alloc: Global,
    inst: &Instances,
    own: Option<u8>,
    step: &SendStep,
    formula: &Formula,
) -> Result<Formula, BuildFault>
    requires { captures (send_step inst.now own step.now) nothing_around formula.now ≡ false }
    ensures made { IfOk result (λ goal. goal ≡ before_sent inst.now own step.now formula.now) }
    ensures limit { (result ≡ Err BuildFault.Limit) → is_oversized (before_sent inst.now own step.now formula.now) ≡ true }
{
    match before_send(alloc, inst, own, step, formula) {
        Ok(goal) => Ok(goal),
        Err(fault) => Err(refused(fault)),
    }
}

fn goal_before_receive(
    alloc: Global,
    inst: &Instances,
    own: Option<u8>,
    step: &ReceiveStep,
    formula: &Formula,
) -> Result<Formula, BuildFault>
    requires { captures (receive_step inst.now own step.now) nothing_around formula.now ≡ false }
    ensures made { IfOk result (λ goal. goal ≡ before_received inst.now own step.now formula.now) }
    ensures limit { (result ≡ Err BuildFault.Limit) → is_oversized (before_received inst.now own step.now formula.now) ≡ true }
{
    match before_receive(alloc, inst, own, step, formula) {
        Ok(goal) => Ok(goal),
        Err(fault) => Err(refused(fault)),
    }
}

// ---- at first

fn fill_at_first(
    alloc: Global,
    inst: &Instances,
    own: Option<u8>,
    formula: &Formula,
    made: &mut Sequent,
) -> Result<(), BuildFault>
    requires { 1 ≤ inst.now.nodes }
    ensures made { OnOk result (made.new ≡ init_sequent inst.now own formula.now) }
    ensures limit { (result ≡ Err BuildFault.Limit) → is_oversized (init_sequent inst.now own formula.now).goal ≡ true }
{
    let goal = goal_at_first(alloc, inst, own, formula)?;
    put(
        made,
        Sequent {
            vars: Items::new(alloc),
            messages: Items::new(alloc),
            facts: Items::new(alloc),
            goal,
            own,
        },
    );
    Ok(())
}

// The coherence of a protocol, or `truth` where there is none.
fn coherence_of<'a>(inst: &'a Instances, protocol: u8, truth: &'a Formula) -> &'a Formula
    requires { truth.now ≡ True }
    ensures { result.now ≡ coherence_in inst.now protocol }
{
    let Some(protocol) = at(inst.protocols.as_slice(), usize::from(protocol)) else {
        return truth;
    };
    match &protocol.coherence {
        Some(coherence) => coherence,
        None => truth,
    }
}

// The invariant at a position, or `none` where there is none.
fn invariant_of<'a>(decls: &'a Decls, position: u8, none: &'a Invariant) -> &'a Invariant
    requires { none.now ≡ record { sym = 0; world = 0; formula = True } }
    ensures { result.now ≡ invariant_at decls.now position }
{
    match at(decls.invariants.as_slice(), usize::from(position)) {
        Some(invariant) => invariant,
        None => none,
    }
}

fn no_invariant() -> Invariant
    ensures { result ≡ record { sym = 0; world = 0; formula = True } }
{
    Invariant {
        sym: 0,
        world: 0,
        formula: Formula::True,
    }
}

fn protocol_at_first(
    alloc: Global,
    decls: &Decls,
    protocol: u8,
    made: &mut Sequent,
) -> Result<(), BuildFault>
    requires { 1 ≤ decls.now.inst.nodes }
    ensures made { OnOk result (made.new ≡ init_sequent decls.now.inst (Some protocol) (coherence_in decls.now.inst protocol)) }
    ensures limit { (result ≡ Err BuildFault.Limit) → is_oversized (init_sequent decls.now.inst (Some protocol) (coherence_in decls.now.inst protocol)).goal ≡ true }
{
    let truth = Formula::True;
    let coherence = coherence_of(&decls.inst, protocol, &truth);
    let filled = fill_at_first(alloc, &decls.inst, Some(protocol), coherence, made);
    drop(truth);
    filled
}

fn invariant_at_first(
    alloc: Global,
    decls: &Decls,
    position: u8,
    made: &mut Sequent,
) -> Result<(), BuildFault>
    requires { 1 ≤ decls.now.inst.nodes }
    ensures made { OnOk result (made.new ≡ init_sequent decls.now.inst None (invariant_at decls.now position).formula) }
    ensures limit { (result ≡ Err BuildFault.Limit) → is_oversized (init_sequent decls.now.inst None (invariant_at decls.now position).formula).goal ≡ true }
{
    let none = no_invariant();
    let invariant = invariant_of(decls, position, &none);
    let filled = fill_at_first(alloc, &decls.inst, None, &invariant.formula, made);
    drop(none);
    filled
}

// ---- hypotheses of a step

fn add_home_facts(
    alloc: Global,
    facts: &mut Items<Hypothesis>,
    decls: &Decls,
    home: &Option<Home>,
) -> Result<(), AllocError>
    ensures { OnOk result (facts.new ≡ facts.old ++ home_facts decls.now home.now) }
{
    match home {
        Some(home) => add_facts(alloc, facts, decls, home.position, &home.world),
        None => Ok(()),
    }
}

// Adds what a step of the claim may rely on: the facts before it, and the claim itself.
fn add_before(
    alloc: Global,
    facts: &mut Items<Hypothesis>,
    decls: &Decls,
    claim: &Claim,
) -> Result<(), AllocError>
    ensures { OnOk result (facts.new ≡ facts.old ++ before_of decls.now claim.now) }
{
    add_home_facts(alloc, facts, decls, &claim.home)?;
    let formula = copy_formula(alloc, claim.formula)?;
    add_fact(facts, claim.name, formula)
}

// Adds the hooks of the world as one hypothesis.
fn add_hooks_of(
    alloc: Global,
    facts: &mut Items<Hypothesis>,
    decls: &Decls,
    tag: u8,
    terms: &[Term],
    home: &Home,
) -> Result<(), AllocError>
    ensures { OnOk result (facts.new ≡ facts.old ++ called hooks_word (all_of (hooks_put decls.now home.now.label tag terms.now home.now.world.hooks.now)) ∷ []) }
{
    let send = Sending {
        label: home.label,
        tag,
        terms: &*terms,
    };
    let met = all_hooks(alloc, decls, &send, home.world.hooks)?;
    add_fact(facts, HOOKS, met)
}

// Adds the hooks that the send meets, for an invariant.
fn add_hooks_met(
    alloc: Global,
    facts: &mut Items<Hypothesis>,
    decls: &Decls,
    step: &SendStep,
    home: &Option<Home>,
) -> Result<(), AllocError>
    ensures { OnOk result (facts.new ≡ facts.old ++ hooks_in decls.now step.now.tag (step.now.sender ∷ step.now.to ∷ step.now.args) home.now) }
{
    let Some(home) = home else {
        return Ok(());
    };
    let terms = step_terms(alloc, &step.sender, &step.to, step.args.as_slice())?;
    let added = add_hooks_of(alloc, facts, decls, step.tag, terms.as_slice(), home);
    drop(terms);
    added
}

fn add_send_facts(
    alloc: Global,
    facts: &mut Items<Hypothesis>,
    decls: &Decls,
    claim: &Claim,
    known: &Sequent,
    step: &SendStep,
) -> Result<(), AllocError>
    ensures { OnOk result (facts.new ≡ facts.old ++ (before_of decls.now claim.now ++ (send_hypotheses decls.now.inst known.now step.now ++ hooks_in decls.now step.now.tag (step.now.sender ∷ step.now.to ∷ step.now.args) claim.now.home))) }
{
    add_before(alloc, facts, decls, claim)?;
    add_send(alloc, facts, &decls.inst, known, step)?;
    add_hooks_met(alloc, facts, decls, step, &claim.home)
}

fn add_receive_facts(
    alloc: Global,
    facts: &mut Items<Hypothesis>,
    decls: &Decls,
    claim: &Claim,
    known: &Sequent,
    step: &ReceiveStep,
) -> Result<(), AllocError>
    ensures { OnOk result (facts.new ≡ facts.old ++ (before_of decls.now claim.now ++ receive_hypotheses decls.now.inst known.now step.now)) }
{
    add_before(alloc, facts, decls, claim)?;
    add_receive(alloc, facts, &decls.inst, known, step)
}

// ---- a step

// Writes what is known of a send that is to keep the claim over a sequent.
fn put_send_facts(
    alloc: Global,
    decls: &Decls,
    claim: &Claim,
    step: &SendStep,
    made: &mut Sequent,
) -> Result<(), AllocError>
    ensures { OnOk result (made.new ≡ send_with decls.now claim.now step.now made.old) }
{
    let mut facts = Items::new(alloc);
    let added = add_send_facts(alloc, &mut facts, decls, claim, &*made, step);
    put_facts(made, facts);
    added
}

fn put_receive_facts(
    alloc: Global,
    decls: &Decls,
    claim: &Claim,
    step: &ReceiveStep,
    made: &mut Sequent,
) -> Result<(), AllocError>
    ensures { OnOk result (made.new ≡ receive_with decls.now claim.now step.now made.old) }
{
    let mut facts = Items::new(alloc);
    let added = add_receive_facts(alloc, &mut facts, decls, claim, &*made, step);
    put_facts(made, facts);
    added
}

// Writes the variables and messages of a send over a sequent.
fn put_send_known(
    alloc: Global,
    inst: &Instances,
    claim: &Claim,
    tag: u8,
    names: &[u32],
    made: &mut Sequent,
) -> Result<(), AllocError>
    ensures { OnOk result (made.new ≡ known_of_send inst.now claim.now.own claim.now.label tag names.now) }
{
    let known = send_known(alloc, inst, claim.own, claim.label, tag, names)?;
    put(made, known);
    Ok(())
}

// Writes what is known of a send that is to keep the claim over a sequent.
fn put_send(
    alloc: Global,
    decls: &Decls,
    claim: &Claim,
    tag: u8,
    names: &[u32],
    step: &SendStep,
    made: &mut Sequent,
) -> Result<(), AllocError>
    ensures { OnOk result (made.new ≡ send_with decls.now claim.now step.now (known_of_send decls.now.inst claim.now.own claim.now.label tag names.now)) }
{
    put_send_known(alloc, &decls.inst, claim, tag, names, made)?;
    put_send_facts(alloc, decls, claim, step, made)
}

fn put_send_goal(
    alloc: Global,
    inst: &Instances,
    claim: &Claim,
    step: &SendStep,
    made: &mut Sequent,
) -> Result<(), BuildFault>
    requires { captures (send_step inst.now claim.now.own step.now) nothing_around claim.now.formula.now ≡ false }
    ensures made { OnOk result (made.new ≡ record made.old { goal = before_sent inst.now claim.now.own step.now claim.now.formula.now }) }
    ensures limit { (result ≡ Err BuildFault.Limit) → is_oversized (before_sent inst.now claim.now.own step.now claim.now.formula.now) ≡ true }
{
    let goal = goal_before_send(alloc, inst, claim.own, step, claim.formula)?;
    put_goal(made, goal);
    Ok(())
}

// The sequent of a send that is to keep the claim, by its step.
fn fill_sent(
    alloc: Global,
    decls: &Decls,
    claim: &Claim,
    tag: u8,
    names: &[u32],
    step: &SendStep,
    made: &mut Sequent,
) -> Result<(), BuildFault>
    requires step { step.now ≡ sending claim.now.label tag names.now }
    requires quiet { captures (send_step decls.now.inst claim.now.own step.now) nothing_around claim.now.formula.now ≡ false }
    ensures made { OnOk result (made.new ≡ sent decls.now claim.now tag names.now) }
    ensures limit { (result ≡ Err BuildFault.Limit) → is_oversized (sent decls.now claim.now tag names.now).goal ≡ true }
{
    put_send(alloc, decls, claim, tag, names, step, made)?;
    put_send_goal(alloc, &decls.inst, claim, step, made)
}

fn fill_send(
    alloc: Global,
    decls: &Decls,
    claim: &Claim,
    tag: u8,
    names: &[u32],
    made: &mut Sequent,
) -> Result<(), BuildFault>
    requires { captures (send_step decls.now.inst claim.now.own (sending claim.now.label tag names.now)) nothing_around claim.now.formula.now ≡ false }
    ensures made { OnOk result (made.new ≡ sent decls.now claim.now tag names.now) }
    ensures limit { (result ≡ Err BuildFault.Limit) → is_oversized (sent decls.now claim.now tag names.now).goal ≡ true }
{
    let step = send_by(alloc, claim.label, tag, names)?;
    let filled = fill_sent(alloc, decls, claim, tag, names, &step, made);
    drop(step);
    filled
}

// Writes the variables and messages of a receive over a sequent.
fn put_receive_known(
    alloc: Global,
    inst: &Instances,
    claim: &Claim,
    tag: u8,
    names: &[u32],
    made: &mut Sequent,
) -> Result<(), AllocError>
    ensures { OnOk result (made.new ≡ known_of_receive inst.now claim.now.own claim.now.label tag names.now) }
{
    let known = receive_known(alloc, inst, claim.own, claim.label, tag, names)?;
    put(made, known);
    Ok(())
}

// Writes what is known of a receive that is to keep the claim over a sequent.
fn put_receive(
    alloc: Global,
    decls: &Decls,
    claim: &Claim,
    tag: u8,
    names: &[u32],
    step: &ReceiveStep,
    made: &mut Sequent,
) -> Result<(), AllocError>
    ensures { OnOk result (made.new ≡ receive_with decls.now claim.now step.now (known_of_receive decls.now.inst claim.now.own claim.now.label tag names.now)) }
{
    put_receive_known(alloc, &decls.inst, claim, tag, names, made)?;
    put_receive_facts(alloc, decls, claim, step, made)
}

fn put_receive_goal(
    alloc: Global,
    inst: &Instances,
    claim: &Claim,
    step: &ReceiveStep,
    made: &mut Sequent,
) -> Result<(), BuildFault>
    requires { captures (receive_step inst.now claim.now.own step.now) nothing_around claim.now.formula.now ≡ false }
    ensures made { OnOk result (made.new ≡ record made.old { goal = before_received inst.now claim.now.own step.now claim.now.formula.now }) }
    ensures limit { (result ≡ Err BuildFault.Limit) → is_oversized (before_received inst.now claim.now.own step.now claim.now.formula.now) ≡ true }
{
    let goal = goal_before_receive(alloc, inst, claim.own, step, claim.formula)?;
    put_goal(made, goal);
    Ok(())
}

// The sequent of a receive that is to keep the claim, by its step.
fn fill_received(
    alloc: Global,
    decls: &Decls,
    claim: &Claim,
    tag: u8,
    names: &[u32],
    step: &ReceiveStep,
    made: &mut Sequent,
) -> Result<(), BuildFault>
    requires step { step.now ≡ receiving claim.now.label tag names.now }
    requires quiet { captures (receive_step decls.now.inst claim.now.own step.now) nothing_around claim.now.formula.now ≡ false }
    ensures made { OnOk result (made.new ≡ received decls.now claim.now tag names.now) }
    ensures limit { (result ≡ Err BuildFault.Limit) → is_oversized (received decls.now claim.now tag names.now).goal ≡ true }
{
    put_receive(alloc, decls, claim, tag, names, step, made)?;
    put_receive_goal(alloc, &decls.inst, claim, step, made)
}

fn fill_receive(
    alloc: Global,
    decls: &Decls,
    claim: &Claim,
    tag: u8,
    names: &[u32],
    made: &mut Sequent,
) -> Result<(), BuildFault>
    requires { captures (receive_step decls.now.inst claim.now.own (receiving claim.now.label tag names.now)) nothing_around claim.now.formula.now ≡ false }
    ensures made { OnOk result (made.new ≡ received decls.now claim.now tag names.now) }
    ensures limit { (result ≡ Err BuildFault.Limit) → is_oversized (received decls.now claim.now tag names.now).goal ≡ true }
{
    let step = receive_by(claim.label, tag, names);
    let filled = fill_received(alloc, decls, claim, tag, names, &step, made);
    drop(step);
    filled
}

fn fill_step(
    alloc: Global,
    decls: &Decls,
    claim: &Claim,
    tag: u8,
    receive: bool,
    names: &[u32],
    made: &mut Sequent,
) -> Result<(), BuildFault>
    requires { captured_by decls.now claim.now tag receive names.now ≡ false }
    ensures made { OnOk result (made.new ≡ kept decls.now claim.now tag receive names.now) }
    ensures limit { (result ≡ Err BuildFault.Limit) → is_oversized (kept decls.now claim.now tag receive names.now).goal ≡ true }
{
    if receive {
        fill_receive(alloc, decls, claim, tag, names, made)
    } else {
        fill_send(alloc, decls, claim, tag, names, made)
    }
}

// A step of a protocol, whose coherence is `truth` where it has none.
fn step_of_coherence<'a>(
    alloc: Global,
    decls: &'a Decls,
    protocol: u8,
    tag: u8,
    receive: bool,
    names: &[u32],
    truth: &'a Formula,
    made: &mut Sequent,
) -> Result<(), BuildFault>
    requires truth { truth.now ≡ True }
    requires quiet { captured decls.now (StepProtocol protocol tag receive) names.now ≡ false }
    ensures made { OnOk result (made.new ≡ sequent_of decls.now (StepProtocol protocol tag receive) names.now) }
    ensures limit { (result ≡ Err BuildFault.Limit) → is_oversized (sequent_of decls.now (StepProtocol protocol tag receive) names.now).goal ≡ true }
{
    let claim = Claim {
        own: Some(protocol),
        label: Lab::Own,
        name: SELF,
        formula: coherence_of(&decls.inst, protocol, truth),
        home: None,
    };
    fill_step(alloc, decls, &claim, tag, receive, names, made)
}

fn step_of_protocol(
    alloc: Global,
    decls: &Decls,
    protocol: u8,
    tag: u8,
    receive: bool,
    names: &[u32],
    made: &mut Sequent,
) -> Result<(), BuildFault>
    requires { captured decls.now (StepProtocol protocol tag receive) names.now ≡ false }
    ensures made { OnOk result (made.new ≡ sequent_of decls.now (StepProtocol protocol tag receive) names.now) }
    ensures limit { (result ≡ Err BuildFault.Limit) → is_oversized (sequent_of decls.now (StepProtocol protocol tag receive) names.now).goal ≡ true }
{
    let truth = Formula::True;
    let filled = step_of_coherence(alloc, &*decls, protocol, tag, receive, names, &truth, made);
    drop(truth);
    filled
}

// The invariant, at the steps of a label.
fn invariant_claim<'a>(invariant: &'a Invariant, home: Home<'a>) -> Claim<'a>
    ensures own { result.own ≡ None }
    ensures label { result.label ≡ At home.entry.label }
    ensures name { result.name ≡ invariant.now.sym }
    ensures formula { result.formula.now ≡ invariant.now.formula }
    ensures home { result.home ≡ Some home.entry }
{
    Claim {
        own: None,
        label: Lab::At(home.label),
        name: invariant.sym,
        formula: &invariant.formula,
        home: Some(home),
    }
}

// A step at a label, for the invariant at a position.
fn step_of_home<'a>(
    alloc: Global,
    decls: &'a Decls,
    position: u8,
    label: u8,
    tag: u8,
    receive: bool,
    names: &[u32],
    invariant: &'a Invariant,
    made: &mut Sequent,
) -> Result<(), BuildFault>
    requires here { invariant.now ≡ invariant_at decls.now position }
    requires quiet { captured decls.now (StepInvariant position label tag receive) names.now ≡ false }
    ensures made { OnOk result (made.new ≡ sequent_of decls.now (StepInvariant position label tag receive) names.now) }
    ensures limit { (result ≡ Err BuildFault.Limit) → is_oversized (sequent_of decls.now (StepInvariant position label tag receive) names.now).goal ≡ true }
{
    let home = Home {
        position,
        world: extent_of(decls, invariant.world),
        label,
    };
    let claim = invariant_claim(invariant, home);
    fill_step(alloc, decls, &claim, tag, receive, names, made)
}

fn step_of_invariant(
    alloc: Global,
    decls: &Decls,
    position: u8,
    label: u8,
    tag: u8,
    receive: bool,
    names: &[u32],
    made: &mut Sequent,
) -> Result<(), BuildFault>
    requires { captured decls.now (StepInvariant position label tag receive) names.now ≡ false }
    ensures made { OnOk result (made.new ≡ sequent_of decls.now (StepInvariant position label tag receive) names.now) }
    ensures limit { (result ≡ Err BuildFault.Limit) → is_oversized (sequent_of decls.now (StepInvariant position label tag receive) names.now).goal ≡ true }
{
    let none = no_invariant();
    let invariant = invariant_of(&*decls, position, &none);
    let filled = step_of_home(
        alloc, &*decls, position, label, tag, receive, names, invariant, made,
    );
    drop(none);
    filled
}
