//! Parts of sequents: goals, one over another, and the procedures that obligations speak of.

ghost use Rattle.std.specs.Prelude.{◌≡◌, ◌≤◌, true, false, None, OnOk};
ghost use Rattle.dl_term.specs.Measures.{is_oversized};
ghost use Rattle.dl_model.specs.Lookup.{no_proc, proc_at};
ghost use Rattle.dl_wp.specs.Steps.{send_step, receive_step};
ghost use Rattle.dl_wp.specs.Before.{before_sent, before_received};
ghost use Rattle.dl_wp.specs.Captures.{captures, nothing_around};
ghost use Rattle.dl_wp.specs.First.{at_first};
ghost use Rattle.dl_inv.specs.Steps.{name_at as name_among};
ghost use Rattle.dl_triples.specs.Points.{next_of, point_at};
ghost use Rattle.dl_triples.specs.Obligations.{no_sequent, put as put_all};

use crate::known::{nothing_known, put_sequent};
use crate::sends::put_for;
use dl_inv::BuildFault;
use dl_model::{Decls, Instances, Proc, Sequent};
use dl_points::{next_of_point, put_formula};
use dl_term::{Formula, Term};
use dl_wp::{ReceiveStep, SendStep, WpFault, at_init, before_receive, before_send};
use sqlite_items::{Items, at};
use std::alloc::{AllocError, Global};
use std::mem;

/// Writes the sequent that stands where an obligation names nothing in the file.
pub fn put_nothing(alloc: Global, made: &mut Sequent) -> Result<(), BuildFault>
    ensures made { OnOk result (made.new ≡ no_sequent) }
    ensures limit { (result ≡ Err BuildFault.Limit) → ⊥ }
{
    put_sequent(
        made,
        nothing_known(alloc, Items::new(alloc), Items::new(alloc)),
    );
    Ok(())
}

/// Puts a goal in the place of another.
pub fn put_goal(place: &mut Sequent, goal: Formula)
    ensures { place.new ≡ record place.old { goal = goal } }
{
    drop(mem::replace(&mut place.goal, goal));
}

/// The name at a place, 0 where there are fewer.
pub fn name_at(names: &[u32], place: usize) -> u32
    ensures { result ≡ name_among names.now place }
{
    match at(names, place) {
        Some(name) => *name,
        None => 0,
    }
}

/// The procedure at a position, or `none` where there is none.
pub fn proc_of<'a>(decls: &'a Decls, number: u8, none: &'a Proc) -> &'a Proc
    requires { none.now ≡ no_proc }
    ensures { result.now ≡ proc_at decls.now.procs number }
{
    match at(decls.procs.as_slice(), usize::from(number)) {
        Some(proc) => proc,
        None => none,
    }
}

/// The procedure that stands where there is none: nothing lets it begin.
pub fn nobody(alloc: Global) -> Proc
    ensures { result ≡ no_proc }
{
    Proc {
        sym: 0,
        world: 0,
        params: Items::new(alloc),
        locals: Items::new(alloc),
        pre: Formula::False,
        post: Formula::True,
        body: Items::new(alloc),
        result: Term::Num(0),
    }
}

/// A step captures no name of an obligation, so `Size` and `Memory` are all that is left.
pub fn stopped(fault: WpFault) -> BuildFault
    requires { fault ≡ WpFault.Capture → ⊥ }
    ensures { (result ≡ BuildFault.Limit) → fault ≡ WpFault.Size }
{
    match fault {
        WpFault::Size => BuildFault::Limit,
        WpFault::Memory => BuildFault::Memory,
        WpFault::Capture => unreachable!(),
    }
}

/// Writes where a formula holds after a send over it.
pub fn sent_over(
    alloc: Global,
    inst: &Instances,
    step: &SendStep,
    formula: &mut Formula,
) -> Result<(), BuildFault>
    requires { captures (send_step inst.now None step.now) nothing_around formula.now ≡ false }
    ensures made { OnOk result (formula.new ≡ before_sent inst.now None step.now formula.old) }
    ensures limit { (result ≡ Err BuildFault.Limit) → is_oversized (before_sent inst.now None step.now formula.old) ≡ true }
{
    match before_send(alloc, inst, None, step, &*formula) {
        Ok(made) => {
            put_formula(formula, made);
            Ok(())
        }
        Err(fault) => Err(stopped(fault)),
    }
}

/// Writes where a formula holds after a receive over it.
pub fn received_over(
    alloc: Global,
    inst: &Instances,
    step: &ReceiveStep,
    formula: &mut Formula,
) -> Result<(), BuildFault>
    requires { captures (receive_step inst.now None step.now) nothing_around formula.now ≡ false }
    ensures made { OnOk result (formula.new ≡ before_received inst.now None step.now formula.old) }
    ensures limit { (result ≡ Err BuildFault.Limit) → is_oversized (before_received inst.now None step.now formula.old) ≡ true }
{
    match before_receive(alloc, inst, None, step, &*formula) {
        Ok(made) => {
            put_formula(formula, made);
            Ok(())
        }
        Err(fault) => Err(stopped(fault)),
    }
}

/// Writes where a formula holds in the first state over it.
pub fn first_over(alloc: Global, inst: &Instances, formula: &mut Formula) -> Result<(), BuildFault>
    requires { 1 ≤ inst.now.nodes }
    ensures made { OnOk result (formula.new ≡ at_first inst.now None formula.old) }
    ensures limit { (result ≡ Err BuildFault.Limit) → is_oversized (at_first inst.now None formula.old) ≡ true }
{
    match at_init(alloc, inst, None, &*formula) {
        Ok(made) => {
            put_formula(formula, made);
            Ok(())
        }
        Err(fault) => Err(stopped(fault)),
    }
}

/// Puts terms for names in a formula.
pub fn terms_over(
    alloc: Global,
    names: &[u32],
    terms: &[Term],
    formula: &mut Formula,
) -> Result<(), AllocError>
    ensures { OnOk result (formula.new ≡ put_all formula.old names.now terms.now) }
{
    match put_for(alloc, &*formula, names, terms) {
        Ok(made) => {
            put_formula(formula, made);
            Ok(())
        }
        Err(error) => Err(error),
    }
}

/// Writes what has to hold after a point over a formula, on the way to a goal that may be smaller.
pub fn next_on_the_way(
    alloc: Global,
    proc: &Proc,
    point: u32,
    formula: &mut Formula,
) -> Result<(), AllocError>
    ensures { OnOk result (formula.new ≡ next_of (point_at proc.now point)) }
{
    match next_of_point(alloc, proc, point, formula) {
        Ok(()) => Ok(()),
        Err(_) => Err(AllocError),
    }
}
