//! What the obligations of a procedure know: their variables and messages, and the facts of the procedure's world.

ghost use Rattle.std.specs.Prelude.{◌≡◌, ◌≤◌, ◌++◌, ◌∷◌, [], None, length, map, IfOk, OnOk};
ghost use Rattle.dl_model.specs.declared.sequent.Hypothesis.{Hypothesis as Fact};
ghost use Rattle.dl_inv.specs.Steps.{called};
ghost use Rattle.dl_inv.specs.Obligations.{known as nothing_but, with_sort};
ghost use Rattle.dl_triples.specs.Words.{pre_word};
ghost use Rattle.dl_triples.specs.Obligations.{beside as with_vars_before, facts_at, facts_in, int_sort, known_in, known_with, vars_of};
ghost use Rattle.dl_triples.specs.Built.{vars_at, vars_after};

use dl_inv::{add_fact, add_facts, extent_of};
use dl_model::{Decls, Hypothesis, Proc, Sequent};
use dl_sequent::node_sort;
use dl_term::{Formula, Sort, copy_formula};
use sqlite_items::Items;
use std::alloc::{AllocError, Global};
use std::mem;

/// The name of the node itself.
pub const ME: u32 = 4;

/// The name of what a procedure returns.
pub const RESULT: u32 = 7;

// The name of the hypothesis that holds there.
const PRE: u32 = 9;

// The sort of locals, and of what a procedure returns.
const INT: Sort = Sort {
    low: i64::MIN,
    high: i64::MAX,
};

// ---- variables

fn add_params(vars: &mut Items<(u32, Sort)>, params: &[(u32, Sort)]) -> Result<(), AllocError>
    ensures { OnOk result (vars.new ≡ vars.old ++ params.now) }
{
    for param in params {
        vars.push((param.0, param.1))?;
    }
    Ok(())
}

fn add_locals(vars: &mut Items<(u32, Sort)>, locals: &[u32]) -> Result<(), AllocError>
    ensures { OnOk result (vars.new ≡ vars.old ++ map (with_sort int_sort) locals.now) }
{
    for local in locals {
        add_int(vars, *local)?;
    }
    Ok(())
}

fn add_int(vars: &mut Items<(u32, Sort)>, name: u32) -> Result<(), AllocError>
    ensures { OnOk result (vars.new ≡ vars.old ++ with_sort int_sort name ∷ []) }
{
    vars.push((name, INT))
}

fn vars_in(alloc: Global, decls: &Decls, proc: &Proc) -> Result<Items<(u32, Sort)>, AllocError>
    ensures { IfOk result (λ vars. vars ≡ vars_of decls.now proc.now) }
{
    let mut vars = Items::new(alloc);
    vars.push((ME, node_sort(&decls.inst)))?;
    add_params(&mut vars, proc.params.as_slice())?;
    add_locals(&mut vars, proc.locals.as_slice())?;
    Ok(vars)
}

// The variables, and besides what a procedure returns, by this name.
fn vars_with(
    alloc: Global,
    decls: &Decls,
    proc: &Proc,
    returned: u32,
) -> Result<Items<(u32, Sort)>, AllocError>
    ensures { IfOk result (λ vars. vars ≡ vars_after decls.now proc.now returned) }
{
    let mut vars = vars_in(alloc, decls, proc)?;
    add_int(&mut vars, returned)?;
    Ok(vars)
}

// The variables at a point, which for the point 0 have the result besides.
fn vars_at_point(
    alloc: Global,
    decls: &Decls,
    proc: &Proc,
    point: u32,
) -> Result<Items<(u32, Sort)>, AllocError>
    ensures { IfOk result (λ vars. vars ≡ vars_at decls.now proc.now point) }
{
    if point == 0 {
        return vars_with(alloc, decls, proc, RESULT);
    }
    vars_in(alloc, decls, proc)
}

// ---- sequents without hypotheses

/// Variables and messages alone.
pub fn nothing_known(
    alloc: Global,
    vars: Items<(u32, Sort)>,
    messages: Items<(u32, u8, u8)>,
) -> Sequent
    ensures { result ≡ nothing_but vars messages None }
{
    Sequent {
        vars,
        messages,
        facts: Items::new(alloc),
        goal: Formula::True,
        own: None,
    }
}

/// Writes a sequent over another one.
pub fn put_sequent(place: &mut Sequent, made: Sequent)
    ensures { place.new ≡ made }
{
    drop(mem::replace(place, made));
}

/// Writes hypotheses over those of a sequent.
pub fn put_facts(place: &mut Sequent, facts: Items<Hypothesis>)
    ensures { place.new ≡ record place.old { facts = facts } }
{
    drop(mem::replace(&mut place.facts, facts));
}

// Writes variables over those of a sequent.
fn put_vars(place: &mut Sequent, vars: Items<(u32, Sort)>)
    ensures { place.new ≡ record place.old { vars = vars } }
{
    drop(mem::replace(&mut place.vars, vars));
}

/// Writes the variables of a procedure over a sequent.
pub fn put_known(
    alloc: Global,
    decls: &Decls,
    proc: &Proc,
    made: &mut Sequent,
) -> Result<(), AllocError>
    ensures { OnOk result (made.new ≡ known_in decls.now proc.now) }
{
    let vars = vars_in(alloc, decls, proc)?;
    put_sequent(made, nothing_known(alloc, vars, Items::new(alloc)));
    Ok(())
}

/// Writes the variables of a procedure and a message over a sequent.
pub fn put_known_with(
    alloc: Global,
    decls: &Decls,
    proc: &Proc,
    label: u8,
    tag: u8,
    msg: u32,
    made: &mut Sequent,
) -> Result<(), AllocError>
    ensures { OnOk result (made.new ≡ known_with decls.now proc.now label tag msg) }
{
    let vars = vars_in(alloc, decls, proc)?;
    let messages = Items::from_slice(alloc, &[(msg, label, tag)])?;
    put_sequent(made, nothing_known(alloc, vars, messages));
    Ok(())
}

/// Writes the variables of a procedure and what a call returned over a sequent.
pub fn put_known_after(
    alloc: Global,
    decls: &Decls,
    proc: &Proc,
    returned: u32,
    made: &mut Sequent,
) -> Result<(), AllocError>
    ensures { OnOk result (made.new ≡ nothing_but (vars_after decls.now proc.now returned) [] None) }
{
    let vars = vars_with(alloc, decls, proc, returned)?;
    put_sequent(made, nothing_known(alloc, vars, Items::new(alloc)));
    Ok(())
}

/// Adds the variables of a procedure at a point before those of a sequent.
pub fn put_beside(
    alloc: Global,
    decls: &Decls,
    proc: &Proc,
    point: u32,
    made: &mut Sequent,
) -> Result<(), AllocError>
    ensures { OnOk result (made.new ≡ with_vars_before (vars_at decls.now proc.now point) made.old) }
{
    let mut vars = vars_at_point(alloc, decls, proc, point)?;
    add_params(&mut vars, made.vars.as_slice())?;
    put_vars(made, vars);
    Ok(())
}

// ---- hypotheses

/// Adds the facts of a procedure's world.
pub fn add_facts_in(
    alloc: Global,
    facts: &mut Items<Hypothesis>,
    decls: &Decls,
    proc: &Proc,
) -> Result<(), AllocError>
    requires { length decls.now.invariants ≤ 255 }
    ensures { OnOk result (facts.new ≡ facts.old ++ facts_in decls.now proc.now) }
{
    let world = extent_of(decls, proc.world);
    add_facts(alloc, facts, decls, decls.invariants.len() as u8, &world)
}

/// Adds the facts of a procedure's world, and a formula that holds there.
pub fn add_facts_at(
    alloc: Global,
    facts: &mut Items<Hypothesis>,
    decls: &Decls,
    proc: &Proc,
    formula: &Formula,
) -> Result<(), AllocError>
    requires { length decls.now.invariants ≤ 255 }
    ensures { OnOk result (facts.new ≡ facts.old ++ facts_at decls.now proc.now formula.now) }
{
    add_facts_in(alloc, facts, decls, proc)?;
    add_copy(alloc, facts, PRE, formula)
}

/// Adds a formula as a hypothesis.
pub fn add_copy(
    alloc: Global,
    facts: &mut Items<Hypothesis>,
    name: u32,
    formula: &Formula,
) -> Result<(), AllocError>
    ensures { OnOk result (facts.new ≡ facts.old ++ called name formula.now ∷ []) }
{
    let copy = copy_formula(alloc, formula)?;
    add_fact(facts, name, copy)
}

/// Writes the facts of a procedure's world, and a formula that holds there, over the hypotheses of a sequent.
pub fn hold(
    alloc: Global,
    decls: &Decls,
    proc: &Proc,
    formula: &Formula,
    made: &mut Sequent,
) -> Result<(), AllocError>
    requires { length decls.now.invariants ≤ 255 }
    ensures { OnOk result (made.new ≡ record made.old { facts = facts_at decls.now proc.now formula.now }) }
{
    let mut facts = Items::new(alloc);
    let added = add_facts_at(alloc, &mut facts, decls, proc, formula);
    put_facts(made, facts);
    added
}
