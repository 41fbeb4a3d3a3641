//! What makes a send allowed, and what a call has to meet.

ghost use Rattle.std.specs.Prelude.{◌≡◌, ◌++◌, ◌∷◌, [], None, filter, unwrap_or, IfOk, OnOk};
ghost use Rattle.dl_term.specs.declared.syntax.Lab.TheVariants.{At};
ghost use Rattle.dl_model.specs.Lookup.{arg_names, arg_sorts, world_at};
ghost use Rattle.dl_sequent.specs.Bounds.{in_sort_formula};
ghost use Rattle.dl_inv.specs.Joined.{all_of};
ghost use Rattle.dl_inv.specs.Code.{hooks_put, says_something};
ghost use Rattle.dl_inv.specs.Steps.{all_hooks as hooks_of_world};
ghost use Rattle.dl_triples.specs.Obligations.{all_in_sort, allowed as is_allowed, put, send_rule, sending as sending_of};
ghost use Rattle.dl_triples.specs.Built.{allowed_parts, entered_parts};

use crate::known::ME;
use dl_inv::{
    Sending, add_part, add_send_parts, all_hooks, extent_of, in_sort, join, params_of, step_terms,
};
use dl_model::{Decls, Instances, Proc, Sequent};
use dl_sequent::node_sort;
use dl_subst::put_terms_within;
use dl_term::{Formula, Lab, Sort, Term, copy_formula, copy_term};
use dl_wp::{SendStep, tag_of};
use sqlite_items::Items;
use std::alloc::{AllocError, Global};

// ---- the send

/// Adds copies of terms.
pub fn add_terms(alloc: Global, copies: &mut Items<Term>, terms: &[Term]) -> Result<(), AllocError>
    ensures { OnOk result (copies.new ≡ copies.old ++ terms.now) }
{
    for term in terms {
        copies.push(copy_term(alloc, term)?)?;
    }
    Ok(())
}

fn copies_of(alloc: Global, terms: &[Term]) -> Result<Items<Term>, AllocError>
    ensures { IfOk result (λ copies. copies ≡ terms.now) }
{
    let mut copies = Items::new(alloc);
    add_terms(alloc, &mut copies, terms)?;
    Ok(copies)
}

/// The send of a procedure, by the node itself.
pub fn sending(
    alloc: Global,
    label: u8,
    tag: u8,
    to: &Term,
    args: &[Term],
) -> Result<SendStep, AllocError>
    ensures { IfOk result (λ step. step ≡ sending_of label tag to.now args.now) }
{
    let args = copies_of(alloc, args)?;
    sending_with(alloc, label, tag, to, args)
}

fn sending_with(
    alloc: Global,
    label: u8,
    tag: u8,
    to: &Term,
    args: Items<Term>,
) -> Result<SendStep, AllocError>
    ensures { IfOk result (λ step. step ≡ sending_of label tag to.now args) }
{
    match copy_term(alloc, to) {
        Ok(to) => Ok(SendStep {
            label: Lab::At(label),
            tag,
            sender: Term::Var(ME),
            to,
            args,
        }),
        Err(error) => {
            drop(args);
            Err(error)
        }
    }
}

// ---- sorts

fn add_in_sort(
    alloc: Global,
    parts: &mut Items<Formula>,
    inst: &Instances,
    known: &Sequent,
    term: &Term,
    sort: Sort,
) -> Result<(), AllocError>
    ensures { OnOk result (parts.new ≡ parts.old ++ filter says_something (in_sort_formula inst.now known.now term.now sort ∷ [])) }
{
    let formula = in_sort(alloc, inst, known, term, sort)?;
    add_part(parts, formula)
}

// Adds that each term is in the sort of its parameter.
fn add_sorts(
    alloc: Global,
    parts: &mut Items<Formula>,
    inst: &Instances,
    known: &Sequent,
    terms: &[Term],
    params: &[(u32, Sort)],
) -> Result<(), AllocError>
    ensures { OnOk result (parts.new ≡ parts.old ++ filter says_something (all_in_sort inst.now known.now terms.now (arg_sorts params.now))) }
{
    let Some((term, terms)) = terms.split_first() else {
        return Ok(());
    };
    let Some((param, params)) = params.split_first() else {
        return Ok(());
    };
    add_in_sort(alloc, parts, inst, known, term, param.1)?;
    add_sorts(alloc, parts, inst, known, terms, params)
}

// ---- hooks

fn hooks_in(
    alloc: Global,
    decls: &Decls,
    world: u8,
    label: u8,
    tag: u8,
    terms: &[Term],
) -> Result<Formula, AllocError>
    ensures { IfOk result (λ made. made ≡ all_of (hooks_put decls.now label tag terms.now (world_at decls.now world).hooks)) }
{
    let extent = extent_of(decls, world);
    let send = Sending {
        label,
        tag,
        terms: &*terms,
    };
    all_hooks(alloc, decls, &send, extent.hooks)
}

/// The formula that says that the send meets the hooks of the procedure's world.
pub fn hooks_met(
    alloc: Global,
    decls: &Decls,
    proc: &Proc,
    label: u8,
    tag: u8,
    step: &SendStep,
) -> Result<Formula, AllocError>
    requires { step.now.label ≡ At label }
    ensures { IfOk result (λ made. made ≡ hooks_of_world decls.now (world_at decls.now proc.now.world) label tag step.now) }
{
    let terms = step_terms(alloc, &step.sender, &step.to, step.args.as_slice())?;
    let met = hooks_in(alloc, decls, proc.world, label, tag, terms.as_slice());
    drop(terms);
    met
}

fn add_hooks_met(
    alloc: Global,
    parts: &mut Items<Formula>,
    decls: &Decls,
    proc: &Proc,
    label: u8,
    tag: u8,
    step: &SendStep,
) -> Result<(), AllocError>
    requires { step.now.label ≡ At label }
    ensures { OnOk result (parts.new ≡ parts.old ++ filter says_something (hooks_of_world decls.now (world_at decls.now proc.now.world) label tag step.now ∷ [])) }
{
    let met = hooks_met(alloc, decls, proc, label, tag, step)?;
    add_part(parts, met)
}

// ---- what makes a send allowed

// Adds that the guard holds, and that what is updated is in its sort.
fn add_rule(
    alloc: Global,
    parts: &mut Items<Formula>,
    decls: &Decls,
    known: &Sequent,
    label: u8,
    tag: u8,
    step: &SendStep,
) -> Result<(), AllocError>
    requires label { step.now.label ≡ At label }
    requires tag { step.now.tag ≡ tag }
    requires own { known.now.own ≡ None }
    ensures { OnOk result (parts.new ≡ parts.old ++ filter says_something (send_rule decls.now known.now label tag step.now)) }
{
    add_send_parts(alloc, parts, &decls.inst, known, step)
}

fn add_allowed(
    alloc: Global,
    parts: &mut Items<Formula>,
    decls: &Decls,
    proc: &Proc,
    known: &Sequent,
    label: u8,
    tag: u8,
    step: &SendStep,
) -> Result<(), AllocError>
    requires label { step.now.label ≡ At label }
    requires tag { step.now.tag ≡ tag }
    requires own { known.now.own ≡ None }
    ensures { OnOk result (parts.new ≡ parts.old ++ filter says_something (allowed_parts decls.now (world_at decls.now proc.now.world) known.now label tag step.now)) }
{
    let params = params_of(tag_of(&decls.inst, None, Lab::At(label), tag));
    let node = node_sort(&decls.inst);
    add_in_sort(alloc, parts, &decls.inst, known, &step.to, node)?;
    add_sorts(
        alloc,
        parts,
        &decls.inst,
        known,
        step.args.as_slice(),
        params,
    )?;
    add_rule(alloc, parts, decls, known, label, tag, step)?;
    add_hooks_met(alloc, parts, decls, proc, label, tag, step)
}

/// The formula that says that the send is allowed.
pub fn allowed(
    alloc: Global,
    decls: &Decls,
    proc: &Proc,
    known: &Sequent,
    label: u8,
    tag: u8,
    step: &SendStep,
) -> Result<Formula, AllocError>
    requires label { step.now.label ≡ At label }
    requires tag { step.now.tag ≡ tag }
    requires own { known.now.own ≡ None }
    ensures { IfOk result (λ made. made ≡ is_allowed decls.now (world_at decls.now proc.now.world) known.now label tag step.now) }
{
    let mut parts = Items::new(alloc);
    add_allowed(alloc, &mut parts, decls, proc, known, label, tag, step)?;
    join(alloc, &mut parts)
}

// ---- what a call has to meet

/// Adds the names of parameters.
pub fn add_names(names: &mut Items<u32>, params: &[(u32, Sort)]) -> Result<(), AllocError>
    ensures { OnOk result (names.new ≡ names.old ++ arg_names params.now) }
{
    for param in params {
        names.push(param.0)?;
    }
    Ok(())
}

/// The formula with these terms for these names, where it is not too large.
pub fn put_for(
    alloc: Global,
    formula: &Formula,
    names: &[u32],
    terms: &[Term],
) -> Result<Formula, AllocError>
    ensures { IfOk result (λ made. made ≡ put formula.now names.now terms.now) }
{
    match put_terms_within(alloc, formula, names, terms, Lab::Own) {
        Ok(made) => Ok(made),
        Err(_) => Err(AllocError),
    }
}

fn add_precondition(
    alloc: Global,
    parts: &mut Items<Formula>,
    callee: &Proc,
    args: &[Term],
) -> Result<(), AllocError>
    ensures { OnOk result (parts.new ≡ parts.old ++ filter says_something (put callee.now.pre (arg_names callee.now.params) args.now ∷ [])) }
{
    let mut names = Items::new(alloc);
    add_names(&mut names, callee.params.as_slice())?;
    let formula = put_for(alloc, &callee.pre, names.as_slice(), args)?;
    add_part(parts, formula)
}

fn add_frame(alloc: Global, parts: &mut Items<Formula>, frame: &Formula) -> Result<(), AllocError>
    ensures { OnOk result (parts.new ≡ parts.old ++ filter says_something (frame.now ∷ [])) }
{
    let formula = copy_formula(alloc, frame)?;
    add_part(parts, formula)
}

fn add_entered(
    alloc: Global,
    parts: &mut Items<Formula>,
    decls: &Decls,
    known: &Sequent,
    frame: &Formula,
    callee: &Proc,
    args: &[Term],
) -> Result<(), AllocError>
    ensures { OnOk result (parts.new ≡ parts.old ++ filter says_something (entered_parts decls.now known.now frame.now callee.now args.now)) }
{
    let params = callee.params.as_slice();
    add_sorts(alloc, parts, &decls.inst, known, args, params)?;
    add_precondition(alloc, parts, callee, args)?;
    add_frame(alloc, parts, frame)
}

/// The formula that says that the arguments of a call are in their sorts, that the precondition of the procedure that is
/// called holds, and that what the caller holds on to does.
pub fn entered(
    alloc: Global,
    decls: &Decls,
    known: &Sequent,
    frame: &Formula,
    callee: &Proc,
    args: &[Term],
) -> Result<Formula, AllocError>
    ensures { IfOk result (λ made. made ≡ all_of (entered_parts decls.now known.now frame.now callee.now args.now)) }
{
    let mut parts = Items::new(alloc);
    add_entered(alloc, &mut parts, decls, known, frame, callee, args)?;
    join(alloc, &mut parts)
}
