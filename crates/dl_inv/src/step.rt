//! The step of an obligation: its terms, and its variables and messages.

ghost use Rattle.std.specs.Prelude.{◌≡◌, ◌++◌, ◌∷◌, [], map, drop, unwrap_or, IfOk, OnOk};
ghost use Rattle.std.specs.Option.{option_copied};
ghost use Rattle.dl_term.specs.declared.syntax.Term.{Var};
ghost use Rattle.dl_model.specs.Words.{me_word};
ghost use Rattle.dl_model.specs.Lookup.{arg_sorts, no_tag};
ghost use Rattle.dl_sequent.specs.Bounds.{node_sort as nodes_sort};
ghost use Rattle.dl_subst.specs.Substitution.{terms_put};
ghost use Rattle.dl_inv.specs.Steps.{name_at as name_among, send_by as sending, receive_by as receiving};
ghost use Rattle.dl_inv.specs.Obligations.{known, with_sorts, number_of_label as label_numbered, send_known as known_of_send, receive_known as known_of_receive};

use dl_model::{Instances, Sequent, Tag};
use dl_sequent::node_sort;
use dl_subst::put_terms;
use dl_term::{Formula, Lab, Sort, Term, copy_term};
use dl_wp::{ReceiveStep, SendStep, tag_of};
use sqlite_items::{Items, at};
use std::alloc::{AllocError, Global};

// The name of the node itself.
pub(crate) const ME: u32 = 4;

// ---- the step by its names

// The name at a place, or 0 where there are fewer names.
fn name_at(names: &[u32], place: usize) -> u32
    ensures { result ≡ name_among names.now place }
{
    match at(names, place) {
        Some(name) => *name,
        None => 0,
    }
}

// The names after the first two.
fn after_two(names: &[u32]) -> &[u32]
    ensures { result.now ≡ drop 2 names.now }
{
    &names[names.len().min(2)..]
}

fn variables(alloc: Global, names: &[u32]) -> Result<Items<Term>, AllocError>
    ensures { IfOk result (λ terms. terms ≡ map (λ x. Var x) names.now) }
{
    let mut terms = Items::new(alloc);
    for name in names {
        terms.push(Term::Var(*name))?;
    }
    Ok(terms)
}

/// The send by the first name to the second, with the others as arguments.
pub fn send_by(alloc: Global, label: Lab, tag: u8, names: &[u32]) -> Result<SendStep, AllocError>
    ensures { IfOk result (λ step. step ≡ sending label tag names.now) }
{
    let args = variables(alloc, after_two(names))?;
    Ok(SendStep {
        label,
        tag,
        sender: Term::Var(name_at(names, 0)),
        to: Term::Var(name_at(names, 1)),
        args,
    })
}

/// The receive by the first name of the message of the second.
pub fn receive_by(label: Lab, tag: u8, names: &[u32]) -> ReceiveStep
    ensures { result ≡ receiving label tag names.now }
{
    ReceiveStep {
        label,
        tag,
        receiver: Term::Var(name_at(names, 0)),
        msg: name_at(names, 1),
    }
}

// ---- its variables and messages

/// The arguments of a tag, none where there is no tag.
pub fn params_of(tag: Option<&Tag>) -> &[(u32, Sort)]
    ensures { result.now ≡ (unwrap_or (option_copied tag.entry) no_tag).args }
{
    match tag {
        Some(tag) => tag.args.as_slice(),
        None => &[],
    }
}

// The sorts of sender, addressee and arguments.
fn send_sorts(alloc: Global, node: Sort, params: &[(u32, Sort)]) -> Result<Items<Sort>, AllocError>
    ensures { IfOk result (λ sorts. sorts ≡ node ∷ node ∷ arg_sorts params.now) }
{
    let mut sorts = Items::new(alloc);
    sorts.push(node)?;
    sorts.push(node)?;
    for param in params {
        sorts.push(param.1)?;
    }
    Ok(sorts)
}

// Adds a variable for each name that has a sort.
fn add_vars(names: &[u32], sorts: &[Sort], vars: &mut Items<(u32, Sort)>) -> Result<(), AllocError>
    ensures { OnOk result (vars.new ≡ vars.old ++ with_sorts names.now sorts.now) }
{
    let Some((name, names)) = names.split_first() else {
        return Ok(());
    };
    let Some((sort, sorts)) = sorts.split_first() else {
        return Ok(());
    };
    vars.push((*name, *sort))?;
    add_vars(names, sorts, vars)
}

/// The variables of a send, with no hypothesis yet.
pub fn send_known(
    alloc: Global,
    inst: &Instances,
    own: Option<u8>,
    label: Lab,
    tag: u8,
    names: &[u32],
) -> Result<Sequent, AllocError>
    ensures { IfOk result (λ made. made ≡ known_of_send inst.now own label tag names.now) }
{
    let params = params_of(tag_of(inst, own, label, tag));
    let sorts = send_sorts(alloc, node_sort(inst), params)?;
    let mut vars = Items::new(alloc);
    add_vars(names, sorts.as_slice(), &mut vars)?;
    Ok(Sequent {
        vars,
        messages: Items::new(alloc),
        facts: Items::new(alloc),
        goal: Formula::True,
        own,
    })
}

// The label of a sequent's message: 255 stands for `self`.
fn number_of_label(label: Lab) -> u8
    ensures { result ≡ label_numbered label }
{
    match label {
        Lab::Own => u8::MAX,
        Lab::At(label) => label,
    }
}

/// The variable and the message of a receive, with no hypothesis yet.
pub fn receive_known(
    alloc: Global,
    inst: &Instances,
    own: Option<u8>,
    label: Lab,
    tag: u8,
    names: &[u32],
) -> Result<Sequent, AllocError>
    ensures { IfOk result (λ made. made ≡ known_of_receive inst.now own label tag names.now) }
{
    let vars = Items::from_slice(alloc, &[(name_at(names, 0), node_sort(inst))])?;
    let message = (name_at(names, 1), number_of_label(label), tag);
    let messages = Items::from_slice(alloc, &[message])?;
    Ok(Sequent {
        vars,
        messages,
        facts: Items::new(alloc),
        goal: Formula::True,
        own,
    })
}

// ---- what a formula of the protocol says in it

/// The terms of a step: its node, the other node, and the arguments.
pub fn step_terms(
    alloc: Global,
    node: &Term,
    other: &Term,
    args: &[Term],
) -> Result<Items<Term>, AllocError>
    ensures { IfOk result (λ terms. terms ≡ node.now ∷ other.now ∷ args.now) }
{
    let mut terms = Items::new(alloc);
    terms.push(copy_term(alloc, node)?)?;
    terms.push(copy_term(alloc, other)?)?;
    for arg in args {
        terms.push(copy_term(alloc, arg)?)?;
    }
    Ok(terms)
}

// The names that these terms stand for.
fn step_names(alloc: Global, word: u32, args: &[u32]) -> Result<Items<u32>, AllocError>
    ensures { IfOk result (λ names. names ≡ me_word ∷ word ∷ args.now) }
{
    let mut names = Items::new(alloc);
    names.push(ME)?;
    names.push(word)?;
    for arg in args {
        names.push(*arg)?;
    }
    Ok(names)
}

/// A guard or a hook in a step at this label, which has the terms of [`step_terms`]: `word` is the name of the other node,
/// and `args` are those of the arguments.
pub(crate) fn in_step(
    alloc: Global,
    label: Lab,
    word: u32,
    args: &[u32],
    terms: &[Term],
    formula: &Formula,
) -> Result<Formula, AllocError>
    ensures { IfOk result (λ made. made ≡ terms_put formula.now (me_word ∷ word ∷ args.now) terms.now label) }
{
    let names = step_names(alloc, word, args)?;
    put_terms(alloc, formula, names.as_slice(), terms, label)
}
