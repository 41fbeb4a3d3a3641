//! Whether protocols are formed.

ghost use Rattle.std.specs.Prelude.{◌≡◌, ◌∷◌, [], IfOk, is_some};
ghost use Rattle.std.specs.List.{list_all};
ghost use Rattle.dl_term.specs.Measures.{IsNarrow};
ghost use Rattle.dl_model.specs.Lookup.{arg_names};
ghost use Rattle.dl_model.specs.Words.{me_word, to_word, from_word};
ghost use Rattle.dl_formed.specs.Scoped.{scope_of};
ghost use Rattle.dl_formed.specs.Decided.{are_distinct, are_names, field_names, tag_names, updated_fields, own_scope, is_sort, is_index_of_step, update_is_formed, transition_is_formed, receive_is_formed, has_sort, are_parameters, tag_is_formed, is_sorted_at, first_is_sorted, field_is_formed, coherence_is_formed, has_few_parts, protocol_is_formed};

use crate::collect::{
    fields_of_updates, names_of_args, names_of_fields, names_of_tags, variables_of,
};
use crate::formulas;
use crate::names::{are_distinct, are_names};
use crate::nowhere::Nowhere;
use crate::scope::{Known, Labels};
use crate::terms::{self, ME};
use dl_model::{FieldDecl, Protocol, Tag, Transition, Update};
use dl_term::{Env, Formula, Lab, Sort, Term, value};
use std::alloc::{AllocError, Global};

// The numbers of the names of `to` and `from`.
pub(crate) const TO: u32 = 5;

const FROM: u32 = 6;

// The most fields, or tags, of a protocol, and the most arguments of a tag.
const MOST_PARTS: usize = 16;

const MOST_ARGS: usize = 8;

// Whether the protocol is formed, in a file of so many nodes.
pub(crate) fn is_formed(alloc: Global, protocol: &Protocol, nodes: u32) -> Result<bool, AllocError>
    ensures { IfOk result (λ formed. formed ≡ protocol_is_formed nodes protocol.now) }
{
    if !has_few_parts(protocol) {
        return Ok(false);
    }
    if !fields_have_names(alloc, protocol.fields.as_slice())? {
        return Ok(false);
    }
    if !tags_have_names(alloc, protocol.tags.as_slice())? {
        return Ok(false);
    }
    if !fields_are_formed(protocol.fields.as_slice(), nodes) {
        return Ok(false);
    }
    if !tags_are_formed(alloc, protocol.tags.as_slice(), protocol)? {
        return Ok(false);
    }
    Ok(coherence_is_formed(&protocol.coherence, protocol))
}

fn has_few_parts(protocol: &Protocol) -> bool
    ensures { result ≡ has_few_parts protocol.now }
{
    protocol.fields.len() <= MOST_PARTS && protocol.tags.len() <= MOST_PARTS
}

fn fields_have_names(alloc: Global, fields: &[FieldDecl]) -> Result<bool, AllocError>
    ensures { IfOk result (λ good. good ≡ are_names (field_names fields.now)) }
{
    let names = names_of_fields(alloc, fields)?;
    let good = are_names(names.as_slice());
    drop(names);
    Ok(good)
}

fn tags_have_names(alloc: Global, tags: &[Tag]) -> Result<bool, AllocError>
    ensures { IfOk result (λ good. good ≡ are_names (tag_names tags.now)) }
{
    let names = names_of_tags(alloc, tags)?;
    let good = are_names(names.as_slice());
    drop(names);
    Ok(good)
}

// ---- fields

fn fields_are_formed(fields: &[FieldDecl], nodes: u32) -> bool
    ensures { result ≡ list_all (field_is_formed nodes) fields.now }
{
    for field in fields {
        if !field_is_formed(field, nodes) {
            return false;
        }
    }
    true
}

fn field_is_formed(field: &FieldDecl, nodes: u32) -> bool
    ensures { result ≡ field_is_formed nodes field.now }
{
    is_sort(field.sort)
        && terms::is_term(&field.first, &Known::Base(Labels::Nowhere, &[ME]))
        && first_is_sorted(field, nodes)
}

fn is_sort(sort: Sort) -> bool
    ensures { result ≡ is_sort sort }
{
    terms::is_in_range(sort.low) && terms::is_in_range(sort.high) && sort.low <= 0 && 0 <= sort.high
}

// Whether the first value is in the field's sort at each node.
fn first_is_sorted(field: &FieldDecl, nodes: u32) -> bool
    requires { IsNarrow field.now.first }
    ensures { result ≡ first_is_sorted nodes field.now }
{
    for node in 0..nodes {
        if !is_sorted_at(field, node) {
            return false;
        }
    }
    true
}

fn is_sorted_at(field: &FieldDecl, node: u32) -> bool
    requires { IsNarrow field.now.first }
    ensures { result ≡ is_sorted_at field.now node }
{
    let own = Env::Empty(0);
    let me = Env::Number(&own, ME, i64::from(node));
    let first = value(&field.first, &me, &Nowhere);
    i128::from(field.sort.low) <= first && first <= i128::from(field.sort.high)
}

// ---- tags

fn tags_are_formed(alloc: Global, tags: &[Tag], protocol: &Protocol) -> Result<bool, AllocError>
    ensures { IfOk result (λ formed. formed ≡ list_all (tag_is_formed protocol.now) tags.now) }
{
    for tag in tags {
        if !tag_is_formed(alloc, tag, protocol)? {
            return Ok(false);
        }
    }
    Ok(true)
}

fn tag_is_formed(alloc: Global, tag: &Tag, protocol: &Protocol) -> Result<bool, AllocError>
    ensures { IfOk result (λ formed. formed ≡ tag_is_formed protocol.now tag.now) }
{
    if !are_parameters(tag.args.as_slice()) {
        return Ok(false);
    }
    if !args_have_names(alloc, tag.args.as_slice())? {
        return Ok(false);
    }
    if !step_is_formed(alloc, &tag.send, TO, tag, protocol)? {
        return Ok(false);
    }
    receive_is_formed(alloc, tag, protocol)
}

pub(crate) fn are_parameters(params: &[(u32, Sort)]) -> bool
    ensures { result ≡ are_parameters params.now }
{
    params.len() <= MOST_ARGS && have_sorts(params)
}

fn have_sorts(params: &[(u32, Sort)]) -> bool
    ensures { result ≡ list_all has_sort params.now }
{
    for param in params {
        if !is_sort(param.1) {
            return false;
        }
    }
    true
}

fn args_have_names(alloc: Global, args: &[(u32, Sort)]) -> Result<bool, AllocError>
    ensures { IfOk result (λ good. good ≡ are_names (arg_names args.now)) }
{
    let names = names_of_args(alloc, args)?;
    let good = are_names(names.as_slice());
    drop(names);
    Ok(good)
}

// Whether a step of the tag is formed, where `other` is the word of the other node.
fn step_is_formed(
    alloc: Global,
    step: &Transition,
    other: u32,
    tag: &Tag,
    protocol: &Protocol,
) -> Result<bool, AllocError>
    ensures { IfOk result (λ formed. formed ≡ transition_is_formed (own_scope protocol.now (me_word ∷ other ∷ arg_names tag.now.args)) step.now) }
{
    let variables = variables_of(alloc, ME, other, tag.args.as_slice())?;
    let formed = transition_is_formed(
        alloc,
        step,
        &Known::Base(Labels::Own(protocol), variables.as_slice()),
    );
    drop(variables);
    formed
}

fn receive_is_formed(alloc: Global, tag: &Tag, protocol: &Protocol) -> Result<bool, AllocError>
    ensures { IfOk result (λ formed. formed ≡ receive_is_formed (own_scope protocol.now (me_word ∷ from_word ∷ arg_names tag.now.args)) tag.now.receive) }
{
    match &tag.receive {
        Some(step) => step_is_formed(alloc, step, FROM, tag, protocol),
        None => Ok(true),
    }
}

fn transition_is_formed(alloc: Global, step: &Transition, known: &Known) -> Result<bool, AllocError>
    ensures { IfOk result (λ formed. formed ≡ transition_is_formed (scope_of known.now) step.now) }
{
    if !formulas::is_formula_of_step(&step.guard, known) {
        return Ok(false);
    }
    if !updates_are_formed(step.updates.as_slice(), known) {
        return Ok(false);
    }
    fields_are_distinct(alloc, step.updates.as_slice())
}

fn updates_are_formed(updates: &[Update], known: &Known) -> bool
    ensures { result ≡ list_all (update_is_formed (scope_of known.now)) updates.now }
{
    for update in updates {
        if !update_is_formed(update, known) {
            return false;
        }
    }
    true
}

fn update_is_formed(update: &Update, known: &Known) -> bool
    ensures { result ≡ update_is_formed (scope_of known.now) update.now }
{
    known.has_field(Lab::Own, update.field, has_index(update))
        && is_index_of_step(&update.index, known)
        && terms::is_term_of_step(&update.value, known)
}

fn has_index(update: &Update) -> bool
    ensures { result ≡ is_some update.now.index }
{
    match &update.index {
        Some(_) => true,
        None => false,
    }
}

fn is_index_of_step(index: &Option<Term>, known: &Known) -> bool
    ensures { result ≡ is_index_of_step (scope_of known.now) index.now }
{
    match index {
        Some(index) => terms::is_term_of_step(index, known),
        None => true,
    }
}

// Whether no field is updated twice.
fn fields_are_distinct(alloc: Global, updates: &[Update]) -> Result<bool, AllocError>
    ensures { IfOk result (λ distinct. distinct ≡ are_distinct (updated_fields updates.now)) }
{
    let fields = fields_of_updates(alloc, updates)?;
    let distinct = are_distinct(fields.as_slice());
    drop(fields);
    Ok(distinct)
}

// ---- the coherence

fn coherence_is_formed(coherence: &Option<Formula>, protocol: &Protocol) -> bool
    ensures { result ≡ coherence_is_formed protocol.now coherence.now }
{
    match coherence {
        Some(formula) => formulas::is_formula(formula, &Known::Base(Labels::Own(protocol), &[])),
        None => true,
    }
}
