//! The rules of names and sorts that lists break as wholes.

ghost use Rattle.std.specs.Prelude.{◌≡◌, ◌++◌, false, IfOk, OnOk};
ghost use Rattle.dl_forms.specs.Context.{look_up};
ghost use Rattle.dl_notation.specs.Environment.{row_of};
ghost use Rattle.dl_forms.specs.Judge.{text_of};
ghost use Rattle.dl_notation.specs.Obligations.{texts_of, obligation_name, is_proved};
ghost use Rattle.dl_notation.specs.Rules.{call_misses_arguments, is_field, is_full, is_full_protocol, is_no_sort, is_other_count, is_range, is_row, list_rule_of_names, misses_arguments, parameters_of, program_misses_constants, read_misses_index, send_misses_arguments, update_misses_index};
ghost use Rattle.dl_scope.specs.Walked.{environment, claimed, is_obligation};

use crate::rules::{has, rule_if};
use dl_notation::ListRole;
use dl_scope::{Text, Walk, arguments_of, look_up, number_in, procedure_named, row_of, text_of};
use dl_tree::Tree;
use std::alloc::{AllocError, Global};

/// Whether there are as many things of an item's kind as there may be.
fn is_full(walk: &Walk, word: &Text) -> bool
    ensures { result ≡ is_full (environment walk.now) word.now }
{
    (word.is(b"protocol") && has(64, walk.protocols.len()))
        || (word.is(b"label") && has(16, walk.labels.len()))
        || (word.is(b"hook") && has(64, walk.hooks.len()))
        || (word.is(b"world") && has(64, walk.worlds.len()))
        || (word.is(b"invariant") && has(64, walk.invariants.len()))
        || (word.is(b"proc") && has(64, walk.procedures.len()))
}

/// Whether the item's protocol has as many things of a part's kind as it may have.
fn is_full_protocol(walk: &Walk, word: &Text) -> bool
    ensures { result ≡ is_full_protocol (environment walk.now).own word.now }
{
    let own = &walk.scope.own;
    ((word.is(b"field") || word.is(b"row")) && has(16, own.fields.len()))
        || (word.is(b"tag") && has(16, own.tags.len()))
}

/// Whether the interval holds 0.
fn is_range(parts: &[Tree]) -> bool
    ensures { result ≡ is_range parts.now }
{
    let [low, high] = parts else {
        return false;
    };
    let Tree::Num { value: low, .. } = low else {
        return false;
    };
    let Tree::Num { value: high, .. } = high else {
        return false;
    };
    *low <= 0 && 0 <= *high
}

/// Whether a sort has no value, or not the value 0.
fn is_no_sort(word: &Text, parts: &[Tree]) -> bool
    ensures { result ≡ is_no_sort word.now parts.now }
{
    (word.is(b"range") && !is_range(parts)) || (word.is(b"enum") && !has(1, parts.len()))
}

fn is_row(row: Option<bool>) -> bool
    ensures { result ≡ is_row row }
{
    match row {
        Some(row) => row,
        None => false,
    }
}

fn is_field(row: Option<bool>) -> bool
    ensures { result ≡ is_field row }
{
    match row {
        Some(row) => !row,
        None => false,
    }
}

/// Whether a field of the item's protocol is a row, where it is one of its fields.
fn own_row<'a>(walk: &Walk<'a>, field: &Text<'a>) -> Option<bool>
    ensures { result ≡ look_up field.now (environment walk.now).own.fields }
{
    let own = &walk.scope.own;
    look_up(field, own.fields.as_slice()).copied()
}

/// Whether an update is one of a row without an index, or of a field with one.
fn update_misses_index<'a>(walk: &Walk<'a>, parts: &'a [Tree]) -> bool
    ensures { result ≡ update_misses_index (environment walk.now) parts.now }
{
    match parts {
        [field, _] => is_row(own_row(walk, &text_of(field))),
        [field, _, _] => is_field(own_row(walk, &text_of(field))),
        _ => false,
    }
}

/// Whether the count, where one is wanted, is another one.
pub(crate) fn is_other_count(wanted: Option<usize>, count: usize) -> bool
    ensures { result ≡ is_other_count wanted count }
{
    match wanted {
        Some(wanted) => wanted != count,
        None => false,
    }
}

/// The number of a procedure's parameters.
fn parameters_of<'a>(walk: &Walk<'a>, procedure: &Text<'a>) -> Option<usize>
    ensures { result ≡ parameters_of (environment walk.now) procedure.now }
{
    match procedure_named(walk, procedure) {
        Some(procedure) => Some(procedure.sorts.len()),
        None => None,
    }
}

fn send_misses_arguments<'a>(walk: &Walk<'a>, parts: &'a [Tree]) -> bool
    ensures { result ≡ send_misses_arguments (environment walk.now) parts.now }
{
    match parts {
        [_, label, tag, _, args @ ..] => {
            let wanted = arguments_of(walk, &text_of(label), &text_of(tag));
            is_other_count(wanted, args.len())
        }
        _ => false,
    }
}

fn call_misses_arguments<'a>(walk: &Walk<'a>, parts: &'a [Tree]) -> bool
    ensures { result ≡ call_misses_arguments (environment walk.now) parts.now }
{
    match parts {
        [_, _, _, callee, args @ ..] => {
            is_other_count(parameters_of(walk, &text_of(callee)), args.len())
        }
        _ => false,
    }
}

/// Whether a label's field is a row.
fn is_row_of<'a>(walk: &Walk<'a>, label: &'a Tree, field: &'a Tree) -> Option<bool>
    ensures { result ≡ row_of (environment walk.now) (text_of label.now) (text_of field.now) }
{
    row_of(walk, &text_of(label), &text_of(field))
}

fn read_misses_index<'a>(walk: &Walk<'a>, parts: &'a [Tree]) -> bool
    ensures { result ≡ read_misses_index (environment walk.now) parts.now }
{
    match parts {
        [_, _, label, field] => is_row(is_row_of(walk, label, field)),
        [_, _, label, field, _] => is_field(is_row_of(walk, label, field)),
        _ => false,
    }
}

/// Whether a command has a wrong number of arguments.
fn misses_arguments<'a>(walk: &Walk<'a>, word: &Text, parts: &'a [Tree]) -> bool
    ensures { result ≡ misses_arguments (environment walk.now) word.now parts.now }
{
    (word.is(b"send") && send_misses_arguments(walk, parts))
        || (word.is(b"call") && call_misses_arguments(walk, parts))
        || (word.is(b"read") && read_misses_index(walk, parts))
}

fn program_misses_constants<'a>(walk: &Walk<'a>, parts: &'a [Tree]) -> bool
    ensures { result ≡ program_misses_constants (environment walk.now) parts.now }
{
    match parts {
        [_, procedure, constants @ ..] => {
            is_other_count(parameters_of(walk, &text_of(procedure)), constants.len())
        }
        _ => false,
    }
}

/// Adds the texts of the parts behind those that are there. Its only error is want of memory.
pub(crate) fn add_texts<'a>(texts: &mut Vec<Text<'a>>, parts: &'a [Tree]) -> Result<(), AllocError>
    ensures { OnOk result (texts.new.items ≡ texts.old.items ++ texts_of parts.now) }
{
    for part in parts {
        texts.push(text_of(part))?;
    }
    Ok(())
}

/// The name of an obligation: its texts, and its number. Its only error is want of memory.
pub fn claim<'a>(
    alloc: Global,
    word: &Text<'a>,
    parts: &'a [Tree],
) -> Result<(Vec<Text<'a>>, i64), AllocError>
    ensures { IfOk result (λ claim. claimed claim ≡ obligation_name word.now parts.now) }
{
    let mut texts = Vec::new(alloc);
    texts.push(word.copy())?;
    add_texts(&mut texts, parts)?;
    Ok((texts, number_in(parts)))
}

/// Whether the obligation has a proof. Its only error is want of memory.
#[tactic(auto, using(crate::proofs::ClaimLemmas::claims))]
fn is_proved<'a>(
    walk: &Walk<'a>,
    alloc: Global,
    word: &Text<'a>,
    parts: &'a [Tree],
) -> Result<bool, AllocError>
    ensures { IfOk result (λ b. b ≡ is_proved (environment walk.now) (obligation_name word.now parts.now)) }
{
    let claim = claim(alloc, word, parts)?;
    let is_proved = walk.proved.contains(&claim);
    drop(claim);
    Ok(is_proved)
}

/// The rule of names and sorts that a list breaks as a whole, but that an obligation has no second proof.
fn plain_list_rule<'a>(
    walk: &Walk<'a>,
    list: ListRole,
    word: &Text<'a>,
    parts: &'a [Tree],
) -> Option<u8>
    requires { is_obligation list ≡ false }
    ensures { result ≡ list_rule_of_names (environment walk.now) list word.now parts.now }
{
    match list {
        ListRole::Item => rule_if(33, is_full(walk, word)),
        ListRole::SortBody => rule_if(14, is_no_sort(word, parts)),
        ListRole::ProtocolPart => rule_if(33, is_full_protocol(walk, word)),
        ListRole::Argument | ListRole::Parameter => { rule_if(33, has(8, walk.scope.listed.len())) }
        ListRole::HookArguments | ListRole::Targets => {
            rule_if(15, is_other_count(walk.scope.arguments, parts.len()))
        }
        ListRole::Update => rule_if(15, update_misses_index(walk, parts)),
        ListRole::Command => rule_if(15, misses_arguments(walk, word, parts)),
        ListRole::Program => rule_if(15, program_misses_constants(walk, parts)),
        ListRole::StepNames => rule_if(15, walk.scope.named.len() != parts.len()),
        _ => None,
    }
}

/// Whether the list is an obligation.
pub(crate) fn is_obligation(list: ListRole) -> bool
    ensures { result ≡ is_obligation list }
{
    match list {
        ListRole::Obligation => true,
        _ => false,
    }
}

/// The rule of names and sorts that a list breaks as a whole. Its only error is want of memory.
pub fn list_rule<'a>(
    walk: &Walk<'a>,
    alloc: Global,
    list: ListRole,
    word: &Text<'a>,
    parts: &'a [Tree],
) -> Result<Option<u8>, AllocError>
    ensures { IfOk result (λ rule. rule ≡ list_rule_of_names (environment walk.now) list word.now parts.now) }
{
    if is_obligation(list) {
        return Ok(rule_if(12, is_proved(walk, alloc, word, parts)?));
    }
    Ok(plain_list_rule(walk, list, word, parts))
}
