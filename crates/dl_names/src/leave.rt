//! What stands behind a list.

ghost use Rattle.std.specs.Prelude.{◌≡◌, ◌++◌, ◌∷◌, [], unwrap_or, OnOk, IfOk};
ghost use Rattle.dl_notation.specs.Behind.{all_but_first, composition_of, declared_client, declared_procedure, declared_sort, declared_world, names_behind_word, own_given, with_item, with_obligation, with_part};
ghost use Rattle.dl_notation.specs.Environment.{int_sort, protocol_number};
ghost use Rattle.dl_notation.specs.Obligations.{obligation_name, own_of, texts_of};
ghost use Rattle.dl_notation.specs.Trees.{parts_of};
ghost use Rattle.dl_notation.specs.Worlds.{no_world};
ghost use Rattle.dl_scope.specs.Walked.{environment, given_noted, interval};

use crate::behind::add_value;
use dl_rules::claim;
use dl_scope::{
    Given, INT, Procedure, Protocol, Tag, Text, Walk, World, add_all, add_each_sort, add_new,
    below, clear, compose_named, give, own_of, protocol_number, text_of,
};
use dl_term::Sort;
use dl_tree::Tree;
use indexmap::IndexSet;
use sqlite_items::Items;
use std::alloc::{AllocError, Global};
use std::mem;

/// The parts of a list, or no parts.
#[tactic(auto, using(dl_notation::proofs::TreeLemmas::trees))]
fn parts_of(tree: &Tree) -> &[Tree]
    ensures { result.now ≡ parts_of tree.now }
{
    match tree {
        Tree::List { items, .. } => items.as_slice(),
        Tree::Num { .. } => &[],
        Tree::Sym { .. } => &[],
    }
}

/// The sort that a body declares. Its only error is a body of more than 2^63 parts.
fn declared_sort(parts: &[Tree]) -> Result<Sort, AllocError>
    ensures { IfOk result (λ sort. sort ≡ declared_sort parts.now) }
{
    match parts {
        [] => Ok(INT),
        [_, values @ ..] => match interval(values) {
            Some(sort) => Ok(sort),
            None => below(values.len()),
        },
    }
}

/// The interval of two numbers.
fn interval(values: &[Tree]) -> Option<Sort>
    ensures { result ≡ interval values.now }
{
    let [low, high] = values else {
        return None;
    };
    let Tree::Num { value: low, .. } = low else {
        return None;
    };
    let Tree::Num { value: high, .. } = high else {
        return None;
    };
    Some(Sort {
        low: *low,
        high: *high,
    })
}

/// Adds a sort. Its only error is want of memory.
fn add_sort<'a>(walk: &mut Walk<'a>, name: Text<'a>, body: &'a Tree) -> Result<(), AllocError>
    ensures { OnOk result (environment walk.new ≡ record (environment walk.old) { sorts = (environment walk.old).sorts ++ (name.entry, declared_sort (parts_of body.now)) ∷ [] }) }
{
    let sort = declared_sort(parts_of(body))?;
    add_value(&mut walk.sorts, name, sort)
}

/// Adds the item's protocol. Its only error is want of memory.
fn add_protocol<'a>(walk: &mut Walk<'a>, alloc: Global, name: Text<'a>) -> Result<(), AllocError>
    ensures { OnOk result (environment walk.new ≡ record (environment walk.old) { protocols = (environment walk.old).protocols ++ (name.entry, (environment walk.old).own) ∷ [] }) }
{
    let mut own = Protocol::empty(alloc);
    let result = own.copy_from(&walk.scope.own);
    push_protocol(&mut walk.protocols, name, own)?;
    result
}

/// Adds a protocol. Its only error is want of memory.
fn push_protocol<'a>(
    protocols: &mut Items<(Text<'a>, Protocol<'a>)>,
    name: Text<'a>,
    own: Protocol<'a>,
) -> Result<(), AllocError>
    ensures { OnOk result (protocols.new ≡ protocols.old ++ (name.entry, own.entry) ∷ []) }
{
    protocols.push((name, own))
}

/// Adds a label. Its only error is want of memory.
fn add_label<'a>(walk: &mut Walk<'a>, name: Text<'a>, protocol: &Text<'a>) -> Result<(), AllocError>
    ensures { OnOk result (environment walk.new ≡ record (environment walk.old) { labels = (environment walk.old).labels ++ (name.entry, unwrap_or (protocol_number (environment walk.old) protocol.now) 0) ∷ [] }) }
{
    let number = protocol_number(walk, protocol).unwrap_or(0);
    walk.labels.push((name, number))
}

/// The client of a hook, by what stands behind its name.
fn declared_client<'a>(parts: &'a [Tree]) -> Text<'a>
    ensures { result ≡ declared_client parts.now }
{
    match parts {
        [_, client, ..] => text_of(client),
        _ => Text::new(""),
    }
}

/// Adds the names that stand in a list behind its word to an empty set. Its only error is want of memory, which it
/// also answers for a name that stands there twice.
fn add_names<'a>(names: &mut IndexSet<Text<'a>>, tree: &'a Tree) -> Result<(), AllocError>
    requires { names.old.keys ≡ [] }
    ensures { OnOk result (names.new.keys ≡ names_behind_word tree.now) }
{
    match parts_of(tree).split_first() {
        None => Ok(()),
        Some((_, parts)) => add_each_name(names, parts),
    }
}

/// Adds the texts of trees that aren't there. Its only error is want of memory, which it also answers for one that
/// is there.
fn add_each_name<'a>(names: &mut IndexSet<Text<'a>>, parts: &'a [Tree]) -> Result<(), AllocError>
    ensures { OnOk result (names.new.keys ≡ names.old.keys ++ texts_of parts.now) }
{
    for part in parts {
        add_new(names, text_of(part))?;
    }
    Ok(())
}

/// Puts the labels and hooks of a composition into an empty world. Its only error is want of memory.
#[tactic(auto, using(crate::proofs::LeaveLemmas::leaving))]
fn compose_parts<'a>(
    walk: &Walk<'a>,
    alloc: Global,
    world: &mut World<'a>,
    parts: &'a [Tree],
) -> Result<(), AllocError>
    requires { world.old ≡ no_world }
    ensures { OnOk result (world.new ≡ composition_of (environment walk.now) (all_but_first (texts_of parts.now))) }
{
    match parts {
        [_, first, second] => {
            compose_named(walk, alloc, world, &text_of(first), &text_of(second))
        }
        _ => Ok(()),
    }
}

/// Puts the labels and hooks that a world declares into an empty one. Its only error is want of memory.
fn fill_world<'a>(
    walk: &Walk<'a>,
    alloc: Global,
    world: &mut World<'a>,
    parts: &'a [Tree],
) -> Result<(), AllocError>
    requires { world.old ≡ no_world }
    ensures { OnOk result (world.new ≡ declared_world (environment walk.now) parts.now) }
{
    match parts {
        [labels, hooks] => {
            add_names(&mut world.labels, labels)?;
            add_names(&mut world.hooks, hooks)
        }
        [composition] => compose_parts(walk, alloc, world, parts_of(composition)),
        _ => Ok(()),
    }
}

/// Adds a world. Its only error is want of memory.
fn add_world<'a>(
    walk: &mut Walk<'a>,
    alloc: Global,
    name: Text<'a>,
    parts: &'a [Tree],
) -> Result<(), AllocError>
    ensures { OnOk result (environment walk.new ≡ record (environment walk.old) { worlds = (environment walk.old).worlds ++ (name.entry, declared_world (environment walk.old) parts.now) ∷ [] }) }
{
    let mut world = World::empty(alloc);
    let result = fill_world(walk, alloc, &mut world, parts);
    walk.worlds.push((name, world))?;
    result
}

/// Adds the parameters of a procedure, which are its variables but for `me`. Its only error is want of memory.
fn add_parameters<'a>(
    parameters: &mut Items<Text<'a>>,
    variables: &[Text<'a>],
) -> Result<(), AllocError>
    requires { parameters.old ≡ [] }
    ensures { OnOk result (parameters.new ≡ all_but_first variables.now) }
{
    match variables.split_first() {
        None => Ok(()),
        Some((_, variables)) => add_all(parameters, variables),
    }
}

/// Puts what the item has named into a procedure without names. Its only error is want of memory.
fn fill_procedure<'a>(walk: &Walk<'a>, procedure: &mut Procedure<'a>) -> Result<(), AllocError>
    requires { procedure.old ≡ record { world = procedure.old.world; parameters = []; sorts = []; locals = []; points = [] } }
    ensures { OnOk result (procedure.new ≡ declared_procedure (environment walk.now) procedure.old.world) }
{
    add_parameters(&mut procedure.parameters, walk.scope.variables.as_slice())?;
    add_each_sort(&mut procedure.sorts, walk.scope.parameters.as_slice())?;
    add_all(&mut procedure.locals, walk.scope.locals.as_slice())?;
    add_all(&mut procedure.points, walk.points.as_slice())
}

/// Adds the item's procedure. Its only error is want of memory.
fn add_procedure<'a>(
    walk: &mut Walk<'a>,
    alloc: Global,
    name: Text<'a>,
    world: Text<'a>,
) -> Result<(), AllocError>
    ensures { OnOk result (environment walk.new ≡ record (environment walk.old) { procedures = (environment walk.old).procedures ++ (name.entry, declared_procedure (environment walk.old) world.entry) ∷ []; points = [] }) }
{
    let mut procedure = Procedure {
        world,
        parameters: Items::new(alloc),
        sorts: Items::new(alloc),
        locals: Items::new(alloc),
        points: Items::new(alloc),
    };
    let result = fill_procedure(walk, &mut procedure);
    clear(alloc, &mut walk.points);
    walk.procedures.push((name, procedure))?;
    result
}

/// Adds what an item with two parts or more declares. Its only error is want of memory.
fn add_declared<'a>(
    walk: &mut Walk<'a>,
    alloc: Global,
    word: &Text<'a>,
    first: &'a Tree,
    parts: &'a [Tree],
) -> Result<(), AllocError>
    ensures { OnOk result (environment walk.new ≡ with_item (environment walk.old) word.now (first.now ∷ parts.now)) }
{
    let name = text_of(first);
    let Some(part) = parts.first() else {
        if word.is(b"protocol") {
            return add_protocol(walk, alloc, name);
        }
        return Ok(());
    };
    if word.is(b"sort") {
        return add_sort(walk, name, part);
    }
    if word.is(b"protocol") {
        return add_protocol(walk, alloc, name);
    }
    if word.is(b"label") {
        return add_label(walk, name, &text_of(part));
    }
    if word.is(b"hook") {
        return walk.hooks.push((name, declared_client(parts)));
    }
    if word.is(b"world") {
        return add_world(walk, alloc, name, parts);
    }
    if word.is(b"invariant") {
        return walk.invariants.push((name, text_of(part)));
    }
    if word.is(b"proc") {
        return add_procedure(walk, alloc, name, text_of(part));
    }
    Ok(())
}

/// Adds what an item declares. Its only error is want of memory.
pub(crate) fn add_item<'a>(
    walk: &mut Walk<'a>,
    alloc: Global,
    word: &Text<'a>,
    parts: &'a [Tree],
) -> Result<(), AllocError>
    ensures { OnOk result (environment walk.new ≡ with_item (environment walk.old) word.now parts.now) }
{
    match parts.split_first() {
        None => Ok(()),
        Some((first, parts)) => add_declared(walk, alloc, word, first, parts),
    }
}

/// Adds what a part of a protocol with two parts or more declares. Its only error is want of memory.
fn add_to_protocol<'a>(
    own: &mut Protocol<'a>,
    word: &Text<'a>,
    first: &'a Tree,
    second: &'a Tree,
    parts: &'a [Tree],
) -> Result<(), AllocError>
    ensures { OnOk result (own.new ≡ with_part own.old word.now (first.now ∷ second.now ∷ parts.now)) }
{
    let name = text_of(first);
    if word.is(b"field") {
        return own.add_field(name, false);
    }
    if word.is(b"row") {
        return own.add_field(name, true);
    }
    if word.is(b"tag") {
        return own.add_tag(
            name,
            Tag {
                arguments: parts_of(second).len(),
                is_received: parts.len() >= 2,
            },
        );
    }
    Ok(())
}

/// Adds what a part of a protocol declares. Its only error is want of memory.
pub(crate) fn add_part<'a>(
    own: &mut Protocol<'a>,
    word: &Text<'a>,
    parts: &'a [Tree],
) -> Result<(), AllocError>
    ensures { OnOk result (own.new ≡ with_part own.old word.now parts.now) }
{
    match parts {
        [] => Ok(()),
        [_] => {
            if word.is(b"coherence") {
                own.is_coherent = true;
            }
            Ok(())
        }
        [first, second, parts @ ..] => { add_to_protocol(own, word, first, second, parts) }
    }
}

/// Adds an obligation to those that have a proof. Its only error is want of memory, which it also answers for
/// one that has a proof.
#[tactic(auto, using(dl_rules::proofs::ClaimLemmas::claims))]
fn add_proved<'a>(
    walk: &mut Walk<'a>,
    alloc: Global,
    word: &Text<'a>,
    parts: &'a [Tree],
) -> Result<(), AllocError>
    ensures { OnOk result (environment walk.new ≡ record (environment walk.old) { proved = (environment walk.old).proved ++ obligation_name word.now parts.now ∷ [] }) }
{
    let claim = claim(alloc, word, parts)?;
    match walk.proved.insert(claim) {
        Ok(is_new) => { if is_new { Ok(()) } else { Err(AllocError) } }
        Err(refused) => {
            drop(refused);
            Err(AllocError)
        }
    }
}

/// Notes what an obligation gives. Its only error is want of memory.
fn take_given<'a>(
    walk: &mut Walk<'a>,
    alloc: Global,
    word: &Text<'a>,
    parts: &'a [Tree],
) -> Result<(), AllocError>
    ensures { OnOk result (environment walk.new ≡ given_noted (environment walk.old) word.now parts.now) }
{
    let mut given = Given::empty(alloc);
    let result = give(walk, alloc, &mut given, word, parts);
    mem::swap(&mut walk.scope.variables, &mut given.variables);
    mem::swap(&mut walk.scope.hypotheses, &mut given.hypotheses);
    mem::swap(&mut walk.scope.named, &mut given.named);
    drop(given);
    result
}

/// Notes the protocol that `self` stands for in an obligation. Its only error is want of memory.
fn take_own<'a>(
    walk: &mut Walk<'a>,
    alloc: Global,
    word: &Text<'a>,
    parts: &'a [Tree],
) -> Result<(), AllocError>
    ensures { OnOk result (environment walk.new ≡ own_given (environment walk.old) (own_of (environment walk.old) word.now parts.now)) }
{
    let Some(found) = own_of(walk, word, parts) else {
        return Ok(());
    };
    let mut own = Protocol::empty(alloc);
    let result = own.copy_from(found);
    mem::swap(&mut walk.scope.own, &mut own);
    drop(own);
    walk.scope.has_own = true;
    result
}

/// Goes past the name of an obligation. Its only error is want of memory.
pub(crate) fn add_obligation<'a>(
    walk: &mut Walk<'a>,
    alloc: Global,
    word: &Text<'a>,
    parts: &'a [Tree],
) -> Result<(), AllocError>
    ensures { OnOk result (environment walk.new ≡ with_obligation (environment walk.old) word.now parts.now) }
{
    take_given(walk, alloc, word, parts)?;
    take_own(walk, alloc, word, parts)?;
    add_proved(walk, alloc, word, parts)
}

/// Goes past a parameter, with the sort just before. Its only error is want of memory.
pub(crate) fn add_parameter(walk: &mut Walk) -> Result<(), AllocError>
    ensures { OnOk result (environment walk.new ≡ record (environment walk.old) { parameters = (environment walk.old).parameters ++ unwrap_or (environment walk.old).sort int_sort ∷ [] }) }
{
    let sort = walk.scope.sort.unwrap_or(INT);
    walk.scope.parameters.push(sort)
}

/// Makes the hypothesis that waited for the script just behind known. Its only error is want of memory.
pub(crate) fn add_pending<'a>(walk: &mut Walk<'a>, alloc: Global) -> Result<(), AllocError>
    ensures { OnOk result (environment walk.new ≡ record (environment walk.old) { hypotheses = (environment walk.old).hypotheses ++ (environment walk.old).pending; pending = [] }) }
{
    let scope = &mut walk.scope;
    let mut pending = Items::new(alloc);
    mem::swap(&mut scope.pending, &mut pending);
    scope.hypotheses.append(pending)
}
