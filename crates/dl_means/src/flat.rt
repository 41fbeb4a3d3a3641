//! Items with what their names stand for written out, and with the parts of protocols grouped.

ghost use Rattle.std.specs.Prelude.{◌≡◌, ◌≤◌, ◌++◌, ◌∷◌, [], map, filter, length, IfOk, OnOk, Some};
ghost use Rattle.dl_forms.specs.Show.{bare, form, symbol as shown_symbol};
ghost use Rattle.dl_forms.specs.Context.{look_up};
ghost use Rattle.dl_notation.specs.Environment.{sort_named as named_sort};
ghost use Rattle.dl_notation.specs.Trees.{parts_of as parts_in};
ghost use Rattle.dl_notation.specs.Behind.{declared_world};
ghost use Rattle.dl_means.specs.Seen.{seen_world};
ghost use Rattle.dl_shown.specs.Shown.{listed};
ghost use Rattle.dl_means.specs.Flat.{flat_range, flat_value, flat_sort, flat_argument, flat_arguments, flat_field, flat_tag, flat_parts, flat_protocol, world_parts, flat_world, flat_procedure, flat_constant, flat_program, flat_deployment, flat_item, is_field as is_field_part, is_tag as is_tag_part, is_coherence as is_coherence_part};

use crate::before::Declared;
use crate::trees::{add_bare, bare_tree, parts_of};
use crate::worlds::WorldTexts;
use dl_notation::begins_with;
use dl_shown::{begin, list, number, range, symbol};
use dl_tree::{Name, Tree};
use sqlite_items::Items;
use std::alloc::{AllocError, Global};

// ---- sorts

/// The name of a sort, in a sort's position.
fn sort_named(alloc: Global, env: &Declared, name: &Name) -> Result<Tree, AllocError>
    ensures { IfOk result (λ tree. tree ≡ flat_range name.now (named_sort env.now name.now)) }
{
    match env.sort(name)? {
        Some(sort) => range(alloc, sort),
        None => symbol(alloc, name.as_str()),
    }
}

fn sort(alloc: Global, env: &Declared, tree: &Tree) -> Result<Tree, AllocError>
    ensures { IfOk result (λ made. made ≡ flat_sort env.now tree.now) }
{
    match tree {
        Tree::Sym { name, .. } => sort_named(alloc, env, name),
        Tree::Num { value, .. } => Ok(number(*value)),
        Tree::List { .. } => bare_tree(alloc, tree),
    }
}

/// A name with its sort.
fn argument(alloc: Global, env: &Declared, tree: &Tree) -> Result<Tree, AllocError>
    ensures { IfOk result (λ made. made ≡ flat_argument env.now tree.now) }
{
    match parts_of(tree) {
        [name, of] => {
            let mut parts = Items::new(alloc);
            parts.push(bare_tree(alloc, name)?)?;
            parts.push(sort(alloc, env, of)?)?;
            Ok(list(parts))
        }
        [] => bare_tree(alloc, tree),
        [_] => bare_tree(alloc, tree),
        [_, _, _, ..] => bare_tree(alloc, tree),
    }
}

fn arguments(alloc: Global, env: &Declared, tree: &Tree) -> Result<Tree, AllocError>
    ensures { IfOk result (λ made. made ≡ flat_arguments env.now tree.now) }
{
    let mut parts = Items::new(alloc);
    for part in parts_of(tree) {
        parts.push(argument(alloc, env, part)?)?;
    }
    Ok(list(parts))
}

// ---- protocols

fn is_field(part: &Tree) -> bool
    ensures { result ≡ is_field_part part.now }
{
    begins_with(part, "field") || begins_with(part, "row")
}

/// A field or a row.
fn field(alloc: Global, env: &Declared, tree: &Tree) -> Result<Tree, AllocError>
    ensures { IfOk result (λ made. made ≡ flat_field env.now tree.now (parts_in tree.now)) }
{
    match parts_of(tree) {
        [word, name, of, rest @ ..] => {
            let mut parts = Items::new(alloc);
            parts.push(bare_tree(alloc, word)?)?;
            parts.push(bare_tree(alloc, name)?)?;
            parts.push(sort(alloc, env, of)?)?;
            add_bare(alloc, rest, &mut parts)?;
            Ok(list(parts))
        }
        [] => bare_tree(alloc, tree),
        [_] => bare_tree(alloc, tree),
        [_, _] => bare_tree(alloc, tree),
    }
}

fn tag(alloc: Global, env: &Declared, tree: &Tree) -> Result<Tree, AllocError>
    ensures { IfOk result (λ made. made ≡ flat_tag env.now tree.now (parts_in tree.now)) }
{
    match parts_of(tree) {
        [word, name, args, rest @ ..] => {
            let mut parts = Items::new(alloc);
            parts.push(bare_tree(alloc, word)?)?;
            parts.push(bare_tree(alloc, name)?)?;
            parts.push(arguments(alloc, env, args)?)?;
            add_bare(alloc, rest, &mut parts)?;
            Ok(list(parts))
        }
        [] => bare_tree(alloc, tree),
        [_] => bare_tree(alloc, tree),
        [_, _] => bare_tree(alloc, tree),
    }
}

fn add_fields(
    alloc: Global,
    env: &Declared,
    trees: &[Tree],
    parts: &mut Items<Tree>,
) -> Result<(), AllocError>
    ensures { OnOk result (parts.new ≡ parts.old ++ map (λ part. flat_field env.now part (parts_in part)) (filter is_field_part trees.now)) }
{
    for tree in trees {
        if is_field(tree) {
            parts.push(field(alloc, env, tree)?)?;
        }
    }
    Ok(())
}

fn add_tags(
    alloc: Global,
    env: &Declared,
    trees: &[Tree],
    parts: &mut Items<Tree>,
) -> Result<(), AllocError>
    ensures { OnOk result (parts.new ≡ parts.old ++ map (λ part. flat_tag env.now part (parts_in part)) (filter is_tag_part trees.now)) }
{
    for tree in trees {
        if begins_with(tree, "tag") {
            parts.push(tag(alloc, env, tree)?)?;
        }
    }
    Ok(())
}

fn add_coherences(alloc: Global, trees: &[Tree], parts: &mut Items<Tree>) -> Result<(), AllocError>
    ensures { OnOk result (parts.new ≡ parts.old ++ map bare (filter is_coherence_part trees.now)) }
{
    for tree in trees {
        if begins_with(tree, "coherence") {
            parts.push(bare_tree(alloc, tree)?)?;
        }
    }
    Ok(())
}

fn protocol(alloc: Global, env: &Declared, tree: &Tree) -> Result<Tree, AllocError>
    ensures { IfOk result (λ made. made ≡ flat_protocol env.now tree.now (parts_in tree.now)) }
{
    match parts_of(tree) {
        [word, name, trees @ ..] => {
            let mut parts = Items::new(alloc);
            parts.push(bare_tree(alloc, word)?)?;
            parts.push(bare_tree(alloc, name)?)?;
            add_fields(alloc, env, trees, &mut parts)?;
            add_tags(alloc, env, trees, &mut parts)?;
            add_coherences(alloc, trees, &mut parts)?;
            Ok(list(parts))
        }
        [] => bare_tree(alloc, tree),
        [_] => bare_tree(alloc, tree),
    }
}

// ---- worlds

fn add_symbols(alloc: Global, texts: &[Name], parts: &mut Items<Tree>) -> Result<(), AllocError>
    ensures { OnOk result (parts.new ≡ parts.old ++ map shown_symbol texts.now) }
{
    for text in texts {
        parts.push(symbol(alloc, text.as_str())?)?;
    }
    Ok(())
}

/// A form of symbols.
fn symbols(alloc: Global, word: &str, texts: &[Name]) -> Result<Tree, AllocError>
    requires { length word.now ≤ 64 }
    ensures { IfOk result (λ tree. tree ≡ form word.now (map shown_symbol texts.now)) }
{
    let mut parts = begin(alloc, word)?;
    add_symbols(alloc, texts, &mut parts)?;
    Ok(list(parts))
}

/// Adds the lists of the labels and the hooks of a world.
fn add_world(alloc: Global, world: &WorldTexts, parts: &mut Items<Tree>) -> Result<(), AllocError>
    ensures { OnOk result (parts.new ≡ parts.old ++ world_parts (seen_world world.now)) }
{
    parts.push(symbols(alloc, "labels", world.labels.as_slice())?)?;
    parts.push(symbols(alloc, "hooks", world.hooks.as_slice())?)
}

fn world(alloc: Global, env: &Declared, tree: &Tree) -> Result<Tree, AllocError>
    ensures { IfOk result (λ made. made ≡ flat_world env.now tree.now (parts_in tree.now)) }
{
    match parts_of(tree) {
        [word, name, trees @ ..] => {
            let declared = env.declared_world(alloc, trees)?;
            let mut parts = Items::new(alloc);
            parts.push(bare_tree(alloc, word)?)?;
            parts.push(bare_tree(alloc, name)?)?;
            add_world(alloc, &declared, &mut parts)?;
            Ok(list(parts))
        }
        [] => bare_tree(alloc, tree),
        [_] => bare_tree(alloc, tree),
    }
}

// ---- procedures and the deployment

fn procedure(alloc: Global, env: &Declared, tree: &Tree) -> Result<Tree, AllocError>
    ensures { IfOk result (λ made. made ≡ flat_procedure env.now tree.now (parts_in tree.now)) }
{
    match parts_of(tree) {
        [word, name, of, params, rest @ ..] => {
            let mut parts = Items::new(alloc);
            parts.push(bare_tree(alloc, word)?)?;
            parts.push(bare_tree(alloc, name)?)?;
            parts.push(bare_tree(alloc, of)?)?;
            parts.push(arguments(alloc, env, params)?)?;
            add_bare(alloc, rest, &mut parts)?;
            Ok(list(parts))
        }
        [] => bare_tree(alloc, tree),
        [_] => bare_tree(alloc, tree),
        [_, _] => bare_tree(alloc, tree),
        [_, _, _] => bare_tree(alloc, tree),
    }
}

/// The value of a name, or the name where it has none.
fn constant_named(alloc: Global, env: &Declared, name: &Name) -> Result<Tree, AllocError>
    ensures { IfOk result (λ tree. tree ≡ flat_value name.now (look_up name.now env.now.words)) }
{
    match env.word(name) {
        Some(value) => Ok(number(value)),
        None => symbol(alloc, name.as_str()),
    }
}

fn constant(alloc: Global, env: &Declared, tree: &Tree) -> Result<Tree, AllocError>
    ensures { IfOk result (λ made. made ≡ flat_constant env.now tree.now) }
{
    match tree {
        Tree::Sym { name, .. } => constant_named(alloc, env, name),
        Tree::Num { value, .. } => Ok(number(*value)),
        Tree::List { .. } => bare_tree(alloc, tree),
    }
}

fn add_constants(
    alloc: Global,
    env: &Declared,
    trees: &[Tree],
    parts: &mut Items<Tree>,
) -> Result<(), AllocError>
    ensures { OnOk result (parts.new ≡ parts.old ++ map (flat_constant env.now) trees.now) }
{
    for tree in trees {
        parts.push(constant(alloc, env, tree)?)?;
    }
    Ok(())
}

/// What a node runs.
fn program(alloc: Global, env: &Declared, tree: &Tree) -> Result<Tree, AllocError>
    ensures { IfOk result (λ made. made ≡ flat_program env.now tree.now (parts_in tree.now)) }
{
    match parts_of(tree) {
        [node, proc, constants @ ..] => {
            let mut parts = Items::new(alloc);
            parts.push(bare_tree(alloc, node)?)?;
            parts.push(bare_tree(alloc, proc)?)?;
            add_constants(alloc, env, constants, &mut parts)?;
            Ok(list(parts))
        }
        [] => bare_tree(alloc, tree),
        [_] => bare_tree(alloc, tree),
    }
}

fn add_programs(
    alloc: Global,
    env: &Declared,
    trees: &[Tree],
    parts: &mut Items<Tree>,
) -> Result<(), AllocError>
    ensures { OnOk result (parts.new ≡ parts.old ++ map (λ program. flat_program env.now program (parts_in program)) trees.now) }
{
    for tree in trees {
        parts.push(program(alloc, env, tree)?)?;
    }
    Ok(())
}

fn deployment(alloc: Global, env: &Declared, tree: &Tree) -> Result<Tree, AllocError>
    ensures { IfOk result (λ made. made ≡ flat_deployment env.now tree.now (parts_in tree.now)) }
{
    match parts_of(tree) {
        [word, of, programs @ ..] => {
            let mut parts = Items::new(alloc);
            parts.push(bare_tree(alloc, word)?)?;
            parts.push(bare_tree(alloc, of)?)?;
            add_programs(alloc, env, programs, &mut parts)?;
            Ok(list(parts))
        }
        [] => bare_tree(alloc, tree),
        [_] => bare_tree(alloc, tree),
    }
}

/// An item with what its names stand for written out. Its only error is want of memory.
pub(crate) fn item(alloc: Global, env: &Declared, tree: &Tree) -> Result<Tree, AllocError>
    ensures { IfOk result (λ made. made ≡ flat_item env.now tree.now) }
{
    if begins_with(tree, "protocol") {
        return protocol(alloc, env, tree);
    }
    if begins_with(tree, "world") {
        return world(alloc, env, tree);
    }
    if begins_with(tree, "proc") {
        return procedure(alloc, env, tree);
    }
    if begins_with(tree, "deploy") {
        return deployment(alloc, env, tree);
    }
    bare_tree(alloc, tree)
}
