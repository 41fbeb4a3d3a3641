//! Whether a file is what its tree means.

ghost use Rattle.std.specs.Prelude.{◌≡◌, ◌++◌, ◌∷◌, [], true, map, length, pos, codes, slice_get, Some, IfOk};
ghost use Rattle.std.specs.List.{list_all};
ghost use Rattle.dl_model.specs.Words.{first_name};
ghost use Rattle.dl_forms.specs.Show.{bare, form, symbol as shown_symbol, number as shown_number};
ghost use Rattle.dl_shown.specs.Shown.{nodes_from};
ghost use Rattle.dl_means.specs.Stands.{AreListed};
ghost use Rattle.dl_means.specs.Means.{Means, texts_in};
ghost use Rattle.dl_means.specs.Facts.{ItemFits, ItemsFit, Begins, IsWritten};
ghost use Rattle.dl_means.specs.Flags.{flags_of_all};
ghost use Rattle.dl_means.specs.Flat.{flat_item};
ghost use Rattle.dl_shown.specs.Whole.{item_of};
ghost use Rattle.dl_means.specs.Before.{at_first};

use crate::before::Declared;
use crate::flat;
use crate::points::points_of_all;
use crate::says::says_item;
use crate::stands::{are_numbered, count_of, item_stands, sorts_fit};
use crate::trees::{bare_tree, parts_of, same_tree};
use dl_file::{File, Item};
use dl_forms::Names;
use dl_notation::{ListRole, number_list};
use dl_shown::{number, show_item_of, show_nodes, symbol};
use dl_tree::{Name, Tree};
use sqlite_items::Items;
use std::alloc::{AllocError, Global};

// ---- names

/// Whether the number has this text.
fn has_text(names: &Names, sym: u32, text: &Name) -> bool
    ensures { result ≡ true → slice_get names.now.texts sym ≡ Some text.now }
{
    match names.text(sym) {
        Some(known) => known == text,
        None => false,
    }
}

/// Whether the table has exactly these texts, in this order.
fn has_texts(names: &Names, texts: &[Name]) -> bool
    ensures { result ≡ true → names.now.texts ≡ texts.now }
{
    let Ok(count) = u32::try_from(texts.len()) else {
        return false;
    };
    for (at, text) in texts.iter().enumerate() {
        if !has_text(names, at as u32, text) {
            return false;
        }
    }
    names.text(count).is_none()
}

/// Whether these are the names that the tree has, in the order in which they come. Its only error is want of memory.
fn are_names_of(alloc: Global, tree: &Tree, texts: &[Name]) -> Result<bool, AllocError>
    ensures { IfOk result (λ are. are ≡ true → texts.now ≡ texts_in tree.now) }
{
    let mut names = Names::make(alloc)?;
    let numbered = number_list(alloc, &mut names, ListRole::File, tree);
    let are = has_texts(&names, texts);
    drop(names);
    match numbered {
        Ok(()) => Ok(are),
        Err(refused) => Err(refused),
    }
}

// ---- items

/// Whether the tree, without its places, is this one.
fn is_bare(alloc: Global, tree: &Tree, shown: &Tree) -> Result<bool, AllocError>
    ensures { IfOk result (λ is. is ≡ true → bare tree.now ≡ shown.now) }
{
    let made = bare_tree(alloc, tree)?;
    let same = same_tree(&made, shown);
    drop(made);
    Ok(same)
}

/// Whether the tree of an item, flat, is this one.
fn is_flat(alloc: Global, env: &Declared, tree: &Tree, shown: &Tree) -> Result<bool, AllocError>
    ensures { IfOk result (λ is. is ≡ true → flat_item env.now tree.now ≡ shown.now) }
{
    let made = flat::item(alloc, env, tree)?;
    let same = same_tree(&made, shown);
    drop(made);
    Ok(same)
}

/// Whether an item is written as its tree is.
fn item_agrees(
    alloc: Global,
    names: &Names,
    env: &Declared,
    file: &File,
    item: &Item,
    tree: &Tree,
) -> Result<bool, AllocError>
    ensures { IfOk result (λ agrees. agrees ≡ true → flat_item env.now tree.now ≡ item_of names.now file.now item.now) }
{
    let shown = show_item_of(alloc, names, file, item)?;
    let answer = is_flat(alloc, env, tree, &shown);
    drop(shown);
    answer
}

/// Whether an item is what its tree means. `points` has the points of each procedure of the file.
fn item_fits(
    alloc: Global,
    names: &Names,
    env: &Declared,
    file: &File,
    points: &[Items<bool>],
    item: &Item,
    tree: &Tree,
) -> Result<bool, AllocError>
    requires { points.now ≡ flags_of_all file.now.decls.procs }
    ensures { IfOk result (λ fits. fits ≡ true → ItemFits names.now file.now env.now tree.now item.now) }
{
    if !item_agrees(alloc, names, env, file, item, tree)? {
        return Ok(false);
    }
    Ok(says_item(names, env, file, points, item) && item_stands(file, item, tree))
}

/// Whether each item is what its tree means, by what stands before it.
fn items_fit(
    alloc: Global,
    names: &Names,
    env: &mut Declared,
    file: &File,
    points: &[Items<bool>],
    items: &[Item],
    trees: &[Tree],
) -> Result<bool, AllocError>
    requires { points.now ≡ flags_of_all file.now.decls.procs }
    ensures { IfOk result (λ fit. fit ≡ true → ItemsFit names.now file.now env.old trees.now items.now) }
{
    if items.len() != trees.len() {
        return Ok(false);
    }
    for i in 0..items.len() {
        let tree = &trees[i];
        if !item_fits(alloc, names, env, file, points, &items[i], tree)? {
            return Ok(false);
        }
        if !env.pass(alloc, tree)? {
            return Ok(false);
        }
    }
    Ok(true)
}

/// The same of all items of a file, by its list of nodes.
fn all_fit(
    alloc: Global,
    names: &Names,
    file: &File,
    points: &[Items<bool>],
    nodes: &Tree,
    trees: &[Tree],
) -> Result<bool, AllocError>
    requires { points.now ≡ flags_of_all file.now.decls.procs }
    ensures { IfOk result (λ fit. fit ≡ true → ItemsFit names.now file.now (at_first nodes.now) trees.now file.now.items) }
{
    match Declared::at_first(alloc, nodes)? {
        Some(mut env) => {
            let items = file.items.as_slice();
            let answer = items_fit(alloc, names, &mut env, file, points, items, trees);
            drop(env);
            answer
        }
        None => Ok(false),
    }
}

// ---- what a file begins with

fn is_word(alloc: Global, word: &Tree) -> Result<bool, AllocError>
    ensures { IfOk result (λ is. is ≡ true → bare word.now ≡ shown_symbol (codes "disel")) }
{
    let shown = symbol(alloc, "disel")?;
    let answer = is_bare(alloc, word, &shown);
    drop(shown);
    answer
}

fn is_version(alloc: Global, version: &Tree) -> Result<bool, AllocError>
    ensures { IfOk result (λ is. is ≡ true → bare version.now ≡ shown_number (pos 1)) }
{
    let shown = number(1);
    let answer = is_bare(alloc, version, &shown);
    drop(shown);
    answer
}

fn are_nodes(alloc: Global, names: &Names, file: &File, nodes: &Tree) -> Result<bool, AllocError>
    ensures { IfOk result (λ are. are ≡ true → bare nodes.now ≡ form (codes "nodes") (nodes_from names.now first_name file.now.decls.inst.nodes)) }
{
    let shown = show_nodes(alloc, names, &file.decls)?;
    let answer = is_bare(alloc, nodes, &shown);
    drop(shown);
    answer
}

/// Whether the word, the version and the nodes are those of the file.
fn begins(
    alloc: Global,
    names: &Names,
    file: &File,
    word: &Tree,
    version: &Tree,
    nodes: &Tree,
) -> Result<bool, AllocError>
    ensures { IfOk result (λ begins. begins ≡ true → Begins names.now file.now word.now version.now nodes.now) }
{
    if !is_word(alloc, word)? {
        return Ok(false);
    }
    if !is_version(alloc, version)? {
        return Ok(false);
    }
    are_nodes(alloc, names, file, nodes)
}

// ---- the whole file

/// Whether each thing that the file holds has one item, in its order.
fn are_listed(names: &Names, file: &File) -> bool
    ensures { result ≡ true → AreListed names.now file.now }
{
    let items = file.items.as_slice();
    if !are_numbered(0, names.sorts().len(), items) {
        return false;
    }
    if !are_numbered(1, file.decls.inst.protocols.len(), items) {
        return false;
    }
    if !are_numbered(2, file.decls.labels.len(), items) {
        return false;
    }
    if !are_numbered(3, file.decls.hooks.len(), items) {
        return false;
    }
    if !are_numbered(4, file.decls.worlds.len(), items) {
        return false;
    }
    if !are_numbered(5, file.decls.invariants.len(), items) {
        return false;
    }
    if !are_numbered(6, file.decls.procs.len(), items) {
        return false;
    }
    if !are_numbered(7, count_of(&file.decls.deploy), items) {
        return false;
    }
    if !are_numbered(8, file.proofs.len(), items) {
        return false;
    }
    true
}

/// Whether what the items show is written as the tree is.
fn is_written(
    alloc: Global,
    names: &Names,
    file: &File,
    points: &[Items<bool>],
) -> Result<bool, AllocError>
    requires { points.now ≡ flags_of_all file.now.decls.procs }
    ensures { IfOk result (λ is. is ≡ true → IsWritten names.now file.now) }
{
    match parts_of(&file.tree) {
        [word, version, nodes, trees @ ..] => {
            if !begins(alloc, names, file, word, version, nodes)? {
                return Ok(false);
            }
            all_fit(alloc, names, file, points, nodes, trees)
        }
        _ => Ok(false),
    }
}

/// Whether the file is what its tree means. The names have the texts of the file's names and the sorts that it declares.
///
/// It answers true only where it is. Its only error is want of memory.
pub fn tells(alloc: Global, names: &Names, file: &File) -> Result<bool, AllocError>
    ensures { IfOk result (λ tells. tells ≡ true → Means file.now.tree file.now) }
{
    let texts = file.names.as_slice();
    if !has_texts(names, texts) {
        return Ok(false);
    }
    if !are_names_of(alloc, &file.tree, texts)? {
        return Ok(false);
    }
    if !are_listed(names, file) {
        return Ok(false);
    }
    if !sorts_fit(names.sorts()) {
        return Ok(false);
    }
    let points = points_of_all(alloc, file.decls.procs.as_slice())?;
    let answer = is_written(alloc, names, file, points.as_slice());
    drop(points);
    answer
}
