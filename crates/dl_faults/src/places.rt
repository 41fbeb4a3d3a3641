//! Where the parts of a file stand, by its tree.

ghost use Rattle.std.specs.Prelude.{◌≡◌, map, ◌++◌, drop, flat_map, MatchOption, None, Some, OnOk, IfOk, codes};
ghost use Rattle.std.specs.List.{find};
ghost use Rattle.dl_faults.specs.Code.{stood_at};
ghost use Rattle.dl_faults.specs.ProgramPlaces.{tree_at as tree_among, part_at as part_of, label_part as part_of_label, label_word as word_of_label, formula_in as formula_of, behind as behind_first, body_of as commands_of, proc_tree as tree_of_proc, program_place as place_of_program};
ghost use Rattle.dl_faults.specs.Places.{parts_of as all_parts, is_word as is_this_word, begins_with as begins_with_word, item as item_of, part_named as first_named, names_label as names_a_label, named_list, label_lists, coherence_place as place_of_coherence, invariant_place as place_of_invariant, hook_place as place_of_hook, behind_word, place_in as place_among};

use dl_tree::{Place, Tree};
use sqlite_items::Items;
use std::alloc::{AllocError, Global};

/// The parts of a list, and none of a number or a symbol.
pub(crate) fn parts_of(tree: &Tree) -> &[Tree]
    ensures { result.now ≡ all_parts tree.now }
{
    match tree {
        Tree::List { items, .. } => items.as_slice(),
        Tree::Num { .. } => &[],
        Tree::Sym { .. } => &[],
    }
}

fn is_word(tree: &Tree, word: &str) -> bool
    ensures { result ≡ is_this_word word.now tree.now }
{
    match tree {
        Tree::Sym { name, .. } => name.as_str() == word,
        Tree::Num { .. } => false,
        Tree::List { .. } => false,
    }
}

/// Whether the tree is a list that begins with the word.
pub(crate) fn begins_with(tree: &Tree, word: &str) -> bool
    ensures { result ≡ begins_with_word word.now tree.now }
{
    match parts_of(tree).first() {
        Some(first) => is_word(first, word),
        None => false,
    }
}

/// The item of this number among those that begin with the word; the whole file where there is none.
pub(crate) fn item<'a>(file: &'a Tree, word: &str, n: u8) -> &'a Tree
    ensures { result.now ≡ item_of file.now word.now n }
{
    let mut left = n;
    for part in parts_of(file) {
        if begins_with(part, word) {
            if left == 0 {
                return part;
            }
            left -= 1;
        }
    }
    file
}

/// The first part that begins with the word.
fn part_named<'a>(tree: &'a Tree, word: &str) -> Option<&'a Tree>
    ensures { MatchOption result (first_named word.now tree.now ≡ None) (λ part. first_named word.now tree.now ≡ Some part.now) }
{
    for part in parts_of(tree) {
        if begins_with(part, word) {
            return Some(part);
        }
    }
    None
}

/// The place of a protocol's coherence, or that of the protocol where it has none. A number that no protocol has stands
/// for the whole file.
pub fn coherence_place(file: &Tree, protocol: u8) -> Place
    ensures { result ≡ place_of_coherence file.now protocol }
{
    let item = item(file, "protocol", protocol);
    match part_named(item, "coherence") {
        Some(coherence) => coherence.place(),
        None => item.place(),
    }
}

/// The place of an invariant. A number that no invariant has stands for the whole file.
pub fn invariant_place(file: &Tree, invariant: u8) -> Place
    ensures { result ≡ place_of_invariant file.now invariant }
{
    item(file, "invariant", invariant).place()
}

/// What stands behind the word in the first part that begins with it.
fn listed<'a>(tree: &'a Tree, word: &str) -> &'a [Tree]
    ensures { result.now ≡ behind_word (first_named word.now tree.now) }
{
    match part_named(tree, word) {
        Some(list) => match parts_of(list) {
            [_, parts @ ..] => parts,
            [] => &[],
        },
        None => &[],
    }
}

/// The place of the part of this number, or of the whole where there is none.
fn place_in(whole: &Tree, parts: &[Tree], n: usize) -> Place
    ensures { result ≡ place_among whole.now parts.now n }
{
    match parts.get(n) {
        Some(part) => part.place(),
        None => whole.place(),
    }
}

/// The place of the name with this number in a world's list of hooks.
pub(crate) fn hook_place(file: &Tree, world: u8, n: usize) -> Place
    ensures { result ≡ place_of_hook file.now world n }
{
    let item = item(file, "world", world);
    place_in(item, listed(item, "hooks"), n)
}

/// Whether the tree is a list that names a label.
fn names_label(tree: &Tree) -> bool
    ensures { result ≡ names_a_label tree.now }
{
    let reads = begins_with(tree, "get") || begins_with(tree, "len");
    let quantifies = begins_with(tree, "each") || begins_with(tree, "any");
    reads || quantifies
}

/// Which part of a list that names a label is its name.
fn label_part(list: &Tree) -> usize
    ensures { result ≡ part_of_label list.now }
{
    if begins_with(list, "each") || begins_with(list, "any") {
        2
    } else {
        1
    }
}

/// The tree with this number, or the whole where there is none.
pub(crate) fn tree_at<'a>(whole: &'a Tree, trees: &'a [Tree], n: usize) -> &'a Tree
    ensures { result.now ≡ tree_among whole.now trees.now n }
{
    match trees.get(n) {
        Some(tree) => tree,
        None => whole,
    }
}

/// The part with this number, or the tree itself where there is none.
pub(crate) fn part_at(tree: &Tree, n: usize) -> &Tree
    ensures { result.now ≡ part_of tree.now n }
{
    tree_at(tree, parts_of(tree), n)
}

/// The name of the label in a list that names one.
pub(crate) fn label_word(list: &Tree) -> &Tree
    ensures { result.now ≡ word_of_label list.now }
{
    part_at(list, label_part(list))
}

/// Where a list that names a label stands, or the name of the label in it.
fn stand_at(words: bool, list: &Tree) -> Place
    ensures { result ≡ stood_at words list.now }
{
    if words {
        label_word(list).place()
    } else {
        list.place()
    }
}

/// Adds the place of a list that names a label, or that of the label's name.
fn add_place(words: bool, tree: &Tree, places: &mut Items<Place>) -> Result<(), AllocError>
    ensures { OnOk result (places.new ≡ places.old ++ map (stood_at words) (named_list tree.now)) }
{
    if names_label(tree) {
        places.push(stand_at(words, tree))?;
    }
    Ok(())
}

/// Adds the places of the lists of a tree that name a label, or of the labels' names, in the order in which they stand.
#[cycle(labels)]
fn add_label_places(
    words: bool,
    tree: &Tree,
    alloc: Global,
    places: &mut Items<Place>,
) -> Result<(), AllocError>
    ensures { OnOk result (places.new ≡ places.old ++ map (stood_at words) (label_lists tree.now)) }
{
    add_place(words, tree, places)?;
    match tree {
        Tree::List { items, .. } => {
            add_places_of_parts(words, items.as_slice(), alloc, places)?;
            Ok(())
        }
        Tree::Num { .. } => Ok(()),
        Tree::Sym { .. } => Ok(()),
    }
}

#[cycle(labels)]
fn add_places_of_parts(
    words: bool,
    parts: &[Tree],
    alloc: Global,
    places: &mut Items<Place>,
) -> Result<(), AllocError>
    ensures { OnOk result (places.new ≡ places.old ++ map (stood_at words) (flat_map label_lists parts.now)) }
{
    for part in parts {
        add_label_places(words, part, alloc, places)?;
    }
    Ok(())
}

/// The places of the lists of a tree that name a label, or of the labels' names. Its only error is want of memory.
pub(crate) fn label_places(
    alloc: Global,
    words: bool,
    tree: &Tree,
) -> Result<Items<Place>, AllocError>
    ensures { IfOk result (λ places. places ≡ map (stood_at words) (label_lists tree.now)) }
{
    let mut places = Items::new(alloc);
    add_label_places(words, tree, alloc, &mut places)?;
    Ok(places)
}

// ---- procedures and the deployment

/// The parts of a list behind the first.
pub(crate) fn behind(list: &Tree) -> &[Tree]
    ensures { result.now ≡ behind_first list.now }
{
    match parts_of(list) {
        [_, parts @ ..] => parts,
        [] => &[],
    }
}

/// The commands of a loop: what stands behind its word, its test and its annotation.
pub(crate) fn behind_note(list: &Tree) -> &[Tree]
    ensures { result.now ≡ drop 3 (all_parts list.now) }
{
    match parts_of(list) {
        [_, _, _, parts @ ..] => parts,
        [_, _] => &[],
        [_] => &[],
        [] => &[],
    }
}

/// The programs of a deployment: what stands behind its word and its world.
pub(crate) fn behind_world(list: &Tree) -> &[Tree]
    ensures { result.now ≡ drop 2 (all_parts list.now) }
{
    match parts_of(list) {
        [_, _, parts @ ..] => parts,
        [_] => &[],
        [] => &[],
    }
}

/// The item of a procedure. A number that no procedure has stands for the whole file.
pub(crate) fn proc_tree(file: &Tree, proc: u8) -> &Tree
    ensures { result.now ≡ tree_of_proc file.now proc }
{
    item(file, "proc", proc)
}

/// The formula in the part with this number of a procedure.
pub(crate) fn formula_in(proc: &Tree, n: usize) -> &Tree
    ensures { result.now ≡ formula_of proc.now n }
{
    part_at(part_at(proc, n), 1)
}

/// The commands of a procedure.
pub(crate) fn body_of(proc: &Tree) -> &[Tree]
    ensures { result.now ≡ commands_of proc.now }
{
    behind(part_at(proc, 7))
}

/// The place of the program with this number, or of the deployment where there is none.
pub(crate) fn program_place(file: &Tree, n: usize) -> Place
    ensures { result ≡ place_of_program file.now n }
{
    let deployment = item(file, "deploy", 0);
    place_in(deployment, behind_world(deployment), n)
}
