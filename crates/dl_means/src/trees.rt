//! Trees and their parts.

ghost use Rattle.std.specs.Prelude.{◌≡◌, ◌≤◌, ◌++◌, true, map, length, IfOk, OnOk};
ghost use Rattle.dl_forms.specs.Show.{bare};
ghost use Rattle.dl_forms.specs.Judge.{text_of as text_in};
ghost use Rattle.dl_notation.specs.Trees.{parts_of as parts_in};
ghost use Rattle.dl_means.specs.Stands.{same_place as places_match, part_at as part_there};
ghost use Rattle.dl_tree.specs.declared.tree.Tree.TheVariants.{Num, Sym, List};

use dl_tree::{Name, Place, Tree};
use sqlite_items::Items;
use std::alloc::{AllocError, Global};

const NO_PLACE: Place = Place { line: 0, col: 0 };

/// The text of a symbol, or no text.
pub(crate) fn text_of(tree: &Tree) -> &str
    ensures text { result.now ≡ text_in tree.now }
    ensures short { length result.now ≤ 64 }
{
    match tree {
        Tree::Sym { name, .. } => name.as_str(),
        Tree::Num { .. } => "",
        Tree::List { .. } => "",
    }
}

/// The parts of a list, and none of a number or a symbol.
#[tactic(auto, using(crate::proofs::TreeLemmas::trees))]
pub(crate) fn parts_of(tree: &Tree) -> &[Tree]
    ensures { result.now ≡ parts_in tree.now }
{
    match tree {
        Tree::List { items, .. } => items.as_slice(),
        Tree::Num { .. } => &[],
        Tree::Sym { .. } => &[],
    }
}

/// The part of this number, or the tree itself where it has no such part.
pub(crate) fn part_at(tree: &Tree, at: usize) -> &Tree
    ensures { result.now ≡ part_there tree.now at }
{
    match parts_of(tree).get(at) {
        Some(part) => part,
        None => tree,
    }
}

pub(crate) fn same_place(left: Place, right: Place) -> bool
    ensures exact { result ≡ places_match left right }
    ensures equal { result ≡ true → left ≡ right }
{
    left.line == right.line && left.col == right.col
}

/// A tree without its places. Its only error is want of memory.
#[cycle(bare)]
#[tactic(auto, using(crate::proofs::TreeLemmas::bares))]
pub(crate) fn bare_tree(alloc: Global, tree: &Tree) -> Result<Tree, AllocError>
    ensures { IfOk result (λ made. made ≡ bare tree.now) }
{
    match tree {
        Tree::Num { value, .. } => Ok(Tree::Num {
            value: *value,
            place: NO_PLACE,
        }),
        Tree::Sym { name, .. } => Ok(Tree::Sym {
            name: name.copy(alloc)?,
            place: NO_PLACE,
        }),
        Tree::List { items, .. } => Ok(Tree::List {
            items: bare_parts(alloc, items.as_slice())?,
            place: NO_PLACE,
        }),
    }
}

#[cycle(bare)]
fn bare_parts(alloc: Global, parts: &[Tree]) -> Result<Items<Tree>, AllocError>
    ensures { IfOk result (λ made. made ≡ map bare parts.now) }
{
    let mut made = Items::new(alloc);
    for part in parts {
        made.push(bare_tree(alloc, part)?)?;
    }
    Ok(made)
}

/// Adds trees without their places behind the parts that are there.
pub(crate) fn add_bare(
    alloc: Global,
    trees: &[Tree],
    parts: &mut Items<Tree>,
) -> Result<(), AllocError>
    ensures { OnOk result (parts.new ≡ parts.old ++ map bare trees.now) }
{
    for tree in trees {
        parts.push(bare_tree(alloc, tree)?)?;
    }
    Ok(())
}

/// Whether two trees are equal, places too.
#[cycle(same)]
pub(crate) fn same_tree(left: &Tree, right: &Tree) -> bool
    ensures { result ≡ true → left.now ≡ right.now }
{
    match left {
        Tree::Num { value, place } => same_number(*value, *place, right),
        Tree::Sym { name, place } => same_symbol(name, *place, right),
        Tree::List { items, place } => same_list(items.as_slice(), *place, right),
    }
}

fn same_number(value: i64, place: Place, right: &Tree) -> bool
    ensures { result ≡ true → Num value place ≡ right.now }
{
    match right {
        Tree::Num { value: v, place: p } => value == *v && same_place(place, *p),
        Tree::Sym { .. } => false,
        Tree::List { .. } => false,
    }
}

fn same_symbol(name: &Name, place: Place, right: &Tree) -> bool
    ensures { result ≡ true → Sym name.now place ≡ right.now }
{
    match right {
        Tree::Sym { name: n, place: p } => name == n && same_place(place, *p),
        Tree::Num { .. } => false,
        Tree::List { .. } => false,
    }
}

#[cycle(same)]
fn same_list(parts: &[Tree], place: Place, right: &Tree) -> bool
    ensures { result ≡ true → List parts.now place ≡ right.now }
{
    match right {
        Tree::List { items, place: p } => {
            same_place(place, *p) && same_parts(parts, items.as_slice())
        }
        Tree::Num { .. } => false,
        Tree::Sym { .. } => false,
    }
}

#[cycle(same)]
fn same_parts(left: &[Tree], right: &[Tree]) -> bool
    ensures { result ≡ true → left.now ≡ right.now }
{
    if left.len() != right.len() {
        return false;
    }
    for i in 0..left.len() {
        if !same_tree(&left[i], &right[i]) {
            return false;
        }
    }
    true
}
