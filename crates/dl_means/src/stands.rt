//! Where items, proofs and scripts stand, and how items are numbered.

ghost use Rattle.std.specs.Prelude.{◌≡◌, ◌+◌, ◌&&◌, true, length, slice_get};
ghost use Rattle.std.specs.List.{list_all};
ghost use Rattle.dl_tree.specs.TreePlace.{place_of};
ghost use Rattle.dl_means.specs.Says.{of_some};
ghost use Rattle.dl_means.specs.Stands.{same_place as places_match, stands as rule_stands, part_at as part_there, proof_stands as stands_with_script, kind_stands, item_stands as stands_at, kind_number as number_of_kind, are_numbered as numbered_up_to, deploy_count, same_sort as sorts_match, fits_values as values_fit, sort_fits as fits_sort};
ghost use Rattle.dl_notation.specs.Environment.{below};

use crate::trees::{part_at, same_place};
use dl_file::{File, Item, ItemKind, Proof};
use dl_forms::SortDecl;
use dl_model::Deploy;
use dl_sequent::{Rule, Script};
use dl_term::Sort;
use dl_tree::{Place, Tree};

// ---- places

fn is_at(place: Place, tree: &Tree) -> bool
    ensures { result ≡ places_match place (place_of tree.now) }
{
    same_place(place, tree.place())
}

/// Whether a script stands where its list does, and its sub-scripts where theirs do.
#[tactic(auto, unfolding(dl_shown::specs::Opened::scripts))]
fn script_stands(script: &Script, tree: &Tree) -> bool
    ensures { result ≡ rule_stands tree.now script.now.rule script.now.place }
{
    let here = is_at(script.place, tree);
    match &script.rule {
        Rule::By { .. } => here,
        Rule::Close => here,
        Rule::Linear { .. } => here,
        Rule::Split { left, right } => {
            let both = script_stands(left.get(), part_at(tree, 1))
                && script_stands(right.get(), part_at(tree, 2));
            here && both
        },
        Rule::Pick { then, .. } => here && script_stands(then.get(), part_at(tree, 2)),
        Rule::Intro { then, .. } => here && script_stands(then.get(), part_at(tree, 2)),
        Rule::Open { then, .. } => here && script_stands(then.get(), part_at(tree, 2)),
        Rule::Give { then, .. } => here && script_stands(then.get(), part_at(tree, 2)),
        Rule::Parts { then, .. } => here && script_stands(then.get(), part_at(tree, 4)),
        Rule::Cases { left, right, .. } => {
            let both = script_stands(left.get(), part_at(tree, 3))
                && script_stands(right.get(), part_at(tree, 4));
            here && both
        },
        Rule::Apply { first, then, .. } => {
            let both = script_stands(first.get(), part_at(tree, 3))
                && script_stands(then.get(), part_at(tree, 4));
            here && both
        },
        Rule::Inst { then, .. } => here && script_stands(then.get(), part_at(tree, 4)),
        Rule::Unpack { then, .. } => here && script_stands(then.get(), part_at(tree, 4)),
        Rule::Have { first, then, .. } => {
            let both = script_stands(first.get(), part_at(tree, 3))
                && script_stands(then.get(), part_at(tree, 4));
            here && both
        },
        Rule::Decide { yes, no, .. } => {
            let both = script_stands(yes.get(), part_at(tree, 3))
                && script_stands(no.get(), part_at(tree, 4));
            here && both
        },
        Rule::Rewrite { then, .. } => here && script_stands(then.get(), part_at(tree, 3)),
        Rule::Reduce { then, .. } => here && script_stands(then.get(), part_at(tree, 3)),
        Rule::Range { then, .. } => here && script_stands(then.get(), part_at(tree, 3)),
    }
}

fn proof_stands(proof: &Proof, tree: &Tree) -> bool
    ensures { result ≡ stands_with_script tree.now proof.now }
{
    is_at(proof.place, tree) && script_stands(&proof.script, part_at(tree, 3))
}

fn proof_stands_at(file: &File, at: usize, tree: &Tree) -> bool
    ensures { result ≡ of_some (stands_with_script tree.now) (slice_get file.now.proofs at) }
{
    match file.proofs.get(at) {
        Some(proof) => proof_stands(proof, tree),
        None => true,
    }
}

fn parts_stand(file: &File, item: &Item, tree: &Tree) -> bool
    ensures { result ≡ kind_stands tree.now file.now item.now.kind item.now.at }
{
    match item.kind {
        ItemKind::Proof => proof_stands_at(file, item.at as usize, tree),
        ItemKind::Sort => true,
        ItemKind::Protocol => true,
        ItemKind::Label => true,
        ItemKind::Hook => true,
        ItemKind::World => true,
        ItemKind::Invariant => true,
        ItemKind::Procedure => true,
        ItemKind::Deploy => true,
    }
}

/// Whether an item stands where its list does, and a proof's script where its lists do.
pub(crate) fn item_stands(file: &File, item: &Item, tree: &Tree) -> bool
    ensures { result ≡ stands_at tree.now file.now item.now }
{
    is_at(item.place, tree) && parts_stand(file, item, tree)
}

// ---- numbers

fn kind_number(kind: ItemKind) -> u8
    ensures { result ≡ number_of_kind kind }
{
    match kind {
        ItemKind::Sort => 0,
        ItemKind::Protocol => 1,
        ItemKind::Label => 2,
        ItemKind::Hook => 3,
        ItemKind::World => 4,
        ItemKind::Invariant => 5,
        ItemKind::Procedure => 6,
        ItemKind::Deploy => 7,
        ItemKind::Proof => 8,
    }
}

/// Whether the items of a kind have the numbers from 0 on, in their order, up to the count.
pub(crate) fn are_numbered(kind: u8, count: usize, items: &[Item]) -> bool
    ensures { result ≡ numbered_up_to kind 0 count items.now }
{
    let mut next = 0;
    for item in items {
        if kind == kind_number(item.kind) {
            if item.at as usize != next {
                return false;
            }
            next += 1;
        }
    }
    next == count
}

pub(crate) fn count_of(deploy: &Option<Deploy>) -> usize
    ensures { result ≡ deploy_count deploy.now }
{
    match deploy {
        Some(_) => 1,
        None => 0,
    }
}

// ---- sorts

fn is_below(sort: Sort, count: usize) -> bool
    ensures { result ≡ true → sorts_match sort (below count) ≡ true }
{
    match i64::try_from(count) {
        Ok(count) => sort.low == 0 && sort.high == count - 1,
        Err(_) => false,
    }
}

fn sort_fits(sort: &SortDecl) -> bool
    ensures { result ≡ true → fits_sort sort.now ≡ true }
{
    match sort.values.as_slice() {
        [] => true,
        [_, ..] => is_below(sort.sort, sort.values.len()),
    }
}

/// Whether each sort with enumerators holds their numbers alone.
pub(crate) fn sorts_fit(sorts: &[SortDecl]) -> bool
    ensures { result ≡ true → list_all fits_sort sorts.now ≡ true }
{
    for sort in sorts {
        if !sort_fits(sort) {
            return false;
        }
    }
    true
}
