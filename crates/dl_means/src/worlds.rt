//! Worlds by the texts of their names.

ghost use Rattle.std.specs.Prelude.{◌≡◌, ◌≤◌, ◌++◌, ◌∷◌, [], map, length, IfOk, OnOk};
ghost use Rattle.dl_forms.specs.Context.{is_among as is_in};
ghost use Rattle.dl_notation.specs.Worlds.{no_world, without, united};
ghost use Rattle.dl_notation.specs.Behind.{names_behind_word as texts_behind_word};
ghost use Rattle.dl_notation.specs.Obligations.{texts_of as all_texts};
ghost use Rattle.dl_means.specs.Seen.{seen_world};

use crate::trees::{parts_of, text_of};
use dl_tree::{Name, Tree};
use sqlite_items::Items;
use std::alloc::{AllocError, Global};

/// The names of the labels and the hooks of a world.
#[derive(Drop)]
pub(crate) struct WorldTexts {
    pub labels: Items<Name>,
    pub hooks: Items<Name>,
}

/// A world with its name.
#[derive(Drop)]
pub(crate) struct NamedWorld {
    pub name: Name,
    pub world: WorldTexts,
}

/// The texts of these parts.
fn texts_of(alloc: Global, parts: &[Tree]) -> Result<Items<Name>, AllocError>
    ensures { IfOk result (λ texts. texts ≡ all_texts parts.now) }
{
    let mut texts = Items::new(alloc);
    for part in parts {
        texts.push(Name::new(alloc, text_of(part))?)?;
    }
    Ok(texts)
}

/// The names that stand in a list behind its word.
pub(crate) fn names_behind_word(alloc: Global, tree: &Tree) -> Result<Items<Name>, AllocError>
    ensures { IfOk result (λ texts. texts ≡ texts_behind_word tree.now) }
{
    match parts_of(tree) {
        [] => Ok(Items::new(alloc)),
        [_, parts @ ..] => texts_of(alloc, parts),
    }
}

/// Whether the text is one of these names.
fn is_among(text: &Name, names: &[Name]) -> bool
    ensures { result ≡ is_in text.now names.now }
{
    for name in names {
        if text == name {
            return true;
        }
    }
    false
}

/// Adds copies of names.
fn add_all(alloc: Global, names: &[Name], all: &mut Items<Name>) -> Result<(), AllocError>
    ensures { OnOk result (all.new ≡ all.old ++ names.now) }
{
    for name in names {
        all.push(name.copy(alloc)?)?;
    }
    Ok(())
}

/// Adds copies of the names that aren't among the first ones.
fn add_others(
    alloc: Global,
    first: &[Name],
    names: &[Name],
    all: &mut Items<Name>,
) -> Result<(), AllocError>
    ensures { OnOk result (all.new ≡ all.old ++ without first.now names.now) }
{
    for name in names {
        if !is_among(name, first) {
            all.push(name.copy(alloc)?)?;
        }
    }
    Ok(())
}

/// The names of the first list and then the other ones of the second.
pub(crate) fn union(
    alloc: Global,
    first: &[Name],
    second: &[Name],
) -> Result<Items<Name>, AllocError>
    ensures { IfOk result (λ all. all ≡ united first.now second.now) }
{
    let mut all = Items::new(alloc);
    add_all(alloc, first, &mut all)?;
    add_others(alloc, first, second, &mut all)?;
    Ok(all)
}

/// A world without labels and hooks.
pub(crate) fn no_labels(alloc: Global) -> WorldTexts
    ensures { seen_world result ≡ no_world }
{
    WorldTexts {
        labels: Items::new(alloc),
        hooks: Items::new(alloc),
    }
}

/// The world of the lists of its labels and its hooks.
pub(crate) fn listed(alloc: Global, labels: &Tree, hooks: &Tree) -> Result<WorldTexts, AllocError>
    ensures { IfOk result (λ world. seen_world world ≡ record { labels = texts_behind_word labels.now; hooks = texts_behind_word hooks.now }) }
{
    let labels = names_behind_word(alloc, labels)?;
    let hooks = names_behind_word(alloc, hooks)?;
    Ok(WorldTexts { labels, hooks })
}
