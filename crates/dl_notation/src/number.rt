//! The numbers of the names of a tree.

ghost use Rattle.std.specs.Prelude.{◌≡◌, OnOk};
ghost use Rattle.dl_forms.specs.Table.{numbered, Extends};
ghost use Rattle.dl_notation.specs.Naming.{symbols_of, names_of_list, names_of_part, names_of_parts};

use crate::role::{ListRole, Role};
use crate::shape::{has_room, headed_form, headless_form, role_at, text_of};
use dl_forms::{Names, Position, number_names};
use dl_tree::Tree;
use std::alloc::{AllocError, Global};

/// Numbers a symbol.
#[tactic(auto, using(crate::proofs::NamingLemmas::trees))]
fn number_symbol(alloc: Global, names: &mut Names, tree: &Tree) -> Result<(), AllocError>
    ensures numbered { OnOk result (names.new ≡ numbered names.old (symbols_of tree.now)) }
    ensures kept { Extends names.old names.new }
{
    match tree {
        Tree::Sym { name, .. } => {
            names.number(alloc, name)?;
            Ok(())
        }
        Tree::Num { .. } => Ok(()),
        Tree::List { .. } => Ok(()),
    }
}

/// Numbers the names of a list, in the order in which they stand. Its only error is want of memory, and then
/// the first of them have their numbers.
#[cycle(number)]
#[tactic(auto, using(crate::proofs::NamingLemmas::trees))]
pub fn number_list(
    alloc: Global,
    names: &mut Names,
    list: ListRole,
    tree: &Tree,
) -> Result<(), AllocError>
    ensures numbered { OnOk result (names.new ≡ numbered names.old (names_of_list tree.now list)) }
    ensures kept { Extends names.old names.new }
{
    match tree {
        Tree::Num { .. } => Ok(()),
        Tree::Sym { .. } => Ok(()),
        Tree::List { items, .. } => match headless_form(list) {
            Some((fixed, rest)) => {
                let parts = items.as_slice();
                if has_room(fixed.len(), rest, parts.len()) {
                    number_parts(alloc, names, fixed, rest, parts)
                } else {
                    Ok(())
                }
            }
            None => match items.as_slice().split_first() {
                None => Ok(()),
                Some((first, parts)) => {
                    match headed_form(list, text_of(first), parts.len()) {
                        Some((fixed, rest)) => number_parts(alloc, names, fixed, rest, parts),
                        None => Ok(()),
                    }
                }
            },
        },
    }
}

/// The same of a part of a list.
#[cycle(number)]
#[tactic(auto, using(crate::proofs::NamingLemmas::trees))]
pub fn number_part(
    alloc: Global,
    names: &mut Names,
    role: Role,
    tree: &Tree,
) -> Result<(), AllocError>
    ensures numbered { OnOk result (names.new ≡ numbered names.old (names_of_part role tree.now)) }
    ensures kept { Extends names.old names.new }
{
    match role {
        Role::Number(_) | Role::Way => Ok(()),
        Role::Name(_) | Role::Constant => number_symbol(alloc, names, tree),
        Role::Formula(_) => number_names(alloc, names, Position::Formula, tree),
        Role::Term(_) => number_names(alloc, names, Position::Term, tree),
        Role::List(list) => number_list(alloc, names, list, tree),
    }
}

/// The same of the parts of a list.
#[cycle(number)]
#[tactic(auto, using(crate::proofs::NamingLemmas::trees))]
fn number_parts(
    alloc: Global,
    names: &mut Names,
    fixed: &[Role],
    rest: Option<Role>,
    parts: &[Tree],
) -> Result<(), AllocError>
    ensures numbered { OnOk result (names.new ≡ numbered names.old (names_of_parts fixed.now rest parts.now)) }
    ensures kept { Extends names.old names.new }
{
    for (i, part) in parts.iter().enumerate() {
        let Some(role) = role_at(fixed, rest, i) else {
            return Ok(());
        };
        number_part(alloc, names, role, part)?;
    }
    Ok(())
}
