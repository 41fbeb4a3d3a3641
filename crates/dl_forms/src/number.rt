//! The numbers of the names of a tree.

ghost use Rattle.std.specs.Prelude.{◌≡◌, OnOk};
ghost use Rattle.dl_forms.specs.Naming.{named, names_in, names_of_parts};
ghost use Rattle.dl_forms.specs.Table.{numbered, Extends};

use crate::form::form_of;
use crate::position::Position;
use crate::table::Names;
use dl_tree::Tree;
use std::alloc::{AllocError, Global};

/// Whether a symbol in the position is a name.
fn is_named(position: Position) -> bool
    ensures { result ≡ named position }
{
    match position {
        Position::Formula | Position::Argument => false,
        Position::Term
        | Position::Label
        | Position::Field
        | Position::Tag
        | Position::Message
        | Position::NewVariable
        | Position::NewMessage => true,
    }
}

/// Numbers the names of a tree, in the order in which they stand. Its only error is want of memory, and
/// then the first of them have their numbers.
#[cycle(number)]
#[tactic(auto, using(crate::proofs::NamingLemmas::trees))]
pub fn number_names(
    alloc: Global,
    names: &mut Names,
    position: Position,
    tree: &Tree,
) -> Result<(), AllocError>
    ensures numbered { OnOk result (names.new ≡ numbered names.old (names_in tree.now position)) }
    ensures kept { Extends names.old names.new }
{
    match tree {
        Tree::Num { .. } => Ok(()),
        Tree::Sym { name, .. } => {
            if is_named(position) {
                names.number(alloc, name)?;
            }
            Ok(())
        }
        Tree::List { items, .. } => match items.as_slice().split_first() {
            None => Ok(()),
            Some((first, parts)) => match form_of(position, first, parts.len()) {
                None => Ok(()),
                Some(form) => number_parts(alloc, names, form, parts),
            },
        },
    }
}

/// Numbers the names of the parts of a form.
#[cycle(number)]
#[tactic(auto, using(crate::proofs::NamingLemmas::trees))]
fn number_parts(
    alloc: Global,
    names: &mut Names,
    form: &[Position],
    parts: &[Tree],
) -> Result<(), AllocError>
    ensures numbered { OnOk result (names.new ≡ numbered names.old (names_of_parts form.now parts.now)) }
    ensures kept { Extends names.old names.new }
{
    for (i, part) in parts.iter().enumerate() {
        if i >= form.len() {
            return Ok(());
        }
        number_names(alloc, names, form[i], part)?;
    }
    Ok(())
}
