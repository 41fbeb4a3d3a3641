//! The names that the quantifiers of a formula bind.

ghost use Rattle.std.specs.Prelude.{◌≡◌, OnOk};
ghost use Rattle.dl_notation.specs.Behind.{with_texts};
ghost use Rattle.dl_notation.specs.Bound.{bound_in, is_binding};
ghost use Rattle.dl_rules.specs.Bounds.{bound_in_parts};

use dl_forms::{Position, form_of};
use dl_scope::{Text, add};
use dl_tree::Tree;
use indexmap::IndexSet;
use std::alloc::AllocError;

/// Whether a quantifier binds the name in the position.
fn is_binding(position: Position) -> bool
    ensures { result ≡ is_binding position }
{
    match position {
        Position::NewVariable | Position::NewMessage => true,
        Position::Term | Position::Formula | Position::Label | Position::Field => false,
        Position::Tag | Position::Message | Position::Argument => false,
    }
}

/// Adds the names that the quantifiers of a tree bind. Its only error is want of memory.
#[cycle(bound)]
#[tactic(auto, using(crate::proofs::BoundLemmas::bounds))]
pub fn add_bound<'a>(
    texts: &mut IndexSet<Text<'a>>,
    position: Position,
    tree: &'a Tree,
) -> Result<(), AllocError>
    ensures { OnOk result (texts.new.keys ≡ with_texts texts.old.keys (bound_in tree.now position)) }
{
    match tree {
        Tree::Num { .. } => Ok(()),
        Tree::Sym { name, .. } => {
            if is_binding(position) {
                return add(texts, Text::new(name.as_str()));
            }
            Ok(())
        }
        Tree::List { items, .. } => match items.as_slice().split_first() {
            None => Ok(()),
            Some((first, parts)) => match form_of(position, first, parts.len()) {
                None => Ok(()),
                Some(form) => add_bound_parts(texts, form, parts),
            },
        },
    }
}

/// The same of the parts of a form.
#[cycle(bound)]
#[tactic(auto, using(crate::proofs::BoundLemmas::bounds))]
fn add_bound_parts<'a>(
    texts: &mut IndexSet<Text<'a>>,
    form: &[Position],
    parts: &'a [Tree],
) -> Result<(), AllocError>
    ensures { OnOk result (texts.new.keys ≡ with_texts texts.old.keys (bound_in_parts form.now parts.now)) }
{
    for (i, part) in parts.iter().enumerate() {
        if i >= form.len() {
            return Ok(());
        }
        add_bound(texts, form[i], part)?;
    }
    Ok(())
}
