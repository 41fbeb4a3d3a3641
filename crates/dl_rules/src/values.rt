//! The values of first values.

ghost use Rattle.std.specs.Prelude.{◌≡◌, ◌∷◌, [], codes, pos, unwrap_or, IfSome, IfOk};
ghost use Rattle.dl_forms.specs.Context.{look_up};
ghost use Rattle.dl_rules.specs.Bounds.{values_of};
ghost use Rattle.dl_notation.specs.Values.{form_value, is_first_outside, is_outside, value};
ghost use Rattle.dl_scope.specs.Walked.{environment};

use crate::rules::is_outside;
use dl_scope::{Text, Walk, text_of, value_at};
use dl_tree::{Name, Tree};
use indexmap::IndexMap;
use std::alloc::AllocError;

/// The value of a name, where `me` is this node.
fn name_value<'a>(words: &IndexMap<Text<'a>, i64>, me: i64, name: &'a Name) -> i64
    ensures { result ≡ unwrap_or (look_up name.now ((codes "me", me) ∷ words.now.entries)) (pos 0) }
{
    let text = Text::new(name.as_str());
    if text.is(b"me") {
        return me;
    }
    value_at(&text, words).unwrap_or(0)
}

/// The value of a sum, a difference or a product, or nothing where it doesn't fit.
fn pair_value(word: &Text, left: i128, right: i128) -> Option<i128>
    ensures { IfSome result (λ v. v ≡ form_value word.now (left ∷ right ∷ [])) }
{
    if word.is(b"+") {
        return left.checked_add(right);
    }
    if word.is(b"-") {
        return left.checked_sub(right);
    }
    if word.is(b"*") {
        return left.checked_mul(right);
    }
    Some(0)
}

/// The value of a choice.
fn choice_value(word: &Text, left: i128, right: i128, yes: i128, no: i128) -> Option<i128>
    ensures { IfSome result (λ v. v ≡ form_value word.now (left ∷ right ∷ yes ∷ no ∷ [])) }
{
    if !word.is(b"if") {
        return Some(0);
    }
    if left == right { Some(yes) } else { Some(no) }
}

/// The value of a term that reads nothing, where `me` is this node, or nothing where a part of it doesn't fit
/// into 128 bits.
#[cycle(value)]
#[tactic(auto, using(crate::proofs::ValueLemmas::values))]
fn value<'a>(words: &IndexMap<Text<'a>, i64>, me: i64, tree: &'a Tree) -> Option<i128>
    ensures { IfSome result (λ v. v ≡ value tree.now ((codes "me", me) ∷ words.now.entries)) }
{
    match tree {
        Tree::Num { value, .. } => Some(i128::from(*value)),
        Tree::Sym { name, .. } => Some(i128::from(name_value(words, me, name))),
        Tree::List { items, .. } => match items.as_slice().split_first() {
            None => Some(0),
            Some((first, parts)) => list_value(words, me, &text_of(first), parts),
        },
    }
}

/// The same of a list that begins with a word.
#[cycle(value)]
#[tactic(auto, using(crate::proofs::ValueLemmas::values))]
fn list_value<'a>(
    words: &IndexMap<Text<'a>, i64>,
    me: i64,
    word: &Text<'a>,
    parts: &'a [Tree],
) -> Option<i128>
    ensures { IfSome result (λ v. v ≡ form_value word.now (values_of ((codes "me", me) ∷ words.now.entries) parts.now)) }
{
    match parts {
        [left, right] => {
            let left = value(words, me, left)?;
            let right = value(words, me, right)?;
            pair_value(word, left, right)
        }
        [left, right, yes, no] => {
            let left = value(words, me, left)?;
            let right = value(words, me, right)?;
            let yes = value(words, me, yes)?;
            let no = value(words, me, no)?;
            choice_value(word, left, right, yes, no)
        }
        _ => Some(0),
    }
}

/// Whether at this node the value isn't in the sort just before. Its error is a value that doesn't fit.
fn is_outside_at<'a>(walk: &Walk<'a>, me: i64, tree: &'a Tree) -> Result<bool, AllocError>
    ensures { IfOk result (λ b. b ≡ is_outside (environment walk.now).sort (value tree.now ((codes "me", me) ∷ (environment walk.now).words))) }
{
    match value(&walk.words, me, tree) {
        Some(value) => Ok(is_outside(walk.scope.sort, value)),
        None => Err(AllocError),
    }
}

/// Whether at some node the first value of a field isn't in the field's sort. Its error is a value that doesn't
/// fit into 128 bits, which no term without a fault has.
pub fn is_first_outside<'a>(walk: &Walk<'a>, tree: &'a Tree) -> Result<bool, AllocError>
    ensures { IfOk result (λ b. b ≡ is_first_outside (environment walk.now) tree.now) }
{
    let mut me: i64 = 0;
    for _node in walk.nodes.as_slice() {
        if is_outside_at(walk, me, tree)? {
            return Ok(true);
        }
        let Some(next) = me.checked_add(1) else {
            return Err(AllocError);
        };
        me = next;
    }
    Ok(false)
}
