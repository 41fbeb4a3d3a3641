//! How large the value of a term may be.

ghost use Rattle.std.specs.Prelude.{◌≡◌, ◌≤◌, ◌*◌, ◌+◌, ◌^◌, min, map};
ghost use Rattle.dl_forms.specs.Context.{look_up};
ghost use Rattle.dl_forms.specs.Scope.{words_of, text_at};
ghost use Rattle.dl_forms.specs.Width.{is_wide, width, widths_of, form_width, word_width};

use crate::around::Around;
use crate::head::{Head, head_of};
use crate::names::has_text;
use crate::position::Position;
use crate::table::Names;
use dl_tree::{Name, Tree};

const LIMIT: u128 = 170141183460469231731687303715884105728;

fn word_width(names: &Names, words: &[(u32, i64)], name: &Name) -> u128
    ensures bound { result ≤ 2 ^ 63 }
    ensures value { result ≡ word_width (look_up name.now (map (λ w. (text_at names.now w.0, w.1)) words.now)) }
{
    for word in words {
        if has_text(names, word.0, name) {
            return word.1.unsigned_abs() as u128;
        }
    }
    9223372036854775808
}

fn sum(left: u128, right: u128) -> u128
    requires left { left ≤ 2 ^ 127 }
    requires right { right ≤ 2 ^ 127 }
    ensures bound { result ≤ 2 ^ 127 }
    ensures value { result ≡ min (left + right) (2 ^ 127) }
{
    left.saturating_add(right).min(LIMIT)
}

fn product(left: u128, right: u128) -> u128
    requires left { left ≤ 2 ^ 127 }
    requires right { right ≤ 2 ^ 127 }
    ensures bound { result ≤ 2 ^ 127 }
    ensures value { result ≡ min (left * right) (2 ^ 127) }
{
    left.saturating_mul(right).min(LIMIT)
}

/// The width, or 2 ^ 127 where it is larger.
#[cycle(width)]
#[tactic(auto, using(crate::proofs::WidthLemmas::sizes))]
fn width(around: &Around, tree: &Tree) -> u128
    ensures bound { result ≤ 2 ^ 127 }
    ensures value { result ≡ min (width tree.now (words_of around.now.names.now around.now.scope.now)) (2 ^ 127) }
{
    match tree {
        Tree::Num { value, .. } => value.unsigned_abs() as u128,
        Tree::Sym { name, .. } => word_width(around.names, around.scope.words.as_slice(), name),
        Tree::List { items, .. } => match items.as_slice().split_first() {
            None => 9223372036854775808,
            Some((first, parts)) => form_width(around, head_of(first), parts),
        },
    }
}

#[cycle(width)]
#[tactic(auto, using(crate::proofs::WidthLemmas::sizes))]
fn form_width(around: &Around, head: Head, parts: &[Tree]) -> u128
    ensures bound { result ≤ 2 ^ 127 }
    ensures value { result ≡ min (form_width head (widths_of (words_of around.now.names.now around.now.scope.now) parts.now)) (2 ^ 127) }
{
    match head {
        Head::Add | Head::Sub => match parts {
            [left, right] => sum(width(around, left), width(around, right)),
            _ => 9223372036854775808,
        },
        Head::Mul => match parts {
            [left, right] => product(width(around, left), width(around, right)),
            _ => 9223372036854775808,
        },
        Head::If => match parts {
            [_, _, yes, no] => width(around, yes).max(width(around, no)),
            _ => 9223372036854775808,
        },
        _ => 9223372036854775808,
    }
}

/// Whether the value of a term may pass 2 ^ 127 - 1.
pub(crate) fn is_wide(around: &Around, head: Head, parts: &[Tree]) -> bool
    ensures { result ≡ is_wide (words_of around.now.names.now around.now.scope.now) Position.Term head parts.now }
{
    form_width(around, head, parts) == LIMIT
}
