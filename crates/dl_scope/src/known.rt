//! What a name stands for.

ghost use Rattle.std.specs.Prelude.{◌≡◌, ◌∷◌, [], is_some, map, slice_get, IfOk};
ghost use Rattle.std.specs.Option.{option_copied, option_map};
ghost use Rattle.dl_forms.specs.Context.{look_up, is_among};
ghost use Rattle.dl_notation.specs.Environment.{below, sort_named, protocol_number, protocol_of, tag_of, row_of, arguments_of};
ghost use Rattle.dl_scope.specs.Walked.{environment};

use crate::declared::{Procedure, Protocol, Tag, World};
use crate::names::look_up;
use crate::text::Text;
use crate::walk::Walk;
use dl_term::Sort;
use indexmap::IndexMap;
use std::alloc::AllocError;

/// What stands beside a text in a map.
pub fn value_at<'a, V: Copy>(text: &Text<'a>, map: &IndexMap<Text<'a>, V>) -> Option<V>
    ensures { result ≡ look_up text.now map.now.entries }
{
    map.get(text).copied()
}

/// The sort `int`.
pub const INT: Sort = Sort {
    low: i64::MIN,
    high: i64::MAX,
};

/// The sort `bool`.
const BOOL: Sort = Sort { low: 0, high: 1 };

/// The numbers below a count. Its only error is a count that passes 2^63 - 1, which no list's length does.
pub fn below(count: usize) -> Result<Sort, AllocError>
    ensures { IfOk result (λ sort. sort ≡ below count) }
{
    if count > 9_223_372_036_854_775_807 {
        return Err(AllocError);
    }
    Ok(Sort {
        low: 0,
        high: count as i64 - 1,
    })
}

/// The sort of a name. Its only error is a number of nodes that passes 2^63 - 1.
pub fn sort_named<'a>(walk: &Walk<'a>, text: &Text<'a>) -> Result<Option<Sort>, AllocError>
    ensures { IfOk result (λ sort. sort ≡ sort_named (environment walk.now) text.now) }
{
    if text.is(b"int") {
        return Ok(Some(INT));
    }
    if text.is(b"bool") {
        return Ok(Some(BOOL));
    }
    if text.is(b"node") {
        return Ok(Some(below(walk.nodes.len())?));
    }
    Ok(value_at(text, &walk.sorts))
}

/// Whether the name is that of a sort.
pub fn is_sort<'a>(walk: &Walk<'a>, text: &Text<'a>) -> bool
    ensures { result ≡ is_some (sort_named (environment walk.now) text.now) }
{
    text.is(b"int") || text.is(b"bool") || text.is(b"node") || value_at(text, &walk.sorts).is_some()
}

/// The number of a protocol.
pub fn protocol_number<'a>(walk: &Walk<'a>, text: &Text<'a>) -> Option<usize>
    ensures { result ≡ protocol_number (environment walk.now) text.now }
{
    for (i, protocol) in walk.protocols.as_slice().iter().enumerate() {
        if *text == protocol.0 {
            return Some(i);
        }
    }
    None
}

/// The protocol of a name.
pub fn protocol_named<'x, 'a>(walk: &'x Walk<'a>, text: &Text<'a>) -> Option<&'x Protocol<'a>>
    ensures { option_copied result ≡ look_up text.now (environment walk.now).protocols }
{
    look_up(text, walk.protocols.as_slice())
}

/// The number of a label's protocol.
pub fn label_named<'a>(walk: &Walk<'a>, text: &Text<'a>) -> Option<usize>
    ensures { result ≡ look_up text.now (environment walk.now).labels }
{
    look_up(text, walk.labels.as_slice()).copied()
}

/// The protocol with a number.
pub fn protocol_at<'x, 'a>(walk: &'x Walk<'a>, number: usize) -> Option<&'x Protocol<'a>>
    ensures { option_copied result ≡ option_map (λ p. p.1) (slice_get (environment walk.now).protocols number) }
{
    match walk.protocols.get(number) {
        Some(protocol) => Some(&protocol.1),
        None => None,
    }
}

/// The protocol of a label.
pub(crate) fn protocol_of<'x, 'a>(walk: &'x Walk<'a>, label: &Text<'a>) -> Option<&'x Protocol<'a>>
    ensures { option_copied result ≡ protocol_of (environment walk.now) label.now }
{
    match label_named(walk, label) {
        Some(number) => protocol_at(walk, number),
        None => None,
    }
}

/// A tag of a label.
pub fn tag_of<'x, 'a>(walk: &'x Walk<'a>, label: &Text<'a>, tag: &Text<'a>) -> Option<&'x Tag>
    ensures { option_copied result ≡ tag_of (environment walk.now) label.now tag.now }
{
    match protocol_of(walk, label) {
        Some(protocol) => look_up(tag, protocol.tags.as_slice()),
        None => None,
    }
}

/// Whether a field of a label is a row, where it is one of its fields.
pub fn row_of<'a>(walk: &Walk<'a>, label: &Text<'a>, field: &Text<'a>) -> Option<bool>
    ensures { result ≡ row_of (environment walk.now) label.now field.now }
{
    match protocol_of(walk, label) {
        Some(protocol) => look_up(field, protocol.fields.as_slice()).copied(),
        None => None,
    }
}

/// How many arguments the messages of a label's tag have.
pub fn arguments_of<'a>(walk: &Walk<'a>, label: &Text<'a>, tag: &Text<'a>) -> Option<usize>
    ensures { result ≡ arguments_of (environment walk.now) label.now tag.now }
{
    match tag_of(walk, label, tag) {
        Some(tag) => Some(tag.arguments),
        None => None,
    }
}

/// The world of a name.
pub(crate) fn world_named<'x, 'a>(walk: &'x Walk<'a>, text: &Text<'a>) -> Option<&'x World<'a>>
    ensures { option_copied result ≡ look_up text.now (environment walk.now).worlds }
{
    look_up(text, walk.worlds.as_slice())
}

/// The procedure of a name.
pub fn procedure_named<'x, 'a>(walk: &'x Walk<'a>, text: &Text<'a>) -> Option<&'x Procedure<'a>>
    ensures { option_copied result ≡ look_up text.now (environment walk.now).procedures }
{
    look_up(text, walk.procedures.as_slice())
}

/// Whether a node has this name.
pub fn is_node<'a>(walk: &Walk<'a>, text: &Text<'a>) -> bool
    ensures { result ≡ is_among text.now (environment walk.now).nodes }
{
    crate::names::is_among(text, walk.nodes.as_slice())
}
