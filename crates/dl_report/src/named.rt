//! Words that name nodes, labels, tags and fields.

ghost use Rattle.std.specs.Prelude.{◌≡◌, ◌<◌, ◌≤◌, ◌+◌, map, length, Some, None, IfSome, MatchOption};
ghost use Rattle.std.specs.Str.{bytes_eq};
ghost use Rattle.dl_model.specs.Lookup.{protocol_at};
ghost use Rattle.dl_model.specs.Sorts.{is_node as is_node_of};
ghost use Rattle.dl_report.specs.Layout.{name_at, node_word};
ghost use Rattle.dl_report.specs.Small.{IsSmall};
ghost use Rattle.dl_report.specs.Reading.{node_in, place_in as place_of, tag_in as tag_of, field_in as field_of, label_in as label_of, addressee_in};

use crate::number::integer;
use crate::words::cut;
use dl_model::{Decls, FieldDecl, Instances, Tag};
use dl_tree::Name;

/// The number of the first name of a file, which is that of its first node.
pub(crate) const FIRST_NAME: usize = 18;

/// The text of a name's number, which is empty for a number that wasn't given out.
#[inline(always)]
pub(crate) fn text_at(names: &[Name], sym: usize) -> &str
    ensures { result.now ≡ name_at names.now sym }
{
    match names.get(sym) {
        Some(name) => name.as_str(),
        None => "",
    }
}

/// Whether the number has this text.
fn has_text(names: &[Name], sym: usize, word: &[u8]) -> bool
    ensures { result ≡ bytes_eq (name_at names.now sym) word.now }
{
    text_at(names, sym).as_bytes() == word
}

/// The node of this name.
pub(crate) fn node_in(names: &[Name], decls: &Decls, word: &[u8]) -> Option<u32>
    requires { IsSmall decls.now }
    ensures { result ≡ node_in names.now decls.now word.now }
{
    for node in 0..decls.inst.nodes {
        if has_text(names, FIRST_NAME + node as usize, word) {
            return Some(node);
        }
    }
    None
}

/// The place of the first number with this text.
fn place_in(names: &[Name], syms: &[u32], word: &[u8]) -> Option<u8>
    requires { length syms.now ≤ 255 }
    ensures value { result ≡ place_of names.now word.now syms.now }
    ensures within { IfSome result (λ at. at < length syms.now) }
{
    let Some((sym, rest)) = syms.split_first() else {
        return None;
    };
    if has_text(names, *sym as usize, word) {
        return Some(0);
    }
    match place_in(names, rest, word) {
        Some(at) => Some(at + 1),
        None => None,
    }
}

/// The place of the first tag with this text.
fn place_of_tag(names: &[Name], tags: &[Tag], word: &[u8]) -> Option<u8>
    requires { length tags.now ≤ 255 }
    ensures value { result ≡ place_of names.now word.now (map (λ t. t.sym) tags.now) }
    ensures within { IfSome result (λ at. at < length tags.now) }
{
    let Some((tag, rest)) = tags.split_first() else {
        return None;
    };
    if has_text(names, tag.sym as usize, word) {
        return Some(0);
    }
    match place_of_tag(names, rest, word) {
        Some(at) => Some(at + 1),
        None => None,
    }
}

/// The place of the first field with this text.
fn place_of_field(names: &[Name], fields: &[FieldDecl], word: &[u8]) -> Option<u8>
    requires { length fields.now ≤ 255 }
    ensures value { result ≡ place_of names.now word.now (map (λ f. f.sym) fields.now) }
    ensures within { IfSome result (λ at. at < length fields.now) }
{
    let Some((field, rest)) = fields.split_first() else {
        return None;
    };
    if has_text(names, field.sym as usize, word) {
        return Some(0);
    }
    match place_of_field(names, rest, word) {
        Some(at) => Some(at + 1),
        None => None,
    }
}

/// The tags of a label's protocol.
#[inline(always)]
pub(crate) fn tags_of(inst: &Instances, label: u8) -> &[Tag]
    ensures { result.now ≡ (protocol_at inst.now label).tags }
{
    let Some(number) = inst.of.get(usize::from(label)) else {
        return &[];
    };
    match inst.protocols.get(usize::from(*number)) {
        Some(protocol) => protocol.tags.as_slice(),
        None => &[],
    }
}

/// The fields of a label's protocol.
pub(crate) fn fields_of(inst: &Instances, label: u8) -> &[FieldDecl]
    ensures { result.now ≡ (protocol_at inst.now label).fields }
{
    let Some(number) = inst.of.get(usize::from(label)) else {
        return &[];
    };
    match inst.protocols.get(usize::from(*number)) {
        Some(protocol) => protocol.fields.as_slice(),
        None => &[],
    }
}

/// The tag of this name at a label.
pub(crate) fn tag_in(names: &[Name], decls: &Decls, label: u8, word: &[u8]) -> Option<u8>
    requires { IsSmall decls.now }
    ensures { result ≡ tag_of names.now decls.now label word.now }
{
    place_of_tag(names, tags_of(&decls.inst, label), word)
}

/// The field of this name at a label, and whether it is a row.
pub(crate) fn field_in(names: &[Name], decls: &Decls, label: u8, word: &[u8]) -> Option<(u8, bool)>
    requires { IsSmall decls.now }
    ensures { result ≡ field_of names.now decls.now label word.now }
{
    let fields = fields_of(&decls.inst, label);
    let Some(at) = place_of_field(names, fields, word) else {
        return None;
    };
    match fields.get(usize::from(at)) {
        Some(field) => Some((at, field.row)),
        None => None,
    }
}

/// The label that stands before the dot of a word, and what stands behind it.
pub(crate) fn label_in<'a>(names: &[Name], decls: &Decls, word: &'a [u8]) -> Option<(u8, &'a [u8])>
    requires { IsSmall decls.now }
    ensures { MatchOption result (label_of names.now decls.now word.now ≡ None) (λ found. label_of names.now decls.now word.now ≡ Some (found.0, found.1.now)) }
{
    let Some((front, back)) = cut(word, b'.') else {
        return None;
    };
    match place_in(names, decls.labels.as_slice(), front) {
        Some(label) => Some((label, back)),
        None => None,
    }
}

/// Whether a number is a node.
fn is_node(decls: &Decls, number: i64) -> bool
    ensures { result ≡ is_node_of decls.now.inst.nodes number }
{
    0 <= number && number < i64::from(decls.inst.nodes)
}

/// An addressee: the name of a node, or a number that is no node.
pub(crate) fn addressee_in(names: &[Name], decls: &Decls, word: &[u8]) -> Option<i64>
    requires { IsSmall decls.now }
    ensures { result ≡ addressee_in names.now decls.now word.now }
{
    if let Some(node) = node_in(names, decls, word) {
        return Some(i64::from(node));
    }
    match integer(word) {
        Some(number) if !is_node(decls, number) => Some(number),
        _ => None,
    }
}
