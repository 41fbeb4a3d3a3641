//! Names by their numbers.

ghost use Rattle.std.specs.Prelude.{◌≡◌, ◌≤◌, ◌<◌, map, length, IfSome};
ghost use Rattle.std.specs.Str.{bytes_eq};
ghost use Rattle.std.specs.Option.{option_map};
ghost use Rattle.dl_forms.specs.Scope.{bindings, text_at, first_named, named_entry, named_place, named_field, bound_variables, bound_messages};

use crate::scope::Bound;
use crate::table::Names;
use dl_model::{FieldDecl, Tag};
use dl_term::{Sort, Term};
use dl_tree::Name;

/// Whether this is the name's text.
pub fn is(name: &Name, text: &[u8]) -> bool
    ensures { result ≡ bytes_eq name.now text.now }
{
    name.as_str().as_bytes() == text
}

/// Whether the number has this text.
pub fn has_text(names: &Names, sym: u32, name: &Name) -> bool
    ensures { result ≡ bytes_eq name.now (text_at names.now sym) }
{
    match names.text(sym) {
        Some(text) => name == text,
        None => is(name, b""),
    }
}

pub(crate) fn bound_variable(names: &Names, bound: &Bound, name: &Name) -> Option<u32>
    ensures { result ≡ first_named names.now name.now (bound_variables (bindings bound.now)) }
{
    match bound {
        Bound::Nothing => None,
        Bound::Variable(around, sym) => {
            if has_text(names, *sym, name) {
                Some(*sym)
            } else {
                bound_variable(names, around, name)
            }
        }
        Bound::Message(around, _) => bound_variable(names, around, name),
    }
}

pub(crate) fn bound_message(names: &Names, bound: &Bound, name: &Name) -> Option<u32>
    ensures { result ≡ first_named names.now name.now (bound_messages (bindings bound.now)) }
{
    match bound {
        Bound::Nothing => None,
        Bound::Message(around, sym) => {
            if has_text(names, *sym, name) {
                Some(*sym)
            } else {
                bound_message(names, around, name)
            }
        }
        Bound::Variable(around, _) => bound_message(names, around, name),
    }
}

pub(crate) fn variable_in(names: &Names, vars: &[(u32, Sort)], name: &Name) -> Option<u32>
    ensures { result ≡ first_named names.now name.now (map (λ v. v.0) vars.now) }
{
    for (sym, _) in vars {
        if has_text(names, *sym, name) {
            return Some(*sym);
        }
    }
    None
}

pub(crate) fn message_in(names: &Names, messages: &[(u32, u8, u8)], name: &Name) -> Option<u32>
    ensures { result ≡ first_named names.now name.now (map (λ m. m.0) messages.now) }
{
    for (sym, _, _) in messages {
        if has_text(names, *sym, name) {
            return Some(*sym);
        }
    }
    None
}

pub(crate) fn word_in(names: &Names, words: &[(u32, i64)], name: &Name) -> Option<Term>
    ensures { result ≡ option_map (λ w. Term.Word w.0 w.1) (named_entry names.now name.now words.now) }
{
    for word in words {
        if has_text(names, word.0, name) {
            return Some(Term::Word {
                sym: word.0,
                value: word.1,
            });
        }
    }
    None
}

/// The place of the first number with this text.
pub(crate) fn place_in(names: &Names, syms: &[u32], name: &Name) -> Option<u8>
    requires { length syms.now ≤ 255 }
    ensures value { result ≡ named_place names.now name.now syms.now }
    ensures within { IfSome result (λ place. place < length syms.now) }
{
    match syms.split_first() {
        None => None,
        Some((sym, rest)) => {
            if has_text(names, *sym, name) {
                Some(0)
            } else {
                match place_in(names, rest, name) {
                    Some(place) => Some(place + 1),
                    None => None,
                }
            }
        }
    }
}

/// The place of the first field with this text, and whether it is a row.
pub(crate) fn field_in(names: &Names, fields: &[FieldDecl], name: &Name) -> Option<(u8, bool)>
    requires { length fields.now ≤ 255 }
    ensures value { result ≡ named_field names.now name.now fields.now }
    ensures within { IfSome result (λ f. f.0 < length fields.now) }
{
    match fields.split_first() {
        None => None,
        Some((field, rest)) => {
            if has_text(names, field.sym, name) {
                Some((0, field.row))
            } else {
                match field_in(names, rest, name) {
                    Some((place, row)) => Some((place + 1, row)),
                    None => None,
                }
            }
        }
    }
}

/// The place of the first tag with this text.
pub(crate) fn tag_in(names: &Names, tags: &[Tag], name: &Name) -> Option<u8>
    requires { length tags.now ≤ 255 }
    ensures value { result ≡ named_place names.now name.now (map (λ t. t.sym) tags.now) }
    ensures within { IfSome result (λ place. place < length tags.now) }
{
    match tags.split_first() {
        None => None,
        Some((tag, rest)) => {
            if has_text(names, tag.sym, name) {
                Some(0)
            } else {
                match tag_in(names, rest, name) {
                    Some(place) => Some(place + 1),
                    None => None,
                }
            }
        }
    }
}
