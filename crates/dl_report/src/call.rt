//! The calls of entries, read.

ghost use Rattle.std.specs.Prelude.{◌≡◌, ◌≤◌, Some, None};
ghost use Rattle.dl_report.specs.Reading.{with_rest, kind_in, word_from, args_of, args_from, send_from, read_from, call_of, call_from, label_in as label_of, addressee_in as addressee_of};
ghost use Rattle.dl_report.specs.Small.{IsSmall};

use crate::named::{addressee_in, field_in, label_in, tag_in, tags_of};
use crate::words::{Words, is};
use dl_model::{Args, Call, Decls};
use dl_tree::Name;

/// What kind of call a word names.
#[derive(Clone, Copy, Debug, Drop, PartialEq, Eq)]
pub(crate) enum Kind {
    Send,
    Poll,
    Await,
    Read,
}

/// The kind of call that a word names.
fn kind_in(word: &[u8]) -> Option<Kind>
    ensures { result ≡ kind_in word.now }
{
    if is(word, "send") {
        Some(Kind::Send)
    } else if is(word, "poll") {
        Some(Kind::Poll)
    } else if is(word, "await") {
        Some(Kind::Await)
    } else if is(word, "read") {
        Some(Kind::Read)
    } else {
        None
    }
}

/// How many arguments a tag has.
pub(crate) fn args_of(decls: &Decls, label: u8, tag: u8) -> usize
    requires { IsSmall decls.now }
    ensures count { result ≡ args_of decls.now label tag }
    ensures few { result ≤ 8 }
{
    match tags_of(&decls.inst, label).get(usize::from(tag)) {
        Some(tag) => tag.args.len(),
        None => 0,
    }
}

/// So many numbers.
pub(crate) fn args(words: &mut Words<'_>, count: usize) -> Option<Args>
    requires { count ≤ 8 }
    ensures { with_rest result words.new ≡ args_from count words.old }
{
    let mut values = [0; 8];
    for at in 0..count {
        match words.integer() {
            Some(value) => values[at] = value,
            None => return None,
        }
    }
    Some(Args {
        count: count as u8,
        values,
    })
}

/// The addressee of a send.
fn addressee(names: &[Name], decls: &Decls, words: &mut Words<'_>) -> Option<i64>
    requires { IsSmall decls.now }
    ensures { with_rest result words.new ≡ word_from (addressee_of names.now decls.now) words.old }
{
    match words.next() {
        Some(word) => addressee_in(names, decls, word),
        None => None,
    }
}

/// The addressee and the arguments of a send.
fn send(names: &[Name], decls: &Decls, label: u8, tag: u8, words: &mut Words<'_>) -> Option<Call>
    requires { IsSmall decls.now }
    ensures { with_rest result words.new ≡ send_from names.now decls.now label tag words.old }
{
    let Some(to) = addressee(names, decls, words) else {
        return None;
    };
    match args(words, args_of(decls, label, tag)) {
        Some(args) => Some(Call::Send {
            label,
            tag,
            to,
            args,
        }),
        None => None,
    }
}

/// The index of a read, exactly where the field is a row.
fn read(label: u8, field: u8, row: bool, words: &mut Words<'_>) -> Option<Call>
    ensures { with_rest result words.new ≡ read_from label field row words.old }
{
    if !row {
        return Some(Call::Read {
            label,
            field,
            index: None,
        });
    }
    match words.integer() {
        Some(index) => Some(Call::Read {
            label,
            field,
            index: Some(index),
        }),
        None => None,
    }
}

/// What stands behind the label of a call.
fn call_at(
    names: &[Name],
    decls: &Decls,
    kind: Kind,
    label: u8,
    word: &[u8],
    words: &mut Words<'_>,
) -> Option<Call>
    requires { IsSmall decls.now }
    ensures { with_rest result words.new ≡ call_of names.now decls.now kind label word.now words.old }
{
    match kind {
        Kind::Send => match tag_in(names, decls, label, word) {
            Some(tag) => send(names, decls, label, tag, words),
            None => None,
        },
        Kind::Poll => match tag_in(names, decls, label, word) {
            Some(tag) => Some(Call::Poll { label, tag }),
            None => None,
        },
        Kind::Await => match tag_in(names, decls, label, word) {
            Some(tag) => Some(Call::Await { label, tag }),
            None => None,
        },
        Kind::Read => match field_in(names, decls, label, word) {
            Some((field, row)) => read(label, field, row, words),
            None => None,
        },
    }
}

/// The word of a call's kind.
fn next_kind(words: &mut Words<'_>) -> Option<Kind>
    ensures { with_rest result words.new ≡ word_from kind_in words.old }
{
    match words.next() {
        Some(word) => kind_in(word),
        None => None,
    }
}

/// A call.
pub(crate) fn call(names: &[Name], decls: &Decls, words: &mut Words<'_>) -> Option<Call>
    requires { IsSmall decls.now }
    ensures { with_rest result words.new ≡ call_from names.now decls.now words.old }
{
    let Some(kind) = next_kind(words) else {
        return None;
    };
    let Some(word) = words.next() else {
        return None;
    };
    let Some((label, name)) = label_in(names, decls, word) else {
        return None;
    };
    call_at(names, decls, kind, label, name, words)
}
