//! The replies of entries, read.

ghost use Rattle.std.specs.Prelude.{◌≡◌, ◌≤◌};
ghost use Rattle.dl_report.specs.Reading.{with_rest, word_from, node_in as node_of, got_by, got_behind, got_from, polled_from, reply_from};
ghost use Rattle.dl_report.specs.Small.{IsSmall};

use crate::call::{args, args_of};
use crate::named::node_in;
use crate::number::small;
use crate::words::{Words, is};
use dl_model::{Call, Decls, Reply};
use dl_tree::Name;

/// The name of a node.
pub(crate) fn node(names: &[Name], decls: &Decls, words: &mut Words<'_>) -> Option<u32>
    requires { IsSmall decls.now }
    ensures { with_rest result words.new ≡ word_from (node_of names.now decls.now) words.old }
{
    match words.next() {
        Some(word) => node_in(names, decls, word),
        None => None,
    }
}

/// The sender and the arguments of a message.
fn got_by(
    names: &[Name],
    decls: &Decls,
    count: usize,
    id: u32,
    words: &mut Words<'_>,
) -> Option<Reply>
    requires small { IsSmall decls.now }
    requires few { count ≤ 8 }
    ensures { with_rest result words.new ≡ got_by names.now decls.now count id words.old }
{
    let Some(from) = node(names, decls, words) else {
        return None;
    };
    match args(words, count) {
        Some(args) => Some(Reply::Got { id, from, args }),
        None => None,
    }
}

/// What stands behind the id of a message with so many arguments.
fn got_behind(
    names: &[Name],
    decls: &Decls,
    count: usize,
    id: u32,
    words: &mut Words<'_>,
) -> Option<Reply>
    requires small { IsSmall decls.now }
    requires few { count ≤ 8 }
    ensures { with_rest result words.new ≡ got_behind names.now decls.now count id words.old }
{
    if words.skip("from") {
        got_by(names, decls, count, id, words)
    } else {
        None
    }
}

/// A message with so many arguments.
fn got(names: &[Name], decls: &Decls, count: usize, words: &mut Words<'_>) -> Option<Reply>
    requires small { IsSmall decls.now }
    requires few { count ≤ 8 }
    ensures { with_rest result words.new ≡ got_from names.now decls.now count words.old }
{
    match words.small() {
        Some(id) => got_behind(names, decls, count, id, words),
        None => None,
    }
}

/// A miss or a message.
fn polled(names: &[Name], decls: &Decls, count: usize, words: &mut Words<'_>) -> Option<Reply>
    requires small { IsSmall decls.now }
    requires few { count ≤ 8 }
    ensures { with_rest result words.new ≡ polled_from names.now decls.now count words.old }
{
    let Some(word) = words.next() else {
        return None;
    };
    if is(word, "miss") {
        return Some(Reply::Miss);
    }
    match small(word) {
        Some(id) => got_behind(names, decls, count, id, words),
        None => None,
    }
}

/// The reply to a call.
pub(crate) fn reply(
    names: &[Name],
    decls: &Decls,
    call: &Call,
    words: &mut Words<'_>,
) -> Option<Reply>
    requires { IsSmall decls.now }
    ensures { with_rest result words.new ≡ reply_from names.now decls.now call.now words.old }
{
    match call {
        Call::Send { .. } => match words.small() {
            Some(id) => Some(Reply::Sent(id)),
            None => None,
        },
        Call::Poll { label, tag } => { polled(names, decls, args_of(decls, *label, *tag), words) }
        Call::Await { label, tag } => got(names, decls, args_of(decls, *label, *tag), words),
        Call::Read { .. } => match words.integer() {
            Some(value) => Some(Reply::Value(value)),
            None => None,
        },
    }
}
