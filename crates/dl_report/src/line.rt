//! The lines of a report, read.

ghost use Rattle.std.specs.Prelude.{◌≡◌, Some, None, MatchOption};
ghost use Rattle.dl_report.specs.Split.{words_of};
ghost use Rattle.dl_report.specs.Reading.{cut as cut_at, with_rest, word_from, entry_behind, entry_by, entry_in, state_from, ending_behind, ending_by, ending_in, order_in as order_of, head_behind, head_by, head_in};
ghost use Rattle.dl_report.specs.Small.{IsSmall};

use crate::call::call;
use crate::number::natural;
use crate::reply::{node, reply};
use crate::words::{Words, cut, is};
use dl_model::{Call, Decls, End, Entry, Order};
use dl_tree::Name;

/// What stands behind the call of an entry.
fn entry_behind(
    names: &[Name],
    decls: &Decls,
    node: u32,
    ticks: u32,
    call: Call,
    words: &mut Words<'_>,
) -> Option<Entry>
    requires { IsSmall decls.now }
    ensures { result ≡ entry_behind names.now decls.now node ticks call words.old }
{
    if !words.skip("->") {
        return None;
    }
    let Some(reply) = reply(names, decls, &call, words) else {
        return None;
    };
    if words.at_end() {
        Some(Entry {
            node,
            ticks,
            call,
            reply,
        })
    } else {
        None
    }
}

/// What stands behind the number of an entry.
fn entry_by(names: &[Name], decls: &Decls, words: &mut Words<'_>) -> Option<Entry>
    requires { IsSmall decls.now }
    ensures { result ≡ entry_by names.now decls.now words.old }
{
    let Some(node) = node(names, decls, words) else {
        return None;
    };
    let Some(ticks) = words.small() else {
        return None;
    };
    match call(names, decls, words) {
        Some(call) => entry_behind(names, decls, node, ticks, call, words),
        None => None,
    }
}

/// The entry of this number that a line without its LF says.
pub(crate) fn entry_in(names: &[Name], decls: &Decls, number: u64, line: &[u8]) -> Option<Entry>
    requires { IsSmall decls.now }
    ensures { result ≡ entry_in names.now decls.now number (words_of line.now) }
{
    let mut words = Words::of(line);
    match words.natural() {
        Some(found) if found == number => entry_by(names, decls, &mut words),
        _ => None,
    }
}

/// How a program ended.
fn state(words: &mut Words<'_>) -> Option<End>
    ensures { with_rest result words.new ≡ state_from words.old }
{
    let Some(word) = words.next() else {
        return None;
    };
    if is(word, "ended") {
        return match words.integer() {
            Some(value) => Some(End::Ended(value)),
            None => None,
        };
    }
    if is(word, "stopped") {
        Some(End::Stopped)
    } else if is(word, "spent") {
        Some(End::Spent)
    } else if is(word, "waiting") {
        Some(End::Waiting)
    } else {
        None
    }
}

/// What stands behind the state of an end.
fn ending_behind(node: u32, end: End, words: &mut Words<'_>) -> Option<(u32, End, u32)>
    ensures { result ≡ ending_behind node end words.old }
{
    if !words.skip("units") {
        return None;
    }
    match words.small() {
        Some(units) if words.at_end() => Some((node, end, units)),
        _ => None,
    }
}

/// What stands behind the first word of an end.
fn ending_by(names: &[Name], decls: &Decls, words: &mut Words<'_>) -> Option<(u32, End, u32)>
    requires { IsSmall decls.now }
    ensures { result ≡ ending_by names.now decls.now words.old }
{
    let Some(node) = node(names, decls, words) else {
        return None;
    };
    match state(words) {
        Some(end) => ending_behind(node, end, words),
        None => None,
    }
}

/// The end that a line without its LF says.
pub(crate) fn ending_in(names: &[Name], decls: &Decls, line: &[u8]) -> Option<(u32, End, u32)>
    requires { IsSmall decls.now }
    ensures { result ≡ ending_in names.now decls.now (words_of line.now) }
{
    let mut words = Words::of(line);
    if words.skip("end") {
        ending_by(names, decls, &mut words)
    } else {
        None
    }
}

/// An order of delivery, as it is written: `oldest`, `newest`, or `seed:` and a natural number below 2^64.
pub fn order_in(word: &[u8]) -> Option<Order>
    ensures { result ≡ order_of word.now }
{
    if is(word, "oldest") {
        return Some(Order::Oldest);
    }
    if is(word, "newest") {
        return Some(Order::Newest);
    }
    match cut(word, b':') {
        Some((front, back)) if is(front, "seed") => match natural(back) {
            Some(seed) => Some(Order::Seed(seed)),
            None => None,
        },
        _ => None,
    }
}

/// The word of an order of delivery.
fn order(words: &mut Words<'_>) -> Option<Order>
    ensures { with_rest result words.new ≡ word_from order_of words.old }
{
    match words.next() {
        Some(word) => order_in(word),
        None => None,
    }
}

/// What stands behind the budget.
fn head_behind(budget: u32, words: &mut Words<'_>) -> Option<(u32, Order)>
    ensures { result ≡ head_behind budget words.old }
{
    if !words.skip("order") {
        return None;
    }
    match order(words) {
        Some(order) if words.at_end() => Some((budget, order)),
        _ => None,
    }
}

/// What stands behind the first word of a report.
fn head_by(words: &mut Words<'_>) -> Option<(u32, Order)>
    ensures { result ≡ head_by words.old }
{
    if !words.skip("budget") {
        return None;
    }
    match words.small() {
        Some(budget) => head_behind(budget, words),
        None => None,
    }
}

/// The budget and the order that a first line without its LF says.
pub(crate) fn head_in(line: &[u8]) -> Option<(u32, Order)>
    ensures { result ≡ head_in (words_of line.now) }
{
    let mut words = Words::of(line);
    if words.skip("run") {
        head_by(&mut words)
    } else {
        None
    }
}
