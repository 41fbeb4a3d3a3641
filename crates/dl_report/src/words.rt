//! The words of a line.

ghost use Rattle.std.specs.Prelude.{◌≡◌, [], ◌∷◌, ◌≤◌, length, IsTrue, ◌↔◌, Some, None, MatchOption};
ghost use Rattle.std.specs.List.{prefix_len};
ghost use Rattle.std.specs.Str.{bytes_eq};
ghost use Rattle.dl_report.specs.Reading.{cut as cut_at, is_other as is_other_of, word_from, with_rest, is_next, rest_of, natural_in, small_in, integer_in};

use crate::number::{integer, natural, small};
use std::marker::Model;

fn is_other(b: u8, byte: u8) -> bool
    ensures { result ≡ is_other_of byte b }
{
    b != byte
}

/// How many bytes stand before the first such byte.
fn length_before(bytes: &[u8], byte: u8) -> usize
    ensures value { result ≡ prefix_len (is_other_of byte) bytes.now }
    ensures bound { result ≤ length bytes.now }
{
    bytes.iter().take_while(|b| is_other(**b, byte)).count()
}

/// What stands before the first such byte, and behind it.
#[tactic(auto, using(crate::proofs::Pieces::cut_missing, crate::proofs::Pieces::cut_there))]
pub(crate) fn cut(bytes: &[u8], byte: u8) -> Option<(&[u8], &[u8])>
    ensures { MatchOption result (cut_at byte bytes.now ≡ None) (λ parts. cut_at byte bytes.now ≡ Some (parts.0.now, parts.1.now)) }
{
    let at = length_before(bytes, byte);
    if at == bytes.len() {
        return None;
    }
    Some((&bytes[..at], &bytes[at + 1..]))
}

/// Whether this is the word.
pub(crate) fn is(word: &[u8], text: &str) -> bool
    ensures { result ≡ bytes_eq word.now text.now }
{
    word == text.as_bytes()
}

/// The words of a line that are still to be read. Contracts see them as a list.
#[derive(Drop)]
pub(crate) struct Words<'a> {
    bytes: &'a [u8],
    over: bool,
}

impl<'a> Model for Words<'a> {
    ghost use Rattle.std.specs.Prelude.{List, ℕ};
    ghost use Rattle.dl_report.specs.Split.{words_left};

    ghost Value = { List (List ℕ) };

    ghost view = { λ words. words_left words.over words.bytes.now };
}

impl<'a> Words<'a> {
    ghost use Rattle.dl_report.specs.Split.{words_of};

    /// The words of a line without its LF.
    pub(crate) fn of(line: &'a [u8]) -> Words<'a>
        ensures { result ≡ words_of line.now }
    {
        Words {
            bytes: line,
            over: false,
        }
    }

    /// The next word.
    #[tactic(auto, using(crate::proofs::Pieces::words_cut, crate::proofs::Pieces::words_uncut))]
    pub(crate) fn next(&mut self) -> Option<&'a [u8]>
        ensures { MatchOption result ((self.old ≡ []) × (self.new ≡ [])) (λ word. self.old ≡ word.now ∷ self.new) }
    {
        if self.over {
            return None;
        }
        match cut(self.bytes, b' ') {
            Some((word, rest)) => {
                self.bytes = rest;
                Some(word)
            }
            None => {
                self.over = true;
                Some(self.bytes)
            }
        }
    }

    /// Whether no word is left.
    pub(crate) fn at_end(&self) -> bool
        ensures { IsTrue result ↔ (self.now ≡ []) }
    {
        self.over
    }

    /// Whether this is the next word, which is taken.
    pub(crate) fn skip(&mut self, word: &str) -> bool
        ensures is { result ≡ is_next word.now self.old }
        ensures rest { self.new ≡ rest_of self.old }
    {
        match self.next() {
            Some(next) => is(next, word),
            None => false,
        }
    }

    /// A natural number below 2^64.
    pub(crate) fn natural(&mut self) -> Option<u64>
        ensures { with_rest result self.new ≡ word_from natural_in self.old }
    {
        match self.next() {
            Some(word) => natural(word),
            None => None,
        }
    }

    /// A natural number below 2^32.
    pub(crate) fn small(&mut self) -> Option<u32>
        ensures { with_rest result self.new ≡ word_from small_in self.old }
    {
        match self.next() {
            Some(word) => small(word),
            None => None,
        }
    }

    /// A number of i64.
    pub(crate) fn integer(&mut self) -> Option<i64>
        ensures { with_rest result self.new ≡ word_from integer_in self.old }
    {
        match self.next() {
            Some(word) => integer(word),
            None => None,
        }
    }
}
