//! What is left of a text, and its tokens.

ghost use Rattle.std.specs.Prelude.{◌≡◌, ◌+◌, ◌^◌, ◌<◌, ◌≤◌, [], ◌∷◌, length, true, false, not, ◌&&◌, ◌||◌, MatchOption, IfSome, IfNone};
ghost use Rattle.std.specs.List.{prefix_len};
ghost use Rattle.dl_tree.specs.Lexeme.{token_of, IsLexeme};
ghost use Rattle.dl_tree.specs.Text.{class_of, is_allowed, is_run, in_run, bad_byte, in_comment, next_place, start, is_token, begins_token, tokens_of, end_of};

use crate::tree::Place;
use std::marker::Model;

/// What a byte outside comments is.
#[derive(Clone, Copy, Drop)]
pub(crate) enum Class {
    Blank,
    Semicolon,
    Parenthesis,
    Run,
}

/// The class of a byte.
#[tactic(auto, unfolding(crate::specs::Text::class_of))]
fn class_of(b: u8) -> Class
    ensures { result ≡ class_of b }
{
    match b {
        9 | 10 | 13 | 32 => Class::Blank,
        59 => Class::Semicolon,
        40 | 41 => Class::Parenthesis,
        _ => Class::Run,
    }
}

/// Whether a byte may stand outside comments.
fn is_allowed(b: u8) -> bool
    ensures { result ≡ is_allowed b }
{
    b == 9 || b == 10 || b == 13 || b == 32 || (b >= 33 && b <= 126)
}

/// The place behind a byte.
#[tactic(auto, unfolding(crate::specs::Text::next_place))]
fn next_place(place: Place, b: u8) -> Place
    requires line { place.line + 1 < 2 ^ 32 }
    requires col { place.col + 1 < 2 ^ 32 }
    ensures { result ≡ next_place place b }
{
    if b == b'\n' {
        Place {
            line: place.line + 1,
            col: 1,
        }
    } else {
        Place {
            line: place.line,
            col: place.col + 1,
        }
    }
}

/// Whether a comment goes on behind a byte.
#[tactic(auto, unfolding(crate::specs::Text::in_comment))]
fn in_comment(comment: bool, b: u8) -> bool
    ensures { result ≡ in_comment comment b }
{
    if comment { b != b'\n' } else { b == b';' }
}

/// Whether a byte may stand where it does.
fn may_stand(comment: bool, b: u8) -> bool
    ensures { result ≡ (comment || is_allowed b) }
{
    comment || is_allowed(b)
}

/// Whether a token begins at a byte.
fn begins_token_at(comment: bool, b: u8) -> bool
    ensures { result ≡ (not comment && is_token (class_of b)) }
{
    !comment && matches!(class_of(b), Class::Run | Class::Parenthesis)
}

/// The place of the first byte outside comments that isn't allowed.
pub(crate) fn bad_byte(bytes: &[u8]) -> Option<Place>
    requires { length bytes.now + 1 < 2 ^ 32 }
    ensures { result ≡ bad_byte false start bytes.now }
{
    let mut comment = false;
    let mut place = Place { line: 1, col: 1 };
    for b in bytes {
        if !may_stand(comment, *b) {
            return Some(place);
        }
        comment = in_comment(comment, *b);
        place = next_place(place, *b);
    }
    None
}

/// Whether a byte stands in runs, outside comments.
fn is_run(b: u8) -> bool
    ensures { result ≡ is_run (class_of b) }
{
    matches!(class_of(b), Class::Run)
}

/// How many bytes of a run the bytes begin with.
fn run_length(bytes: &[u8]) -> usize
    ensures value { result ≡ prefix_len in_run bytes.now }
    ensures bound { result ≤ length bytes.now }
{
    bytes.iter().take_while(|b| is_run(**b)).count()
}

/// A token.
#[derive(Drop)]
pub(crate) enum Lexeme<'a> {
    Open,
    Close,
    Word(&'a [u8]),
}

/// What is left of a text, and its place.
#[derive(Drop)]
pub(crate) struct Cursor<'a> {
    bytes: &'a [u8],
    place: Place,
}

impl<'a> Model for Cursor<'a> {
    ghost use Rattle.std.specs.Prelude.{length, ◌+◌, ◌<◌, ◌^◌};
    ghost use Rattle.dl_tree.specs.Text.{Rest};

    ghost Value = { Rest };

    ghost view = { λ c. record { bytes = c.bytes.now; place = c.place } };

    ghost invariant = { λ c. (c.place.line + length c.bytes.now < 2 ^ 32) × (c.place.col + length c.bytes.now < 2 ^ 32) };
}

impl<'a> Cursor<'a> {
    /// The whole of a text.
    pub(crate) fn new(bytes: &'a [u8]) -> Cursor<'a>
        requires { length bytes.now + 1 < 2 ^ 32 }
        ensures bytes { result.bytes ≡ bytes.now }
        ensures place { result.place ≡ start }
    {
        Cursor {
            bytes,
            place: Place { line: 1, col: 1 },
        }
    }

    /// The place of what is left.
    pub(crate) fn place(&self) -> Place
        ensures { result ≡ self.now.place }
    {
        self.place
    }

    /// Past blanks and comments.
    fn skip(&mut self)
        ensures tokens { tokens_of self.new ≡ tokens_of self.old }
        ensures end { end_of self.new ≡ end_of self.old }
        ensures no_longer { length self.new.bytes ≤ length self.old.bytes }
        ensures front { begins_token self.new.bytes ≡ true }
    {
        let mut comment = false;
        while let Some((b, rest)) = self.bytes.split_first() {
            if begins_token_at(comment, *b) {
                return;
            }
            comment = in_comment(comment, *b);
            self.place = next_place(self.place, *b);
            self.bytes = rest;
        }
    }

    /// The next token, and its place.
    pub(crate) fn next(&mut self) -> Option<(Lexeme<'a>, Place)>
        ensures token { MatchOption result (tokens_of self.old ≡ []) (λ found. tokens_of self.old ≡ token_of found.0 found.1 ∷ tokens_of self.new) }
        ensures end { end_of self.new ≡ end_of self.old }
        ensures none { IfNone result (self.new.place ≡ end_of self.new) }
        ensures word { IfSome result (λ found. IsLexeme found.0) }
        ensures shorter { IfSome result (λ _. length self.new.bytes < length self.old.bytes) }
    {
        self.skip();
        self.take()
    }

    /// The token that begins here.
    fn take(&mut self) -> Option<(Lexeme<'a>, Place)>
        requires { begins_token self.old.bytes ≡ true }
        ensures token { MatchOption result (tokens_of self.old ≡ []) (λ found. tokens_of self.old ≡ token_of found.0 found.1 ∷ tokens_of self.new) }
        ensures end { end_of self.new ≡ end_of self.old }
        ensures none { IfNone result (self.new.place ≡ end_of self.new) }
        ensures word { IfSome result (λ found. IsLexeme found.0) }
        ensures shorter { IfSome result (λ _. length self.new.bytes < length self.old.bytes) }
    {
        let place = self.place;
        let Some((b, rest)) = self.bytes.split_first() else {
            return None;
        };
        if is_run(*b) {
            let n = run_length(self.bytes);
            let (word, rest) = self.bytes.split_at(n);
            self.bytes = rest;
            self.place = Place {
                line: place.line,
                col: place.col + n as u32,
            };
            return Some((Lexeme::Word(word), place));
        }
        self.bytes = rest;
        self.place = next_place(place, *b);
        if *b == b'(' {
            Some((Lexeme::Open, place))
        } else {
            Some((Lexeme::Close, place))
        }
    }
}
