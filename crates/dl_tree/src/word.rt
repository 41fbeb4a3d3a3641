//! Numbers and symbols.

ghost use Rattle.std.specs.Prelude.{◌≡◌, true, false, ◌||◌, MatchOption};
ghost use Rattle.std.specs.List.{list_all};
ghost use Rattle.std.specs.Char.{is_ascii_digit};
ghost use Rattle.dl_tree.specs.Word.{is_positive, is_natural, is_number, is_symbol, is_name, is_name_byte, is_operator, value_of, fits_i64};
ghost use Rattle.dl_tree.specs.Reading.{IsReading};

/// What a word is.
#[derive(Clone, Copy, Drop)]
pub(crate) enum Reading {
    Number(i64),
    TooBig,
    Symbol,
    Other,
}

/// Whether all bytes are digits.
fn are_digits(word: &[u8]) -> bool
    ensures { result ≡ list_all is_ascii_digit word.now }
{
    word.iter().all(|d| d.is_ascii_digit())
}

/// Whether a word is digits that don't begin with 0.
fn is_positive(word: &[u8]) -> bool
    ensures { result ≡ is_positive word.now }
{
    match word.split_first() {
        None => false,
        Some((first, _)) => *first != b'0' && are_digits(word),
    }
}

/// Whether a word is digits without leading zeros.
fn is_natural(word: &[u8]) -> bool
    ensures { result ≡ is_natural word.now }
{
    match word {
        [digit] => digit.is_ascii_digit(),
        _ => is_positive(word),
    }
}

/// Whether a word is a natural number, or `-` and a positive one.
#[tactic(auto, unfolding(crate::specs::Word::is_number))]
fn is_number(word: &[u8]) -> bool
    ensures { result ≡ is_number word.now }
{
    match word.split_first() {
        None => false,
        Some((first, rest)) => {
            if *first == b'-' {
                is_positive(rest)
            } else {
                is_natural(word)
            }
        }
    }
}

/// Whether a byte may stand in a name behind its first letter.
fn is_name_byte(b: u8) -> bool
    ensures { result ≡ is_name_byte b }
{
    b.is_ascii_alphabetic() || b.is_ascii_digit() || b == b'_' || b == b'-'
}

/// Whether all bytes may.
fn are_name_bytes(word: &[u8]) -> bool
    ensures { result ≡ list_all is_name_byte word.now }
{
    word.iter().all(|b| is_name_byte(*b))
}

/// Whether a word is a letter and at most 63 further bytes of a name.
fn is_name(word: &[u8]) -> bool
    ensures { result ≡ is_name word.now }
{
    match word.split_first() {
        None => false,
        Some((first, rest)) => {
            first.is_ascii_alphabetic() && are_name_bytes(rest) && rest.len() <= 63
        }
    }
}

/// Whether a word is one of `=`, `<`, `<=`, `+`, `-`, `*`.
fn is_operator(word: &[u8]) -> bool
    ensures { result ≡ is_operator word.now }
{
    match word {
        [b] => matches!(*b, b'=' | b'<' | b'+' | b'-' | b'*'),
        [a, b] => *a == b'<' && *b == b'=',
        _ => false,
    }
}

/// Whether a word is a name or an operator.
#[tactic(auto, unfolding(crate::specs::Word::is_symbol))]
fn is_symbol(word: &[u8]) -> bool
    ensures { result ≡ is_symbol word.now }
{
    is_name(word) || is_operator(word)
}

/// Whether a word is a number, of any size, or a symbol.
pub(crate) fn is_good(word: &[u8]) -> bool
    ensures { result ≡ (is_number word.now || is_symbol word.now) }
{
    is_number(word) || is_symbol(word)
}

/// The value of a number, where it fits.
fn number_of(word: &[u8]) -> Option<i64>
    requires { is_number word.now ≡ true }
    ensures { MatchOption result (fits_i64 (value_of word.now) ≡ false) (λ z. (value_of word.now ≡ z) × (fits_i64 z ≡ true)) }
{
    match str::from_utf8(word) {
        Ok(text) => text.parse().ok(),
        Err(_) => None,
    }
}

/// What a word is.
pub(crate) fn reading_of(word: &[u8]) -> Reading
    ensures { IsReading word.now result }
{
    if is_number(word) {
        match number_of(word) {
            Some(value) => Reading::Number(value),
            None => Reading::TooBig,
        }
    } else if is_symbol(word) {
        Reading::Symbol
    } else {
        Reading::Other
    }
}
