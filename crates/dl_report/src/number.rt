//! Numbers as words.

ghost use Rattle.std.specs.Prelude.{◌≡◌, true, false, ◌^◌, nat_lt, MatchOption};
ghost use Rattle.std.specs.List.{list_all};
ghost use Rattle.std.specs.Char.{is_ascii_digit};
ghost use Rattle.std.specs.Str.Parse.{digits_value};
ghost use Rattle.dl_tree.specs.Word.{is_positive as positive, is_natural as is_plain, is_number as is_signed, value_of, fits_i64};
ghost use Rattle.dl_report.specs.Reading.{natural_in, small_in, integer_in};

fn are_digits(word: &[u8]) -> bool
    ensures { result ≡ list_all is_ascii_digit word.now }
{
    word.iter().all(|d| d.is_ascii_digit())
}

/// Whether a word is digits that don't begin with 0.
fn is_positive(word: &[u8]) -> bool
    ensures { result ≡ positive word.now }
{
    match word.split_first() {
        None => false,
        Some((first, _)) => *first != b'0' && are_digits(word),
    }
}

/// Whether a word is digits without leading zeros.
fn is_natural(word: &[u8]) -> bool
    ensures { result ≡ is_plain word.now }
{
    match word {
        [digit] => digit.is_ascii_digit(),
        _ => is_positive(word),
    }
}

/// Whether a word is a natural number, or `-` and a positive one.
#[tactic(auto, unfolding(dl_tree::specs::Word::is_number))]
fn is_number(word: &[u8]) -> bool
    ensures { result ≡ is_signed word.now }
{
    match word.split_first() {
        None => false,
        Some((first, rest)) => {
            if *first == b'-' {
                is_positive(rest)
            } else {
                is_natural(word)
            }
        }
    }
}

/// The value of digits, where it is below 2^64.
fn value_of_digits(word: &[u8]) -> Option<u64>
    requires { is_plain word.now ≡ true }
    ensures { MatchOption result (nat_lt (digits_value 10 word.now) (2 ^ 64) ≡ false) (λ n. (digits_value 10 word.now ≡ n) × (nat_lt n (2 ^ 64) ≡ true)) }
{
    match str::from_utf8(word) {
        Ok(text) => text.parse().ok(),
        Err(_) => None,
    }
}

/// The value of a number, where it is in the range of i64.
fn value_of_number(word: &[u8]) -> Option<i64>
    requires { is_signed word.now ≡ true }
    ensures { MatchOption result (fits_i64 (value_of word.now) ≡ false) (λ z. (value_of word.now ≡ z) × (fits_i64 z ≡ true)) }
{
    match str::from_utf8(word) {
        Ok(text) => text.parse().ok(),
        Err(_) => None,
    }
}

/// A natural number below 2^64, as it is written.
pub(crate) fn natural(word: &[u8]) -> Option<u64>
    ensures { result ≡ natural_in word.now }
{
    if is_natural(word) {
        value_of_digits(word)
    } else {
        None
    }
}

/// A natural number below 2^32, as it is written: digits without leading zeros.
pub fn small(word: &[u8]) -> Option<u32>
    ensures { result ≡ small_in word.now }
{
    match natural(word) {
        Some(number) => u32::try_from(number).ok(),
        None => None,
    }
}

/// A number of i64, as it is written.
pub(crate) fn integer(word: &[u8]) -> Option<i64>
    ensures { result ≡ integer_in word.now }
{
    if is_number(word) {
        value_of_number(word)
    } else {
        None
    }
}
