//! Pieces of lines, appended.
//!
//! A report is as long as its run, so the time that it takes is the time of these functions. Each is compiled where it
//! is called: where the length of a piece is known there, no copy of a text is called for.

ghost use Rattle.std.specs.Prelude.{◌≡◌, ◌++◌, ◌∷◌, [], decimal, OnOk};
ghost use Rattle.std.specs.Fmt.{signed_decimal};
ghost use Rattle.dl_report.specs.Spaced.{spaced};

use itoa::Buffer;
use std::alloc::AllocError;

/// Appends a text.
#[inline(always)]
pub(crate) fn text(out: &mut Vec<u8>, piece: &[u8]) -> Result<(), AllocError>
    ensures { OnOk result (out.new.items ≡ out.old.items ++ piece.now) }
{
    out.extend_from_slice(piece)
}

/// Appends a byte.
#[inline(always)]
pub(crate) fn byte(out: &mut Vec<u8>, byte: u8) -> Result<(), AllocError>
    ensures { OnOk result (out.new.items ≡ out.old.items ++ (byte ∷ [])) }
{
    match out.push(byte) {
        Ok(()) => Ok(()),
        Err(_) => Err(AllocError),
    }
}

/// Appends bytes one by one, which for a few of them is less work than a copy.
#[inline(always)]
fn few(out: &mut Vec<u8>, piece: &[u8]) -> Result<(), AllocError>
    ensures { OnOk result (out.new.items ≡ out.old.items ++ piece.now) }
{
    let mut rest = piece;
    while let Some((first, more)) = rest.split_first() {
        byte(out, *first)?;
        rest = more;
    }
    Ok(())
}

/// Appends a text that is mostly short. Four bytes that are read before the first is written go in one step.
#[inline(always)]
pub(crate) fn short(out: &mut Vec<u8>, piece: &[u8]) -> Result<(), AllocError>
    ensures { OnOk result (out.new.items ≡ out.old.items ++ piece.now) }
{
    if piece.len() > 8 {
        return text(out, piece);
    }
    match piece {
        [a, b, c, d, rest @ ..] => four(out, [*a, *b, *c, *d], rest),
        _ => few(out, piece),
    }
}

/// Appends four bytes, and a few more.
#[inline(always)]
fn four(out: &mut Vec<u8>, first: [u8; 4], rest: &[u8]) -> Result<(), AllocError>
    ensures { OnOk result (out.new.items ≡ out.old.items ++ (first ++ rest.now)) }
{
    text(out, &first)?;
    few(out, rest)
}

/// Appends a blank and a word that is mostly one letter, as names of nodes and labels are.
#[inline(always)]
pub(crate) fn word(out: &mut Vec<u8>, word: &str) -> Result<(), AllocError>
    ensures { OnOk result (out.new.items ≡ out.old.items ++ spaced (word.now ∷ [])) }
{
    byte(out, b' ')?;
    match word.as_bytes() {
        [letter] => byte(out, *letter),
        letters => long(out, letters),
    }
}

/// Appends a text. It stands apart, so that what is compiled into its callers stays small.
#[inline(never)]
fn long(out: &mut Vec<u8>, piece: &[u8]) -> Result<(), AllocError>
    ensures { OnOk result (out.new.items ≡ out.old.items ++ piece.now) }
{
    short(out, piece)
}

/// Appends a blank, a label, a dot and a name at it.
#[inline(always)]
pub(crate) fn dotted(out: &mut Vec<u8>, label: &str, name: &str) -> Result<(), AllocError>
    ensures { OnOk result (out.new.items ≡ out.old.items ++ spaced ((label.now ++ (46 ∷ name.now)) ∷ [])) }
{
    word(out, label)?;
    byte(out, b'.')?;
    short(out, name.as_bytes())
}

/// Appends a natural number. A buffer on the stack is less work than `write!`.
pub(crate) fn digits(out: &mut Vec<u8>, number: u64) -> Result<(), AllocError>
    ensures { OnOk result (out.new.items ≡ out.old.items ++ decimal number) }
{
    let mut buffer = Buffer::new();
    short(out, buffer.format(number).as_bytes())
}

/// Appends a blank and a natural number. Ticks have mostly one digit.
#[inline(always)]
pub(crate) fn natural(out: &mut Vec<u8>, number: u64) -> Result<(), AllocError>
    ensures { OnOk result (out.new.items ≡ out.old.items ++ spaced (decimal number ∷ [])) }
{
    byte(out, b' ')?;
    if number < 10 {
        return byte(out, b'0' + number as u8);
    }
    digits(out, number)
}

/// Appends a blank and a number.
pub(crate) fn integer(out: &mut Vec<u8>, number: &i64) -> Result<(), AllocError>
    ensures { OnOk result (out.new.items ≡ out.old.items ++ spaced (signed_decimal number.now ∷ [])) }
{
    let mut buffer = Buffer::new();
    byte(out, b' ')?;
    text(out, buffer.format(*number).as_bytes())
}
