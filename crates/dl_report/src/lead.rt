//! Numbers that follow one another, appended.

ghost use Rattle.std.specs.Prelude.{◌≡◌, ◌++◌, ◌∷◌, [], decimal, OnOk};
ghost use Rattle.dl_report.specs.Spaced.{spaced};

use crate::append::{byte, short};
use itoa::write_digits;
use std::alloc::AllocError;
use std::marker::Model;

/// The text of a number's tens. The next number mostly has the same, so that only its last digit is worked out.
/// Contracts see how many tens.
#[derive(Drop)]
pub(crate) struct Lead {
    tens: u64,
    /// Where the text begins, which ends where the array does.
    from: usize,
    text: [u8; 20],
}

impl Model for Lead {
    ghost use Rattle.std.specs.Prelude.{ℕ, ◌≤◌, ◌≡◌, drop, decimal};

    ghost Value = { ℕ };

    ghost view = { λ lead. lead.tens };

    ghost invariant = { λ lead. (lead.from ≤ 20) × (drop lead.from lead.text ≡ decimal lead.tens) };
}

impl Lead {
    /// That of no tens.
    pub(crate) fn new() -> Lead {
        Lead {
            tens: 0,
            from: 19,
            text: [b'0'; 20],
        }
    }

    /// The text.
    #[inline(always)]
    fn text(&self) -> &[u8]
        ensures { result.now ≡ decimal self.now }
    {
        &self.text[self.from..]
    }

    /// Takes these tens.
    #[inline(never)]
    fn turn(&mut self, tens: u64)
        ensures { self.new ≡ tens }
    {
        self.from = write_digits(tens, &mut self.text, 20);
        self.tens = tens;
    }

    /// Takes these tens, where they are not there yet.
    #[inline(always)]
    fn keep(&mut self, tens: u64)
        ensures { self.new ≡ tens }
    {
        if self.tens != tens {
            self.turn(tens);
        }
    }

    /// Appends a number.
    #[inline(always)]
    pub(crate) fn append(&mut self, out: &mut Vec<u8>, number: u64) -> Result<(), AllocError>
        ensures { OnOk result (out.new.items ≡ out.old.items ++ decimal number) }
    {
        if number < 10 {
            return byte(out, b'0' + number as u8);
        }
        self.keep(number / 10);
        short(out, self.text())?;
        byte(out, b'0' + (number % 10) as u8)
    }

    /// Appends a blank and a number.
    #[inline(always)]
    pub(crate) fn append_word(&mut self, out: &mut Vec<u8>, number: u64) -> Result<(), AllocError>
        ensures { OnOk result (out.new.items ≡ out.old.items ++ spaced (decimal number ∷ [])) }
    {
        byte(out, b' ')?;
        self.append(out, number)
    }
}

/// The tens of the lines' numbers, and of the messages' ids.
#[derive(Drop)]
pub(crate) struct Leads {
    pub(crate) numbers: Lead,
    pub(crate) ids: Lead,
}
