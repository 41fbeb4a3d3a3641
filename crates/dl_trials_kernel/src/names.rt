//! The numbers of the names in sequents and scripts, and formulas that many cases have.

use crate::words::Word::{self, And, Eq, Not, Num, Or, Var};

/// The number of the word `goal`.
pub(crate) const GOAL: u32 = 8;

/// Two node variables of each sequent.
pub(crate) const S: u32 = 16;

pub(crate) const D: u32 = 17;

/// Two messages of each sequent.
pub(crate) const M: u32 = 18;

pub(crate) const K: u32 = 19;

/// A new name.
pub(crate) const NEW: u32 = 20;

/// Names that quantifiers bind.
pub(crate) const X: u32 = 21;

pub(crate) const Y: u32 = 22;

/// The hypotheses of a sequent, and the names of further ones.
pub(crate) const H: u32 = 40;

pub(crate) const J: u32 = 41;

pub(crate) const A: u32 = 42;

pub(crate) const B: u32 = 43;

/// S is the first node.
pub(crate) const FIRST: &[Word] = &[Var(S), Num(0), Eq];

/// S is the second node.
pub(crate) const SECOND: &[Word] = &[Var(S), Num(1), Eq];

pub(crate) const NOT_FIRST: &[Word] = &[Var(S), Num(0), Eq, Not];

pub(crate) const BOTH: &[Word] = &[Var(S), Num(0), Eq, Var(S), Num(1), Eq, And];

pub(crate) const EITHER: &[Word] = &[Var(S), Num(0), Eq, Var(S), Num(1), Eq, Or];
