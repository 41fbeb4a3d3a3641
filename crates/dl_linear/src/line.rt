//! Lines over a list of atoms.

use dl_term::Term;
use sqlite_items::Items;
use std::alloc::AllocError;
use thiserror::Error;

/// A sum of coefficients times atoms that is at most a bound, or equal to it.
#[derive(Drop)]
pub struct Line {
    /// One coefficient for each atom of the `Lines` that the line stands in, in their order.
    /// A coefficient that is missing reads 0.
    pub coefs: Items<i64>,
    pub bound: i64,
    /// Whether the sum equals the bound, and isn't only at most the bound.
    pub equal: bool,
}

/// Lines over one list of atoms.
#[derive(Drop)]
pub struct Lines {
    /// The terms that stand for whole numbers of which nothing is known but the lines.
    pub atoms: Items<Term>,
    /// The lines by number. A row that is None has no line.
    pub rows: Items<Option<Line>>,
}

/// Why formulas have no lines.
#[derive(Debug, Drop, Error)]
pub enum LineFault {
    /// A coefficient or a bound is no number of 64 bits.
    #[error("a coefficient or a bound is no number of 64 bits")]
    TooWide,
    /// No memory for the lines.
    #[error("no memory for the lines")]
    Memory(AllocError),
}
