//! Certificates: how a line is made from rows.

use sqlite_items::{Boxed, Items};
use thiserror::Error;

/// How one line is made from the rows of a `Lines`. A certificate that makes a line which no numbers meet refutes
/// the rows, as in Farkas' lemma with the cutting planes of Gomory and Chvatal.
#[cycle(certificate)]
#[derive(Drop)]
pub enum Certificate {
    /// The row of this number, from 0.
    Use(u32),
    /// The sum of multiplied lines, added from left to right to `0 = 0`. It is an equality where all of them are.
    Sum(Items<Multiple>),
    /// A line divided by a positive number that divides its coefficients: an inequality with its bound rounded down.
    Div(i64, Boxed<Certificate>),
}

/// A line that is multiplied by a number, which is at least 0 where the line is an inequality.
#[cycle(certificate)]
#[derive(Drop)]
pub struct Multiple {
    pub factor: i64,
    pub certificate: Certificate,
}

/// Why a certificate is refused.
#[derive(Clone, Copy, Debug, PartialEq, Eq, Drop, Error)]
pub enum CertFault {
    /// A row that is used doesn't exist or has no line.
    #[error("a row that is used has no line")]
    NoLine,
    /// An inequality is multiplied by a number below 0.
    #[error("an inequality is multiplied by a number below 0")]
    NegativeMultiplier,
    /// A line is divided by a number below 1, or by one that doesn't divide a coefficient.
    #[error("a line is divided by a number that doesn't divide it")]
    NotDivisible,
    /// A coefficient or the bound of a sum, after one of its additions, is no number of 64 bits.
    #[error("a coefficient or a bound is no number of 64 bits")]
    TooWide,
    /// The last line, read as an inequality, doesn't say that 0 is below 0.
    #[error("the last line is no contradiction")]
    NotContradiction,
}
