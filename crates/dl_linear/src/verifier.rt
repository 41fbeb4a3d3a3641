//! The check of a certificate, one column at a time.

ghost use Rattle.std.specs.Prelude.{◌≡◌, ◌≤◌, true, length, take, pos, None, Some, Ok, IfSome, slice_get};
ghost use Rattle.dl_linear.specs.Rows.{row_of, made, fault, sum_fault, no_sum, divides, is_negative, is_contradiction, verdict, answer, HaveNoSolution};
ghost use Rattle.dl_linear.specs.Columns.{all_made, fault_of, in_column, IsColumn, column_sum, columns_fit, none_negative};

use crate::certificate::{CertFault, Certificate, Multiple};
use crate::column::Column;
use crate::line::{Line, Lines};
use crate::narrow::add_multiple;
use sqlite_items::at;

/// Whether a certificate makes a contradiction of the lines. Where it does, no whole numbers for the atoms meet them.
///
/// A refusal names what is wrong with the first bad part, where the parts of a sum or of a division come before the
/// whole, from left to right: `NoLine` at a `Use`, `NegativeMultiplier` or `TooWide` at a sum, `NotDivisible` at a
/// division. `NotContradiction` comes last, for the line that the whole certificate makes. In a sum the additions
/// are looked at one by one, and the multiplier before the numbers.
///
/// No memory is taken: each coefficient is computed by itself, so the time is about the number of atoms times the
/// certificate's size, once for each level of sums.
pub fn verify(lines: &Lines, cert: &Certificate) -> Result<(), CertFault>
    ensures exact { result ≡ answer (verdict (length lines.now.atoms) lines.now.rows cert.now) }
    ensures sound { result ≡ Ok tt → HaveNoSolution lines.now }
{
    let rows = lines.rows.as_slice();
    let width = lines.atoms.len();
    match check(rows, width, cert) {
        Ok(()) => {
            if is_false(rows, width, cert) {
                Ok(())
            } else {
                Err(CertFault::NotContradiction)
            }
        }
        Err(fault) => Err(fault),
    }
}

// Whether the line that is made says that 0 is below 0.
fn is_false(rows: &[Option<Line>], width: usize, cert: &Certificate) -> bool
    requires { fault width rows.now cert.now ≡ None }
    ensures { result ≡ is_contradiction width (made rows.now cert.now) }
{
    for column in 0..width {
        if entry(rows, width, cert, Column::Atom(column)) != 0 {
            return false;
        }
    }
    entry(rows, width, cert, Column::Bound) < 0
}

#[cycle(check)]
#[tactic(auto, unfolding(crate::specs::Opened::opened))]
fn check(rows: &[Option<Line>], width: usize, cert: &Certificate) -> Result<(), CertFault>
    ensures { result ≡ answer (fault width rows.now cert.now) }
{
    match cert {
        Certificate::Use(row) => match at(rows, *row as usize) {
            Some(Some(_)) => Ok(()),
            _ => Err(CertFault::NoLine),
        },
        Certificate::Sum(parts) => {
            let parts = parts.as_slice();
            match check_parts(rows, width, parts) {
                Ok(()) => check_sum(rows, width, parts),
                Err(fault) => Err(fault),
            }
        }
        Certificate::Div(divisor, of) => match check(rows, width, of.get()) {
            Ok(()) => {
                if is_divisible(rows, width, of.get(), *divisor) {
                    Ok(())
                } else {
                    Err(CertFault::NotDivisible)
                }
            }
            Err(fault) => Err(fault),
        },
    }
}

#[cycle(check)]
fn check_parts(rows: &[Option<Line>], width: usize, parts: &[Multiple]) -> Result<(), CertFault>
    ensures { result ≡ answer (fault_of width rows.now parts.now) }
{
    for part in parts {
        match check(rows, width, &part.certificate) {
            Ok(()) => {}
            Err(fault) => return Err(fault),
        }
    }
    Ok(())
}

// Whether the parts can be added. Up to the first negative multiplier each column is summed by itself, so that
// every part is looked at once a column.
fn check_sum(rows: &[Option<Line>], width: usize, parts: &[Multiple]) -> Result<(), CertFault>
    requires { fault_of width rows.now parts.now ≡ None }
    ensures { result ≡ answer (sum_fault width no_sum (all_made rows.now parts.now)) }
{
    let end = before_negative(rows, parts);
    if !sum_fits(rows, width, &parts[..end]) {
        Err(CertFault::TooWide)
    } else if end < parts.len() {
        Err(CertFault::NegativeMultiplier)
    } else {
        Ok(())
    }
}

// How many parts stand before the first inequality that is multiplied by a number below 0.
fn before_negative(rows: &[Option<Line>], parts: &[Multiple]) -> usize
    ensures within { result ≤ length parts.now }
    ensures before { none_negative (all_made rows.now (take result parts.now)) ≡ true }
    ensures there { IfSome (slice_get (all_made rows.now parts.now) result) (λ part. is_negative part ≡ true) }
{
    for (index, part) in parts.iter().enumerate() {
        if multiplies_negatively(rows, part) {
            return index;
        }
    }
    parts.len()
}

fn multiplies_negatively(rows: &[Option<Line>], part: &Multiple) -> bool
    ensures { result ≡ is_negative (part.now.factor, made rows.now part.now.certificate) }
{
    part.factor < 0 && !is_equal(rows, &part.certificate)
}

// Whether the sum of the parts has a number of 64 bits in each column, after each addition.
fn sum_fits(rows: &[Option<Line>], width: usize, parts: &[Multiple]) -> bool
    requires { fault_of width rows.now parts.now ≡ None }
    ensures { result ≡ columns_fit width (all_made rows.now parts.now) }
{
    for column in 0..width {
        if summed(rows, width, parts, Column::Atom(column)).is_none() {
            return false;
        }
    }
    summed(rows, width, parts, Column::Bound).is_some()
}

// Whether the line that is made can be divided by the number.
fn is_divisible(rows: &[Option<Line>], width: usize, cert: &Certificate, divisor: i64) -> bool
    requires { fault width rows.now cert.now ≡ None }
    ensures { result ≡ divides width divisor (made rows.now cert.now) }
{
    if divisor < 1 {
        return false;
    }
    for column in 0..width {
        if entry(rows, width, cert, Column::Atom(column)).rem_euclid(divisor) != 0 {
            return false;
        }
    }
    true
}

// Whether the line that is made is an equality.
#[tactic(auto, unfolding(crate::specs::Opened::opened))]
fn is_equal(rows: &[Option<Line>], cert: &Certificate) -> bool
    ensures { result ≡ (made rows.now cert.now).equal }
{
    match cert {
        Certificate::Use(row) => match at(rows, *row as usize) {
            Some(Some(line)) => line.equal,
            _ => true,
        },
        Certificate::Sum(parts) => {
            for part in parts.as_slice() {
                if !is_equal(rows, &part.certificate) {
                    return false;
                }
            }
            true
        }
        Certificate::Div(..) => false,
    }
}

// A column of the line that is made.
#[cycle(entry)]
#[tactic(auto, unfolding(crate::specs::Opened::opened))]
fn entry(rows: &[Option<Line>], width: usize, cert: &Certificate, column: Column) -> i64
    requires fault { fault width rows.now cert.now ≡ None }
    requires column { IsColumn width column }
    ensures { result ≡ in_column column (made rows.now cert.now) }
{
    match cert {
        Certificate::Use(row) => match at(rows, *row as usize) {
            Some(Some(line)) => read(line, column),
            _ => 0,
        },
        Certificate::Sum(parts) => match summed(rows, width, parts.as_slice(), column) {
            Some(sum) => sum,
            None => 0,
        },
        Certificate::Div(divisor, of) => entry(rows, width, of.get(), column).div_euclid(*divisor),
    }
}

// A column of the sum of the parts, where it is a number of 64 bits after each addition.
#[cycle(entry)]
fn summed(rows: &[Option<Line>], width: usize, parts: &[Multiple], column: Column) -> Option<i64>
    requires parts { fault_of width rows.now parts.now ≡ None }
    requires column { IsColumn width column }
    ensures { result ≡ column_sum column (pos 0) (all_made rows.now parts.now) }
{
    let mut sum: i64 = 0;
    for part in parts {
        let next = entry(rows, width, &part.certificate, column);
        match add_multiple(sum, part.factor, next) {
            Some(total) => sum = total,
            None => return None,
        }
    }
    Some(sum)
}

fn read(line: &Line, column: Column) -> i64
    ensures { result ≡ in_column column (row_of line.now) }
{
    match column {
        Column::Atom(atom) => match line.coefs.get(atom) {
            Some(coef) => *coef,
            None => 0,
        },
        Column::Bound => line.bound,
    }
}
