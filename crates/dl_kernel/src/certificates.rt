//! The rule of certificates.

ghost use Rattle.std.specs.Prelude.{◌≡◌, map, Some, IfOk};
ghost use Rattle.std.specs.List.{list_any};
ghost use Rattle.dl_term.specs.declared.syntax.Formula.{Eq};
ghost use Rattle.dl_linear.specs.declared.certificate.Multiple.{Multiple as Part};
ghost use Rattle.dl_linear.specs.Forms.{sides_of as sides_meant};
ghost use Rattle.dl_linear.specs.Seen.{seen_sides, all_seen};
ghost use Rattle.dl_kernel.specs.Lines.{uses as is_used, row_number as number_of_row, numbered as with_numbers, renumbered as part_with_numbers, if_used as used, rows_used as rows_meant, lines_if_narrow, refutes as is_refuted, denied_sides as sides_denied, linear_closes};

use crate::sequents::{GOAL, place_of};
use dl_linear::{Certificate, LineFault, Lines, Multiple, Sides, lines_of_sides, sides_of, verify};
use dl_model::{Hypothesis, Sequent};
use dl_term::{Formula, Term};
use sqlite_items::{Boxed, Items};
use std::alloc::{AllocError, Global};

// Whether the certificate has a `Use` of the name.
#[cycle(uses)]
#[tactic(auto, unfolding(dl_linear::specs::Opened::opened))]
fn uses(name: u32, certificate: &Certificate) -> bool
    ensures { result ≡ is_used name certificate.now }
{
    match certificate {
        Certificate::Use(other) => *other == name,
        Certificate::Sum(parts) => some_uses(name, parts.as_slice()),
        Certificate::Div(_, of) => uses(name, of.get()),
    }
}

#[cycle(uses)]
fn some_uses(name: u32, parts: &[Multiple]) -> bool
    ensures { result ≡ list_any (λ (part : Part). is_used name part.certificate) parts.now }
{
    for part in parts {
        if uses(name, &part.certificate) {
            return true;
        }
    }
    false
}

// The row of a name, which is past the end where there is none.
fn row_number(facts: &[Hypothesis], name: u32) -> usize
    ensures { result ≡ number_of_row facts.now name }
{
    if name == GOAL {
        return facts.len();
    }
    match place_of(facts, name) {
        Some(place) => place,
        None => facts.len() + 1,
    }
}

// The certificate with the numbers of rows for the names.
#[cycle(numbered)]
#[tactic(auto, unfolding(dl_linear::specs::Opened::opened))]
fn numbered(
    alloc: Global,
    facts: &[Hypothesis],
    certificate: &Certificate,
) -> Result<Certificate, AllocError>
    ensures { IfOk result (λ made. made ≡ with_numbers facts.now certificate.now) }
{
    match certificate {
        // A row past 32 bits would stand behind more hypotheses than memory holds.
        Certificate::Use(name) => match u32::try_from(row_number(facts, *name)) {
            Ok(row) => Ok(Certificate::Use(row)),
            Err(_) => Err(AllocError),
        },
        Certificate::Sum(parts) => {
            let parts = numbered_parts(alloc, facts, parts.as_slice())?;
            Ok(Certificate::Sum(parts))
        }
        Certificate::Div(by, of) => {
            let of = numbered(alloc, facts, of.get())?;
            Ok(Certificate::Div(*by, Boxed::new(alloc, of)?))
        }
    }
}

#[cycle(numbered)]
fn numbered_parts(
    alloc: Global,
    facts: &[Hypothesis],
    parts: &[Multiple],
) -> Result<Items<Multiple>, AllocError>
    ensures { IfOk result (λ made. made ≡ map (part_with_numbers facts.now) parts.now) }
{
    let mut made = Items::new(alloc);
    for part in parts {
        let certificate = numbered(alloc, facts, &part.certificate)?;
        made.push(Multiple {
            factor: part.factor,
            certificate,
        })?;
    }
    Ok(made)
}

// The sides of a hypothesis, if it is used.
fn row<'a>(certificate: &Certificate, fact: &'a Hypothesis) -> Option<Sides<'a>>
    ensures { seen_sides result ≡ used certificate.now fact.now.name (sides_meant fact.now.formula) }
{
    if uses(fact.name, certificate) {
        sides_of(&fact.formula)
    } else {
        None
    }
}

// The sides of each hypothesis that is used, and last those for the goal.
fn rows_used<'a>(
    alloc: Global,
    certificate: &Certificate,
    facts: &'a [Hypothesis],
    goal: Option<Sides<'a>>,
) -> Result<Vec<Option<Sides<'a>>>, AllocError>
    ensures { IfOk result (λ rows. all_seen rows.items ≡ rows_meant certificate.now facts.now (seen_sides goal.entry)) }
{
    let mut rows = Vec::new(alloc);
    for fact in facts {
        rows.push(row(certificate, fact))?;
    }
    rows.push(if uses(GOAL, certificate) { goal } else { None })?;
    Ok(rows)
}

// The lines of the rows, or None where a number in them is too wide.
fn lines_used(
    alloc: Global,
    certificate: &Certificate,
    facts: &[Hypothesis],
    goal: Option<Sides<'_>>,
) -> Result<Option<Lines>, AllocError>
    ensures { IfOk result (λ lines. lines ≡ lines_if_narrow (rows_meant certificate.now facts.now (seen_sides goal.entry))) }
{
    let rows = rows_used(alloc, certificate, facts, goal)?;
    match lines_of_sides(alloc, rows.as_slice()) {
        Ok(lines) => Ok(Some(lines)),
        Err(LineFault::TooWide) => Ok(None),
        Err(LineFault::Memory(error)) => Err(error),
    }
}

// Whether the certificate leads from the hypotheses and the sides for the goal to a contradiction.
fn refutes(
    alloc: Global,
    facts: &[Hypothesis],
    goal: Option<Sides<'_>>,
    certificate: &Certificate,
) -> Result<bool, AllocError>
    ensures { IfOk result (λ fine. fine ≡ is_refuted facts.now (seen_sides goal.entry) certificate.now) }
{
    match lines_used(alloc, certificate, facts, goal)? {
        Some(lines) => {
            let certificate = numbered(alloc, facts, certificate)?;
            Ok(verify(&lines, &certificate).is_ok())
        }
        None => Ok(false),
    }
}

// What the negation of the goal says of two terms.
#[tactic(auto, unfolding(dl_term::specs::Syntax::opened))]
fn denied_sides(goal: &Formula) -> Option<Sides<'_>>
    ensures { seen_sides result ≡ sides_denied goal.now }
{
    match goal {
        Formula::Lt(left, right) => Some(Sides::at_most(right, left)),
        Formula::Le(left, right) => Some(Sides::below(right, left)),
        Formula::Not(body) => sides_of(body.get()),
        _ => None,
    }
}

// Whether two certificates close an equation, one for each way in which it may fail.
fn close_equation(
    alloc: Global,
    facts: &[Hypothesis],
    left: &Term,
    right: &Term,
    first: &Certificate,
    second: &Certificate,
) -> Result<bool, AllocError>
    ensures { IfOk result (λ fine. fine ≡ linear_closes facts.now (Eq left.now right.now) first.now (Some second.now)) }
{
    let below = refutes(alloc, facts, Some(Sides::below(left, right)), first)?;
    if !below {
        return Ok(false);
    }
    refutes(alloc, facts, Some(Sides::below(right, left)), second)
}

/// Whether one certificate closes the goal, or two where it is an equation.
pub(crate) fn is_refuted_by(
    alloc: Global,
    sequent: &Sequent,
    first: &Certificate,
    second: &Option<Certificate>,
) -> Result<bool, AllocError>
    ensures { IfOk result (λ fine. fine ≡ linear_closes sequent.now.facts sequent.now.goal first.now second.now) }
{
    let facts = sequent.facts.as_slice();
    match &sequent.goal {
        Formula::Eq(left, right) => match second {
            Some(second) => close_equation(alloc, facts, left, right, first, second),
            None => Ok(false),
        },
        goal => match second {
            Some(_) => Ok(false),
            None => refutes(alloc, facts, denied_sides(goal), first),
        },
    }
}
