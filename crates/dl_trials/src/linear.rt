//! Lines of formulas at the edges of 64 bits, and certificates with each refusal.

use dl_linear::{CertFault, Certificate, Line, LineFault, Lines, Multiple, lines_of, verify};
use dl_term::{Formula, Term};
use sqlite_items::{Boxed, Items};
use std::alloc::{AllocError, Global};
use std::test::Fail;

fn add(alloc: Global, left: Term, right: Term) -> Result<Term, AllocError> {
    let left = Boxed::new(alloc, left)?;
    Ok(Term::Add(left, Boxed::new(alloc, right)?))
}

fn sub(alloc: Global, left: Term, right: Term) -> Result<Term, AllocError> {
    let left = Boxed::new(alloc, left)?;
    Ok(Term::Sub(left, Boxed::new(alloc, right)?))
}

fn times(alloc: Global, factor: i64, term: Term) -> Result<Term, AllocError> {
    let factor = Boxed::new(alloc, Term::Num(factor))?;
    Ok(Term::Mul(factor, Boxed::new(alloc, term)?))
}

fn product(alloc: Global, left: Term, right: Term) -> Result<Term, AllocError> {
    let left = Boxed::new(alloc, left)?;
    Ok(Term::Mul(left, Boxed::new(alloc, right)?))
}

fn not(alloc: Global, formula: Formula) -> Result<Formula, AllocError> {
    Ok(Formula::Not(Boxed::new(alloc, formula)?))
}

// Whether the formula's line has these numbers.
fn gives(
    alloc: Global,
    formula: Formula,
    coefs: &[i64],
    bound: i64,
    equal: bool,
) -> Result<bool, LineFault> {
    let lines = lines_of(alloc, &[formula])?;
    Ok(match lines.rows.get(0) {
        Some(Some(line)) => line.coefs.as_slice() == coefs
            && line.bound == bound
            && line.equal == equal,
        _ => false,
    })
}

fn is_wide(alloc: Global, formula: Formula) -> bool {
    matches!(
        lines_of(alloc, &[Formula::True, formula]),
        Err(LineFault::TooWide)
    )
}

const X: u32 = 0;

const Y: u32 = 1;

#[test]
fn makes_lines(rt: HostRuntime) -> Result<(), Fail> {
    let alloc = rt.alloc();
    let six = times(alloc, 2, Term::Num(3))?;
    assert!(rt; gives(alloc, Formula::Le(six, Term::Var(X)), &[-1], -6, false)?);
    let thrice = times(alloc, 3, add(alloc, Term::Var(X), Term::Num(1))?)?;
    assert!(rt;
        gives(
            alloc,
            Formula::Lt(thrice, Term::Var(Y)),
            &[3, -1],
            -4,
            false
        )?
    );
    let atom = product(alloc, add(alloc, Term::Num(1), Term::Num(1))?, Term::Var(X))?;
    assert!(rt; gives(alloc, Formula::Eq(atom, Term::Num(5)), &[1], 5, true)?);
    let above = not(alloc, Formula::Le(Term::Var(X), Term::Var(Y)))?;
    assert!(rt; gives(alloc, above, &[1, -1], -1, false)?);
    let from = not(alloc, Formula::Lt(Term::Var(X), Term::Var(Y)))?;
    assert!(rt; gives(alloc, from, &[1, -1], 0, false)?);
    Ok(())
}

#[test]
fn makes_lines_at_the_edges(rt: HostRuntime) -> Result<(), Fail> {
    let alloc = rt.alloc();
    let least = Formula::Lt(Term::Num(i64::MIN), Term::Num(0));
    assert!(rt; gives(alloc, least, &[], i64::MAX, false)?);
    let denied = not(alloc, Formula::Le(Term::Num(0), Term::Num(i64::MIN)))?;
    assert!(rt; gives(alloc, denied, &[], i64::MAX, false)?);
    let most = times(alloc, i64::MAX, Term::Var(X))?;
    assert!(rt;
        gives(
            alloc,
            Formula::Le(most, Term::Var(X)),
            &[i64::MAX - 1],
            0,
            false
        )?
    );
    let wide = times(alloc, i64::MAX, add(alloc, Term::Var(X), Term::Var(X))?)?;
    let inside = product(alloc, wide, Term::Var(Y))?;
    assert!(rt; gives(alloc, Formula::Eq(inside, Term::Num(0)), &[1], 0, true)?);
    Ok(())
}

#[test]
fn refuses_wide_lines(rt: HostRuntime) -> Result<(), Fail> {
    let alloc = rt.alloc();
    assert!(rt; is_wide(alloc, Formula::Le(Term::Num(i64::MIN), Term::Num(0))));
    let less = sub(alloc, Term::Num(0), Term::Var(X))?;
    let most = times(alloc, i64::MAX, Term::Var(X))?;
    assert!(rt; is_wide(alloc, Formula::Le(most, less)));
    let wide = times(alloc, i64::MAX, add(alloc, Term::Var(X), Term::Var(X))?)?;
    assert!(rt; is_wide(alloc, Formula::Le(wide, Term::Num(0))));
    let back = sub(
        alloc,
        add(alloc, Term::Num(i64::MAX), Term::Num(1))?,
        Term::Num(1),
    )?;
    assert!(rt; is_wide(alloc, Formula::Le(back, Term::Num(0))));
    Ok(())
}

fn divided(alloc: Global, divisor: i64, row: u32) -> Result<Certificate, AllocError> {
    Ok(Certificate::Div(divisor, Boxed::new(alloc, Certificate::Use(row))?))
}

fn multiple(
    alloc: Global,
    factor: i64,
    certificate: Certificate,
) -> Result<Certificate, AllocError> {
    let mut parts = Items::new(alloc);
    parts.push(Multiple {
        factor,
        certificate,
    })?;
    Ok(Certificate::Sum(parts))
}

fn sum(alloc: Global, first: Certificate, second: Certificate) -> Result<Certificate, AllocError> {
    let mut parts = Items::new(alloc);
    parts.push(Multiple {
        factor: 1,
        certificate: first,
    })?;
    parts.push(Multiple {
        factor: 1,
        certificate: second,
    })?;
    Ok(Certificate::Sum(parts))
}

fn at_most(alloc: Global, coef: i64, bound: i64) -> Result<Option<Line>, AllocError> {
    Ok(Some(Line {
        coefs: Items::from_slice(alloc, &[coef])?,
        bound,
        equal: false,
    }))
}

// What `verify` answers over one atom and the rows 2x <= 1, -2x <= -1, and one without a line.
fn answer(alloc: Global, certificate: Certificate) -> Result<Result<(), CertFault>, AllocError> {
    let mut atoms = Items::new(alloc);
    atoms.push(Term::Var(X))?;
    let mut rows = Items::new(alloc);
    rows.push(at_most(alloc, 2, 1)?)?;
    rows.push(at_most(alloc, -2, -1)?)?;
    rows.push(None)?;
    Ok(verify(&Lines { atoms, rows }, &certificate))
}

#[test]
fn verifies(rt: HostRuntime) -> Result<(), Fail> {
    let alloc = rt.alloc();
    let halves = sum(alloc, divided(alloc, 2, 0)?, divided(alloc, 2, 1)?)?;
    assert_eq!(rt; answer(alloc, halves)?, Ok(()));
    assert_eq!(rt; answer(alloc, Certificate::Use(2))?, Err(CertFault::NoLine));
    assert_eq!(rt; answer(alloc, Certificate::Use(3))?, Err(CertFault::NoLine));
    let negative = multiple(alloc, -1, Certificate::Use(0))?;
    assert_eq!(rt;
        answer(alloc, negative)?,
        Err(CertFault::NegativeMultiplier)
    );
    assert_eq!(rt;
        answer(alloc, divided(alloc, 4, 0)?)?,
        Err(CertFault::NotDivisible)
    );
    let wide = multiple(alloc, i64::MAX, Certificate::Use(0))?;
    assert_eq!(rt; answer(alloc, wide)?, Err(CertFault::TooWide));
    assert_eq!(rt;
        answer(alloc, Certificate::Use(0))?,
        Err(CertFault::NotContradiction)
    );
    Ok(())
}

// The line 2n = 1 and its negative, divided.
fn halved(alloc: Global, divisor: i64) -> Result<Result<(), CertFault>, LineFault> {
    let double = times(alloc, 2, Term::Var(X)).map_err(LineFault::Memory)?;
    let lines = lines_of(alloc, &[Formula::Eq(double, Term::Num(1))])?;
    let certificate = halves(alloc, divisor).map_err(LineFault::Memory)?;
    Ok(verify(&lines, &certificate))
}

fn halves(alloc: Global, divisor: i64) -> Result<Certificate, AllocError> {
    let negative = Boxed::new(alloc, multiple(alloc, -1, Certificate::Use(0))?)?;
    sum(
        alloc,
        divided(alloc, divisor, 0)?,
        Certificate::Div(2, negative),
    )
}

#[test]
fn refutes_a_half(rt: HostRuntime) -> Result<(), Fail> {
    let alloc = rt.alloc();
    assert_eq!(rt; halved(alloc, 2)?, Ok(()));
    assert_eq!(rt; halved(alloc, 4)?, Err(CertFault::NotDivisible));
    Ok(())
}
