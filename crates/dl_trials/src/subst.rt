//! Each call once, and a capture.

use dl_subst::{
    NewMessage, SubstFault, at_label, replace, substitute, substitute_message, term_at_label,
};
use dl_term::{Formula, Lab, Part, Term, same_formula, same_term};
use sqlite_items::{Boxed, Items};
use std::alloc::{AllocError, Global};
use std::test::Fail;

const X: u32 = 18;

const Y: u32 = 19;

const M: u32 = 20;

fn all_equal(alloc: Global, right: Term) -> Result<Formula, AllocError> {
    let body = Boxed::new(alloc, Formula::Eq(Term::Var(X), right))?;
    Ok(Formula::All { sym: X, body })
}

fn field(alloc: Global, label: Lab, node: Term) -> Result<Term, AllocError> {
    let node = Boxed::new(alloc, node)?;
    Ok(Term::Field {
        label,
        field: 0,
        node,
    })
}

#[test]
fn a_term_for_a_variable(rt: HostRuntime) -> Result<(), Fail> {
    let alloc = rt.alloc();
    let formula = all_equal(alloc, Term::Var(Y))?;
    let captured = substitute(alloc, &formula, Y, &Term::Var(X));
    assert!(rt; matches!(captured, Err(SubstFault::Capture)));
    let made = substitute(alloc, &formula, Y, &Term::Num(3))?;
    assert!(rt; same_formula(&made, &all_equal(alloc, Term::Num(3))?));
    let bound = substitute(alloc, &formula, X, &Term::Num(3))?;
    assert!(rt; same_formula(&bound, &formula));
    Ok(())
}

#[test]
fn a_term_for_another(rt: HostRuntime) -> Result<(), Fail> {
    let alloc = rt.alloc();
    let formula = all_equal(alloc, field(alloc, Lab::Own, Term::Var(Y))?)?;
    let made = replace(
        alloc,
        &formula,
        &field(alloc, Lab::Own, Term::Var(Y))?,
        &Term::Num(3),
    )?;
    assert!(rt; same_formula(&made, &all_equal(alloc, Term::Num(3))?));
    let bound = replace(alloc, &formula, &Term::Var(X), &Term::Num(3))?;
    assert!(rt; same_formula(&bound, &formula));
    Ok(())
}

#[test]
fn terms_for_a_message(rt: HostRuntime) -> Result<(), Fail> {
    let alloc = rt.alloc();
    let new = NewMessage {
        id: Term::Len(Lab::At(0)),
        from: Term::Var(X),
        to: Term::Var(Y),
        live: Term::Num(1),
        args: Items::new(alloc),
    };
    let from = Term::Msg {
        msg: M,
        part: Part::From,
    };
    let captured = substitute_message(alloc, &all_equal(alloc, from)?, M, &new);
    assert!(rt; matches!(captured, Err(SubstFault::Capture)));
    let third = Term::Msg {
        msg: M,
        part: Part::Arg(3),
    };
    let made = substitute_message(alloc, &all_equal(alloc, third)?, M, &new)?;
    assert!(rt; same_formula(&made, &all_equal(alloc, Term::Num(0))?));
    Ok(())
}

#[test]
fn a_label_for_self(rt: HostRuntime) -> Result<(), Fail> {
    let alloc = rt.alloc();
    let own = field(alloc, Lab::Own, Term::Var(X))?;
    let named = field(alloc, Lab::At(2), Term::Var(X))?;
    assert!(rt; same_term(&term_at_label(alloc, &own, 2)?, &named));
    let made = at_label(alloc, &all_equal(alloc, own)?, 2)?;
    assert!(rt; same_formula(&made, &all_equal(alloc, named)?));
    Ok(())
}
