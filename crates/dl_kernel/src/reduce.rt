//! A formula where each `if` with a known test is decided.

ghost use Rattle.std.specs.Prelude.{◌≡◌, if◌then◌else◌, IfOk};
ghost use Rattle.dl_kernel.specs.Reduced.{see_variable, see_message, are_these, reduced_in, reduced};

use dl_term::{Formula, Term, copy_formula, message_in, same_term, variable_in};
use sqlite_items::Boxed;
use std::alloc::{AllocError, Global};

fn tests_these(tested: &Term, with: &Term, left: &Term, right: &Term) -> bool
    ensures { result ≡ are_these tested.now with.now left.now right.now }
{
    same_term(tested, left) && same_term(with, right)
        || same_term(tested, right) && same_term(with, left)
}

/// The term where each `if` that tests the two terms is decided.
#[cycle(reduce_term)]
#[tactic(auto, unfolding(dl_term::specs::Syntax::opened))]
fn reduce_term(
    alloc: Global,
    term: &Term,
    left: &Term,
    right: &Term,
    equal: bool,
) -> Result<Term, AllocError>
    ensures { IfOk result (λ made. made ≡ reduced_in term.now left.now right.now equal) }
{
    match term {
        Term::Num(value) => Ok(Term::Num(*value)),
        Term::Word { sym, value } => Ok(Term::Word {
            sym: *sym,
            value: *value,
        }),
        Term::Var(sym) => Ok(Term::Var(*sym)),
        Term::Field { label, field, node } => {
            let node = reduce_part(alloc, node, left, right, equal)?;
            Ok(Term::Field {
                label: *label,
                field: *field,
                node,
            })
        }
        Term::Row {
            label,
            field,
            node,
            index,
        } => {
            let node = reduce_part(alloc, node, left, right, equal)?;
            let index = reduce_part(alloc, index, left, right, equal)?;
            Ok(Term::Row {
                label: *label,
                field: *field,
                node,
                index,
            })
        }
        Term::Len(label) => Ok(Term::Len(*label)),
        Term::Msg { msg, part } => Ok(Term::Msg {
            msg: *msg,
            part: *part,
        }),
        Term::Add(one, other) => Ok(Term::Add(
            reduce_part(alloc, one, left, right, equal)?,
            reduce_part(alloc, other, left, right, equal)?,
        )),
        Term::Sub(one, other) => Ok(Term::Sub(
            reduce_part(alloc, one, left, right, equal)?,
            reduce_part(alloc, other, left, right, equal)?,
        )),
        Term::Mul(one, other) => Ok(Term::Mul(
            reduce_part(alloc, one, left, right, equal)?,
            reduce_part(alloc, other, left, right, equal)?,
        )),
        Term::If(tested, with, yes, no) => {
            if tests_these(tested.get(), with.get(), left, right) {
                if equal {
                    reduce_term(alloc, yes.get(), left, right, equal)
                } else {
                    reduce_term(alloc, no.get(), left, right, equal)
                }
            } else {
                Ok(Term::If(
                    reduce_part(alloc, tested, left, right, equal)?,
                    reduce_part(alloc, with, left, right, equal)?,
                    reduce_part(alloc, yes, left, right, equal)?,
                    reduce_part(alloc, no, left, right, equal)?,
                ))
            }
        }
    }
}

#[cycle(reduce_term)]
fn reduce_part(
    alloc: Global,
    term: &Boxed<Term>,
    left: &Term,
    right: &Term,
    equal: bool,
) -> Result<Boxed<Term>, AllocError>
    ensures { IfOk result (λ made. made ≡ reduced_in term.now left.now right.now equal) }
{
    let made = reduce_term(alloc, term.get(), left, right, equal)?;
    Boxed::new(alloc, made)
}

fn sees_variable(left: &Term, right: &Term, name: u32) -> bool
    ensures { result ≡ see_variable left.now right.now name }
{
    variable_in(left, name) || variable_in(right, name)
}

fn sees_message(left: &Term, right: &Term, name: u32) -> bool
    ensures { result ≡ see_message left.now right.now name }
{
    message_in(left, name) || message_in(right, name)
}

/// The formula where each `if` that tests the two terms is decided.
#[cycle(reduce_formula)]
#[tactic(auto, unfolding(dl_term::specs::Syntax::opened))]
pub(crate) fn reduce_formula(
    alloc: Global,
    formula: &Formula,
    left: &Term,
    right: &Term,
    equal: bool,
) -> Result<Formula, AllocError>
    ensures { IfOk result (λ made. made ≡ reduced formula.now left.now right.now equal) }
{
    match formula {
        Formula::True => Ok(Formula::True),
        Formula::False => Ok(Formula::False),
        Formula::Eq(one, other) => Ok(Formula::Eq(
            reduce_term(alloc, one, left, right, equal)?,
            reduce_term(alloc, other, left, right, equal)?,
        )),
        Formula::Lt(one, other) => Ok(Formula::Lt(
            reduce_term(alloc, one, left, right, equal)?,
            reduce_term(alloc, other, left, right, equal)?,
        )),
        Formula::Le(one, other) => Ok(Formula::Le(
            reduce_term(alloc, one, left, right, equal)?,
            reduce_term(alloc, other, left, right, equal)?,
        )),
        Formula::Not(body) => Ok(Formula::Not(reduce_body(alloc, body, left, right, equal)?)),
        Formula::And(one, other) => Ok(Formula::And(
            reduce_body(alloc, one, left, right, equal)?,
            reduce_body(alloc, other, left, right, equal)?,
        )),
        Formula::Or(one, other) => Ok(Formula::Or(
            reduce_body(alloc, one, left, right, equal)?,
            reduce_body(alloc, other, left, right, equal)?,
        )),
        Formula::Implies(one, other) => Ok(Formula::Implies(
            reduce_body(alloc, one, left, right, equal)?,
            reduce_body(alloc, other, left, right, equal)?,
        )),
        Formula::All { sym, body } => {
            let sees = sees_variable(left, right, *sym);
            let body = reduce_under(alloc, sees, body, left, right, equal)?;
            Ok(Formula::All { sym: *sym, body })
        }
        Formula::Exists { sym, body } => {
            let sees = sees_variable(left, right, *sym);
            let body = reduce_under(alloc, sees, body, left, right, equal)?;
            Ok(Formula::Exists { sym: *sym, body })
        }
        Formula::Each {
            msg,
            label,
            tag,
            body,
        } => {
            let sees = sees_message(left, right, *msg);
            let body = reduce_under(alloc, sees, body, left, right, equal)?;
            Ok(Formula::Each {
                msg: *msg,
                label: *label,
                tag: *tag,
                body,
            })
        }
        Formula::Any {
            msg,
            label,
            tag,
            body,
        } => {
            let sees = sees_message(left, right, *msg);
            let body = reduce_under(alloc, sees, body, left, right, equal)?;
            Ok(Formula::Any {
                msg: *msg,
                label: *label,
                tag: *tag,
                body,
            })
        }
    }
}

#[cycle(reduce_formula)]
fn reduce_body(
    alloc: Global,
    body: &Boxed<Formula>,
    left: &Term,
    right: &Term,
    equal: bool,
) -> Result<Boxed<Formula>, AllocError>
    ensures { IfOk result (λ made. made ≡ reduced body.now left.now right.now equal) }
{
    let made = reduce_formula(alloc, body.get(), left, right, equal)?;
    Boxed::new(alloc, made)
}

// A body under a quantifier, which stays where that binds a name of one of the terms.
#[cycle(reduce_formula)]
fn reduce_under(
    alloc: Global,
    sees: bool,
    body: &Boxed<Formula>,
    left: &Term,
    right: &Term,
    equal: bool,
) -> Result<Boxed<Formula>, AllocError>
    ensures { IfOk result (λ made. made ≡ (if sees then body.now else reduced body.now left.now right.now equal)) }
{
    if sees {
        let same = copy_formula(alloc, body.get())?;
        Boxed::new(alloc, same)
    } else {
        reduce_body(alloc, body, left, right, equal)
    }
}
