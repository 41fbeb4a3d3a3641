//! Copies of terms and formulas.

ghost use Rattle.std.specs.Prelude.{◌≡◌, IfOk};

use crate::syntax::{Formula, Term};
use sqlite_items::Boxed;
use std::alloc::{AllocError, Global};

/// A term that equals the one given. The one refusal is want of memory.
#[cycle(copy_term)]
#[tactic(auto, unfolding(crate::specs::Syntax::opened))]
pub fn copy_term(alloc: Global, term: &Term) -> Result<Term, AllocError>
    ensures { IfOk result (λ copy. copy ≡ term.now) }
{
    match term {
        Term::Num(value) => Ok(Term::Num(*value)),
        Term::Word { sym, value } => Ok(Term::Word {
            sym: *sym,
            value: *value,
        }),
        Term::Var(sym) => Ok(Term::Var(*sym)),
        Term::Field { label, field, node } => {
            let node = copy_boxed(alloc, node)?;
            Ok(Term::Field {
                label: *label,
                field: *field,
                node,
            })
        }
        Term::Row {
            label,
            field,
            node,
            index,
        } => {
            let node = copy_boxed(alloc, node)?;
            let index = copy_boxed(alloc, index)?;
            Ok(Term::Row {
                label: *label,
                field: *field,
                node,
                index,
            })
        }
        Term::Len(label) => Ok(Term::Len(*label)),
        Term::Msg { msg, part } => Ok(Term::Msg {
            msg: *msg,
            part: *part,
        }),
        Term::Add(left, right) => Ok(Term::Add(
            copy_boxed(alloc, left)?,
            copy_boxed(alloc, right)?,
        )),
        Term::Sub(left, right) => Ok(Term::Sub(
            copy_boxed(alloc, left)?,
            copy_boxed(alloc, right)?,
        )),
        Term::Mul(left, right) => Ok(Term::Mul(
            copy_boxed(alloc, left)?,
            copy_boxed(alloc, right)?,
        )),
        Term::If(left, right, yes, no) => Ok(Term::If(
            copy_boxed(alloc, left)?,
            copy_boxed(alloc, right)?,
            copy_boxed(alloc, yes)?,
            copy_boxed(alloc, no)?,
        )),
    }
}

#[cycle(copy_term)]
fn copy_boxed(alloc: Global, term: &Boxed<Term>) -> Result<Boxed<Term>, AllocError>
    ensures { IfOk result (λ copy. copy ≡ term.now) }
{
    let copy = copy_term(alloc, term.get())?;
    Boxed::new(alloc, copy)
}

/// A formula that equals the one given. The one refusal is want of memory.
#[cycle(copy_formula)]
#[tactic(auto, unfolding(crate::specs::Syntax::opened))]
pub fn copy_formula(alloc: Global, formula: &Formula) -> Result<Formula, AllocError>
    ensures { IfOk result (λ copy. copy ≡ formula.now) }
{
    match formula {
        Formula::True => Ok(Formula::True),
        Formula::False => Ok(Formula::False),
        Formula::Eq(left, right) => Ok(Formula::Eq(
            copy_term(alloc, left)?,
            copy_term(alloc, right)?,
        )),
        Formula::Lt(left, right) => Ok(Formula::Lt(
            copy_term(alloc, left)?,
            copy_term(alloc, right)?,
        )),
        Formula::Le(left, right) => Ok(Formula::Le(
            copy_term(alloc, left)?,
            copy_term(alloc, right)?,
        )),
        Formula::Not(body) => Ok(Formula::Not(copy_body(alloc, body)?)),
        Formula::And(left, right) => Ok(Formula::And(
            copy_body(alloc, left)?,
            copy_body(alloc, right)?,
        )),
        Formula::Or(left, right) => Ok(Formula::Or(
            copy_body(alloc, left)?,
            copy_body(alloc, right)?,
        )),
        Formula::Implies(left, right) => Ok(Formula::Implies(
            copy_body(alloc, left)?,
            copy_body(alloc, right)?,
        )),
        Formula::All { sym, body } => Ok(Formula::All {
            sym: *sym,
            body: copy_body(alloc, body)?,
        }),
        Formula::Exists { sym, body } => Ok(Formula::Exists {
            sym: *sym,
            body: copy_body(alloc, body)?,
        }),
        Formula::Each {
            msg,
            label,
            tag,
            body,
        } => {
            let body = copy_body(alloc, body)?;
            Ok(Formula::Each {
                msg: *msg,
                label: *label,
                tag: *tag,
                body,
            })
        }
        Formula::Any {
            msg,
            label,
            tag,
            body,
        } => {
            let body = copy_body(alloc, body)?;
            Ok(Formula::Any {
                msg: *msg,
                label: *label,
                tag: *tag,
                body,
            })
        }
    }
}

#[cycle(copy_formula)]
fn copy_body(alloc: Global, body: &Boxed<Formula>) -> Result<Boxed<Formula>, AllocError>
    ensures { IfOk result (λ copy. copy ≡ body.now) }
{
    let copy = copy_formula(alloc, body.get())?;
    Boxed::new(alloc, copy)
}
