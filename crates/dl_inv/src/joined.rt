//! Formulas joined into one that says all of them.

ghost use Rattle.std.specs.Prelude.{◌≡◌, ◌++◌, ◌∷◌, [], not, filter, IfOk, OnOk};
ghost use Rattle.dl_term.specs.declared.syntax.Formula.{And};
ghost use Rattle.dl_inv.specs.Joined.{is_true as says_nothing, nested};

use dl_term::Formula;
use sqlite_items::{Boxed, Items};
use std::alloc::{AllocError, Global};

fn is_true(formula: &Formula) -> bool
    ensures { result ≡ says_nothing formula.now }
{
    match formula {
        Formula::True => true,
        _ => false,
    }
}

/// Adds a formula to those that are joined, unless it is `true`.
pub fn add_part(parts: &mut Items<Formula>, formula: Formula) -> Result<(), AllocError>
    ensures { OnOk result (parts.new ≡ parts.old ++ filter (λ f. not (says_nothing f)) (formula ∷ [])) }
{
    if is_true(&formula) {
        drop(formula);
        return Ok(());
    }
    parts.push(formula)
}

/// Both formulas.
pub fn both(alloc: Global, left: Formula, right: Formula) -> Result<Formula, AllocError>
    ensures { IfOk result (λ made. made ≡ And left right) }
{
    match Boxed::new(alloc, left) {
        Ok(left) => both_with(alloc, left, right),
        Err(error) => {
            drop(right);
            Err(error)
        }
    }
}

// Both formulas, the first of which has its memory.
fn both_with(alloc: Global, left: Boxed<Formula>, right: Formula) -> Result<Formula, AllocError>
    ensures { IfOk result (λ made. made ≡ And left right) }
{
    match Boxed::new(alloc, right) {
        Ok(right) => Ok(Formula::And(left, right)),
        Err(error) => {
            drop(left);
            Err(error)
        }
    }
}

/// All of the formulas, nested to the right. They are taken out of the list.
pub fn join(alloc: Global, parts: &mut Items<Formula>) -> Result<Formula, AllocError>
    ensures { IfOk result (λ made. made ≡ nested parts.old) }
{
    match parts.pop() {
        Some(last) => join_onto(parts, alloc, last),
        None => Ok(Formula::True),
    }
}

// The formulas of the list, and then this one.
fn join_onto(
    parts: &mut Items<Formula>,
    alloc: Global,
    last: Formula,
) -> Result<Formula, AllocError>
    ensures { IfOk result (λ made. made ≡ nested (parts.old ++ last ∷ [])) }
{
    match parts.pop() {
        Some(part) => {
            let joined = both(alloc, part, last)?;
            join_onto(parts, alloc, joined)
        }
        None => Ok(last),
    }
}
