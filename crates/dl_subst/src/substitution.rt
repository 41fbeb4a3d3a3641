//! The calls.

ghost use Rattle.std.specs.Prelude.{◌≡◌, ◌↔◌, ◌≤◌, ◌<◌, ◌+◌, true, false, IfOk, IfSome, IfNone};
ghost use Rattle.dl_term.specs.Measures.{formula_parts, is_oversized};
ghost use Rattle.dl_subst.specs.Change.{Change as AnyChange, changed, captures};
ghost use Rattle.dl_subst.specs.Code.{change_of};
ghost use Rattle.dl_subst.specs.Substitution.{for_variable, for_message, for_term, substituted, message_substituted, replaced, with_label, term_with_label, terms_put};

use crate::build::{change_formula, change_term};
use crate::captures::captures_name;
use crate::change::{Around, Change};
use crate::faults::SubstFault;
use crate::message::NewMessage;
use crate::sizes::{depth_after, room_after};
use dl_term::{DEEPEST_NESTING, Formula, LARGEST_SIZE, Lab, Term};
use std::alloc::{AllocError, Global};

/// The formula with the term in each place where the variable is free.
///
/// The result holds exactly where the formula holds with the variable as the term's value (`substitutions_hold`).
/// `Capture` comes exactly where a name that is free in the term is bound around such a place. Otherwise `Size` comes
/// exactly where the result has more than 1,000,000 parts or nests more than 4,000 deep.
pub fn substitute(
    alloc: Global,
    formula: &Formula,
    sym: u32,
    term: &Term,
) -> Result<Formula, SubstFault>
    ensures made { IfOk result (λ made. made ≡ substituted formula.now sym term.now) }
    ensures capture { (result ≡ Err SubstFault.Capture) ↔ (captures (for_variable sym term.now) formula.now ≡ true) }
    ensures size { (result ≡ Err SubstFault.Size) ↔ ((captures (for_variable sym term.now) formula.now ≡ false) × (is_oversized (substituted formula.now sym term.now) ≡ true)) }
{
    make(alloc, formula, &Change::ForVariable(sym, &*term))
}

/// The formula with the new terms in the places of the parts of the message, where its name is free.
///
/// The result holds exactly where the formula holds with the parts of the message read as the given terms
/// (`messages_hold`). `Capture` comes exactly where a name that is free in a new term is bound around a place where
/// this term is put. Otherwise `Size` comes exactly where the result has more than 1,000,000 parts or nests more than
/// 4,000 deep.
pub fn substitute_message(
    alloc: Global,
    formula: &Formula,
    msg: u32,
    new: &NewMessage,
) -> Result<Formula, SubstFault>
    ensures made { IfOk result (λ made. made ≡ message_substituted formula.now msg new.now) }
    ensures capture { (result ≡ Err SubstFault.Capture) ↔ (captures (for_message msg new.now) formula.now ≡ true) }
    ensures size { (result ≡ Err SubstFault.Size) ↔ ((captures (for_message msg new.now) formula.now ≡ false) × (is_oversized (message_substituted formula.now msg new.now) ≡ true)) }
{
    make(alloc, formula, &Change::ForMessage(msg, &*new))
}

/// The formula with the new terms in the places of the parts of the message, as [`substitute_message`] makes it, with no
/// look at captures or at the size. The one refusal is want of memory.
pub fn put_message(
    alloc: Global,
    formula: &Formula,
    msg: u32,
    new: &NewMessage,
) -> Result<Formula, AllocError>
    ensures { IfOk result (λ made. made ≡ message_substituted formula.now msg new.now) }
{
    change_formula(alloc, &Change::ForMessage(msg, &*new), formula)
}

/// What is left of a room, in parts, after the result of [`put_message`], or None where it has not enough.
pub fn room_after_message(formula: &Formula, msg: u32, new: &NewMessage, room: u64) -> Option<u64>
    requires { room ≤ 1000000 }
    ensures left { IfSome result (λ left. left + formula_parts (message_substituted formula.now msg new.now) ≡ room) }
    ensures lacks { IfNone result (room < formula_parts (message_substituted formula.now msg new.now)) }
{
    room_after(&Change::ForMessage(msg, &*new), formula, room)
}

/// The formula with the new term for each outermost occurrence of the old one. A place under a quantifier that binds a
/// name of the old term is no occurrence.
///
/// The result holds exactly where the formula holds, with names and in states that give both terms one value
/// (`replacements_hold`). `Capture` comes exactly where a name that is free in the new term is bound around an
/// occurrence. Otherwise `Size` comes exactly where the result has more than 1,000,000 parts or nests more than 4,000
/// deep.
pub fn replace(
    alloc: Global,
    formula: &Formula,
    old: &Term,
    new: &Term,
) -> Result<Formula, SubstFault>
    ensures made { IfOk result (λ made. made ≡ replaced formula.now old.now new.now) }
    ensures capture { (result ≡ Err SubstFault.Capture) ↔ (captures (for_term old.now new.now) formula.now ≡ true) }
    ensures size { (result ≡ Err SubstFault.Size) ↔ ((captures (for_term old.now new.now) formula.now ≡ false) × (is_oversized (replaced formula.now old.now new.now) ≡ true)) }
{
    make(alloc, formula, &Change::ForTerm(&*old, &*new))
}

/// The formula with the label in place of `self`. The one refusal is want of memory, since the size stays.
///
/// The result holds, whatever `self` stands for, exactly where the formula holds with this label as `self`
/// (`labels_hold`).
pub fn at_label(alloc: Global, formula: &Formula, label: u8) -> Result<Formula, AllocError>
    ensures { IfOk result (λ made. made ≡ with_label formula.now label) }
{
    change_formula(alloc, &Change::ForOwn(label), formula)
}

/// The term with the label in place of `self`. The one refusal is want of memory.
pub fn term_at_label(alloc: Global, term: &Term, label: u8) -> Result<Term, AllocError>
    ensures { IfOk result (λ made. made ≡ term_with_label term.now label) }
{
    change_term(alloc, &Change::ForOwn(label), term)
}

/// The formula with a term for each of these variables, all at once, and the label in place of `self`, with no look at
/// captures or at the size. A variable past the last term becomes 0, and of one that stands twice the last term is put.
/// No quantifier should bind one of the variables, since places below it are changed too. The one refusal is want of
/// memory.
pub fn put_terms(
    alloc: Global,
    formula: &Formula,
    syms: &[u32],
    terms: &[Term],
    own: Lab,
) -> Result<Formula, AllocError>
    ensures { IfOk result (λ made. made ≡ terms_put formula.now syms.now terms.now own) }
{
    change_formula(alloc, &Change::ForVariables(&*syms, &*terms, own), formula)
}

/// The formula with the term for the variable, with no look at captures.
///
/// `Capture` never comes. `Size` comes exactly where the result has more than 1,000,000 parts or nests more than 4,000
/// deep, before any of it is built.
pub fn put_term(
    alloc: Global,
    formula: &Formula,
    sym: u32,
    term: &Term,
) -> Result<Formula, SubstFault>
    ensures made { IfOk result (λ made. made ≡ substituted formula.now sym term.now) }
    ensures small { IfOk result (λ made. is_oversized made ≡ false) }
    ensures capture { (result ≡ Err SubstFault.Capture) → ⊥ }
    ensures size { (result ≡ Err SubstFault.Size) ↔ (is_oversized (substituted formula.now sym term.now) ≡ true) }
{
    make_within(alloc, formula, &Change::ForVariable(sym, &*term))
}

/// As [`put_terms`], but where the result has more than 1,000,000 parts or nests more than 4,000 deep, `Size` comes before
/// any of it is built. `Capture` never comes.
pub fn put_terms_within(
    alloc: Global,
    formula: &Formula,
    syms: &[u32],
    terms: &[Term],
    own: Lab,
) -> Result<Formula, SubstFault>
    ensures made { IfOk result (λ made. made ≡ terms_put formula.now syms.now terms.now own) }
    ensures small { IfOk result (λ made. is_oversized made ≡ false) }
    ensures capture { (result ≡ Err SubstFault.Capture) → ⊥ }
    ensures size { (result ≡ Err SubstFault.Size) ↔ (is_oversized (terms_put formula.now syms.now terms.now own) ≡ true) }
{
    make_within(alloc, formula, &Change::ForVariables(&*syms, &*terms, own))
}

fn make_within(alloc: Global, formula: &Formula, change: &Change) -> Result<Formula, SubstFault>
    ensures made { IfOk result (λ made. made ≡ changed (change_of change.now) formula.now) }
    ensures small { IfOk result (λ made. is_oversized made ≡ false) }
    ensures capture { (result ≡ Err SubstFault.Capture) → ⊥ }
    ensures size { (result ≡ Err SubstFault.Size) ↔ (is_oversized (changed (change_of change.now) formula.now) ≡ true) }
{
    if is_too_large(change, formula) {
        return Err(SubstFault::Size);
    }
    match change_formula(alloc, change, formula) {
        Ok(made) => Ok(made),
        Err(_) => Err(SubstFault::Memory),
    }
}

fn make(alloc: Global, formula: &Formula, change: &Change) -> Result<Formula, SubstFault>
    ensures made { IfOk result (λ made. made ≡ changed (change_of change.now) formula.now) }
    ensures capture { (result ≡ Err SubstFault.Capture) ↔ (captures (change_of change.now) formula.now ≡ true) }
    ensures size { (result ≡ Err SubstFault.Size) ↔ ((captures (change_of change.now) formula.now ≡ false) × (is_oversized (changed (change_of change.now) formula.now) ≡ true)) }
{
    if captures_name(change, &Around::Nothing, formula) {
        return Err(SubstFault::Capture);
    }
    if is_too_large(change, formula) {
        return Err(SubstFault::Size);
    }
    match change_formula(alloc, change, formula) {
        Ok(made) => Ok(made),
        Err(_) => Err(SubstFault::Memory),
    }
}

// Whether the changed formula counts as one of more than 1,000,000 parts.
fn is_too_large(change: &Change, formula: &Formula) -> bool
    ensures { result ≡ is_oversized (changed (change_of change.now) formula.now) }
{
    match room_after(change, formula, LARGEST_SIZE) {
        Some(_) => depth_after(change, formula) > DEEPEST_NESTING,
        None => true,
    }
}
