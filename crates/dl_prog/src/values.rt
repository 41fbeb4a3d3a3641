//! The values of expressions and tests, which see the slots of a procedure alone.

ghost use Rattle.std.specs.Prelude.{◌≡◌, ◌≤◌, ◌+ℤ◌, ◌-ℤ◌, length, Some, None, IfSome, if◌then◌else◌};
ghost use Rattle.std.specs.List.{AllByRecursion as Each};
ghost use Rattle.dl_term.specs.Names.{names_of};
ghost use Rattle.dl_term.specs.Meaning.{value, holds};
ghost use Rattle.dl_term.specs.Measures.{IsNarrow, EachIsNarrow};
ghost use Rattle.dl_model.specs.Sorts.{is_i64, all_i64};
ghost use Rattle.dl_model.specs.Words.{no_state};
ghost use Rattle.dl_model.specs.Machine.{value_of, values_of, passes, index_value, index_is_i64, packed};
ghost use Rattle.dl_model.specs.Scopes.{IsIndex};
ghost use Rattle.dl_prog.specs.Slots.{named, named_from};

use crate::nowhere::Nowhere;
use crate::slots::{Slot, number_of};
use dl_model::Args;
use dl_term::{Env, Formula, Term, holds, value};

// The value of an expression, or None where it is outside the range of i64.
pub(crate) fn number(term: &Term, slots: &[Slot; 25]) -> Option<i64>
    requires { IsNarrow term.now }
    ensures { result ≡ (if is_i64 (value_of term.now (named slots.now)) then Some (value_of term.now (named slots.now)) else None) }
{
    match plain(term, slots) {
        Some(value) => Some(value),
        None => in_range(value_of(term, slots)),
    }
}

// The value of a number, a word or a name, which is looked up at once and is always in range.
#[inline(always)]
pub(crate) fn plain(term: &Term, slots: &[Slot; 25]) -> Option<i64>
    ensures { IfSome result (λ found. Some found ≡ (if is_i64 (value_of term.now (named slots.now)) then Some (value_of term.now (named slots.now)) else None)) }
{
    match term {
        Term::Num(number) => in_range(i128::from(*number)),
        Term::Word { value, .. } => in_range(i128::from(*value)),
        Term::Var(sym) => in_range(i128::from(number_of(slots, *sym))),
        _ => None,
    }
}

// The value of an expression. An environment of all the slots costs more than a few looks at them.
fn value_of(term: &Term, slots: &[Slot; 25]) -> i128
    requires { IsNarrow term.now }
    ensures { result ≡ value_of term.now (named slots.now) }
{
    match quick(term, slots) {
        Some(value) => value,
        None => value_in(term, slots, &Env::Empty(0)),
    }
}

// The value of a number, a word, a name, or a sum or a difference of two such.
#[tactic(auto, unfolding(dl_term::specs::Syntax::opened))]
fn quick(term: &Term, slots: &[Slot; 25]) -> Option<i128>
    ensures { IfSome result (λ found. found ≡ value_of term.now (named slots.now)) }
{
    match term {
        Term::Add(left, right) => sum(left.get(), right.get(), slots),
        Term::Sub(left, right) => difference(left.get(), right.get(), slots),
        _ => match atom(term, slots) {
            Some(value) => Some(i128::from(value)),
            None => None,
        },
    }
}

fn sum(left: &Term, right: &Term, slots: &[Slot; 25]) -> Option<i128>
    ensures { IfSome result (λ found. found ≡ value_of left.now (named slots.now) +ℤ value_of right.now (named slots.now)) }
{
    let left = atom(left, slots)?;
    let right = atom(right, slots)?;
    Some(i128::from(left) + i128::from(right))
}

fn difference(left: &Term, right: &Term, slots: &[Slot; 25]) -> Option<i128>
    ensures { IfSome result (λ found. found ≡ value_of left.now (named slots.now) -ℤ value_of right.now (named slots.now)) }
{
    let left = atom(left, slots)?;
    let right = atom(right, slots)?;
    Some(i128::from(left) - i128::from(right))
}

// The value of a number, a word or a name.
#[inline(always)]
fn atom(term: &Term, slots: &[Slot; 25]) -> Option<i64>
    ensures { IfSome result (λ found. found ≡ value_of term.now (named slots.now)) }
{
    match term {
        Term::Num(number) => Some(*number),
        Term::Word { value, .. } => Some(*value),
        Term::Var(sym) => Some(number_of(slots, *sym)),
        _ => None,
    }
}

// Where the value comes from an i64, the test costs nothing once it is inlined.
#[inline(always)]
fn in_range(value: i128) -> Option<i64>
    ensures { result ≡ (if is_i64 value then Some value else None) }
{
    match i64::try_from(value) {
        Ok(number) => Some(number),
        Err(_) => None,
    }
}

fn value_in(term: &Term, slots: &[Slot], env: &Env) -> i128
    requires { IsNarrow term.now }
    ensures { result ≡ value_of term.now (named_from (names_of env.now) slots.now) }
{
    let [slot, slots @ ..] = slots else {
        return value(term, env, &Nowhere);
    };
    value_in(term, slots, &Env::Number(&*env, slot.sym, slot.value))
}

// Whether a test passes.
pub(crate) fn passes(test: &Formula, slots: &[Slot; 25]) -> bool
    requires { EachIsNarrow test.now }
    ensures { result ≡ passes test.now (named slots.now) }
{
    match test {
        Formula::Eq(left, right) => value_of(left, slots) == value_of(right, slots),
        Formula::Lt(left, right) => value_of(left, slots) < value_of(right, slots),
        Formula::Le(left, right) => value_of(left, slots) <= value_of(right, slots),
        _ => passes_in(test, slots, &Env::Empty(0)),
    }
}

fn passes_in(test: &Formula, slots: &[Slot], env: &Env) -> bool
    requires { EachIsNarrow test.now }
    ensures { result ≡ passes test.now (named_from (names_of env.now) slots.now) }
{
    let [slot, slots @ ..] = slots else {
        return holds(test, env, &Nowhere);
    };
    passes_in(test, slots, &Env::Number(&*env, slot.sym, slot.value))
}

// The values of expressions, or None where one is outside the range of i64.
pub(crate) fn numbers(terms: &[Term], slots: &[Slot; 25]) -> Option<Args>
    requires narrow { Each IsNarrow terms.now }
    requires few { length terms.now ≤ 8 }
    ensures { result ≡ (if all_i64 (values_of terms.now (named slots.now)) then Some (packed (values_of terms.now (named slots.now))) else None) }
{
    let mut values = [0; 8];
    for at in 0..terms.len() {
        match number(&terms[at], slots) {
            Some(value) => values[at] = value,
            None => return None,
        }
    }
    Some(Args {
        count: terms.len() as u8,
        values,
    })
}

// The value of the index of a read, where it has one, or None where that is outside the range of i64.
pub(crate) fn index_of(index: &Option<Term>, slots: &[Slot; 25]) -> Option<Option<i64>>
    requires { IsIndex IsNarrow index.now }
    ensures { result ≡ (if index_is_i64 index.now (named slots.now) then Some (index_value index.now (named slots.now)) else None) }
{
    let Some(term) = index else {
        return Some(None);
    };
    match number(term, slots) {
        Some(value) => Some(Some(value)),
        None => None,
    }
}
