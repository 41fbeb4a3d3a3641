//! Linear forms of terms, read one column at a time.

ghost use Rattle.std.specs.Prelude.{◌≡◌};
ghost use Rattle.std.specs.Option.{option_copied};
ghost use Rattle.dl_linear.specs.Forms.{constant as constant_of, constant_in, atom_in, is_among as among};
ghost use Rattle.dl_linear.specs.Columns.{narrow_form};

use crate::narrow::{add, multiply, subtract};
use dl_term::{Term, same_term};

/// The value of a term that is a number, or a name of a node or an enumerator, and None for every other term.
pub fn constant(term: &Term) -> Option<i64>
    ensures { result ≡ constant_of term.now }
{
    match term {
        Term::Num(value) => Some(*value),
        Term::Word { value, .. } => Some(*value),
        _ => None,
    }
}

/// What a term's linear form has in a column, where that and what its parts have there are numbers of 64 bits.
/// The column is an atom, or None for the constant.
#[tactic(auto, unfolding(dl_term::specs::Syntax::opened))]
pub(crate) fn read_form(term: &Term, column: Option<&Term>) -> Option<i64>
    ensures { result ≡ narrow_form (option_copied column.entry) term.now }
{
    match term {
        Term::Num(value) => Some(read_constant(*value, column)),
        Term::Word { value, .. } => Some(read_constant(*value, column)),
        Term::Add(left, right) => add(
            read_form(left.get(), column),
            read_form(right.get(), column),
        ),
        Term::Sub(left, right) => {
            subtract(
                read_form(left.get(), column),
                read_form(right.get(), column),
            )
        }
        Term::Mul(left, right) => match (constant(left.get()), constant(right.get())) {
            (Some(factor), _) => multiply(factor, read_form(right.get(), column)),
            (None, Some(factor)) => multiply(factor, read_form(left.get(), column)),
            (None, None) => Some(read_atom(term, column)),
        },
        _ => Some(read_atom(term, column)),
    }
}

fn read_constant(value: i64, column: Option<&Term>) -> i64
    ensures { result ≡ constant_in (option_copied column.entry) value }
{
    match column {
        Some(_) => 0,
        None => value,
    }
}

fn read_atom(term: &Term, column: Option<&Term>) -> i64
    ensures { result ≡ atom_in (option_copied column.entry) term.now }
{
    match column {
        Some(atom) => i64::from(same_term(term, atom)),
        None => 0,
    }
}

/// Whether the term is one of the terms.
pub(crate) fn is_among(term: &Term, terms: &[Term]) -> bool
    ensures { result ≡ among term.now terms.now }
{
    for other in terms {
        if same_term(term, other) {
            return true;
        }
    }
    false
}
