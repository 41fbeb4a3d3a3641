//! Terms and formulas over the state of a distributed protocol, and what they mean there.
//!
//! A term has a whole number as its value, and a formula holds or doesn't. Both depend on a state, which a
//! [`View`] tells, and on an [`Env`], which says what the names in scope stand for. A value is exact: it is
//! computed in `i128`, and the bound that [`magnitude`] gives says beforehand whether it fits.
#![tactic(auto)]

mod copy;
mod evaluate;
mod laws;
mod measure;
mod same;
mod syntax;
mod view;

pub use copy::{copy_formula, copy_term};
pub use evaluate::{holds, value};
pub use laws::{quantifiers_read, sameness_is_equality, values_are_bounded};
pub use measure::{
    DEEPEST_NESTING, LARGEST_SIZE, depth, free, free_message, free_variable, magnitude, message_in,
    oversized, size, term_depth, term_size, variable_in,
};
pub use same::{same_formula, same_label, same_part, same_term};
pub use syntax::{Env, Formula, Lab, Part, Sort, Term};
pub use view::View;
