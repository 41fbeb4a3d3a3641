//! What commands ask for where they begin, where the points of a procedure stand, and what has to hold after one.
#![tactic(auto)]

mod backward;
mod points;

pub use backward::{Trail, after_over, opposite, pre, put_formula, value_over};
pub use points::{commands_from, next_of_point};
