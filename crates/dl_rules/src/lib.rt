//! The rules of names and sorts at a place of a file.
//!
//! Whether a name, a number, a constant, a list as a whole, a formula or a term breaks a rule where it stands, by
//! what stands before it.
#![tactic(auto)]

mod bound;
mod formula;
mod lists;
mod rules;
mod seen;
mod sight;
mod values;
mod width;

pub use bound::add_bound;
pub use formula::fault;
pub use lists::{claim, list_rule};
pub use rules::{constant_rule, name_rule, number_rule, rule_if};
pub use sight::{Bound, Labels, Sight, Variables};
pub use values::is_first_outside;
