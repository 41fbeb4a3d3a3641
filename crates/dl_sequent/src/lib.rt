//! Sequents and the scripts that prove them: their types, what a clean sequent is, and what can be told of a sequent
//! at a glance.
//!
//! A script gives rules of proof. What its rules do is not said here.
#![tactic(auto)]

mod duty;
mod laws;
mod plain_goal;
mod ranges;
mod script;
mod sizes;

pub use dl_model::{Hypothesis, Sequent};
pub use duty::Duty;
pub use laws::{
    bounds_compute, clean_computes, formed_is_grounded, obligations_compute, plain_computes,
};
pub use plain_goal::plain;
pub use ranges::{bounds, is_node_term, message_of, node_sort, sort_of, written_label};
pub use script::{Given, Rule, Script};
pub use sizes::{is_too_large, sequent_size};
