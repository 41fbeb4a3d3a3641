//! The rules of proof, and what a script of them proves.
//!
//! The folder `specs` says for each rule its condition and the sequents that it leaves, and which rule of a script is
//! the first one that is refused. A sequent is valid where none of its script's rules is.
#![tactic(auto)]

mod certificates;
mod changes;
mod fault;
mod laws;
mod made;
mod parts;
mod prover;
mod quantifiers;
mod reduce;
mod rules;
mod scope;
mod sequents;

pub use fault::KernelFault;
pub use laws::{nothing_is_captured, rules_compute, scripts_prove};
pub use parts::{Equation, Quantified, Two};
pub use prover::replay;
pub use scope::is_clean;
