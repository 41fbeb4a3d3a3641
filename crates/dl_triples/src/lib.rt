//! The obligations of procedures and of the deployment: which ones a file has, and the sequent of each.
#![tactic(auto)]

mod laws;

pub use laws::obligations_compute;
