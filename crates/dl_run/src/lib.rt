//! The serial run of a file's programs, with its report.
//!
//! [`run_file`] takes a file that was checked, runs its programs from the first state on, and writes what happened.
#![tactic(auto)]

mod ends;
mod run;

pub use run::{Reported, run_file};
