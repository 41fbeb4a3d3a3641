//! Tests of the obligations of programs, by public items alone.
//!
//! A crate with tests is proved twice, with them and without. So they stand here, and the crates below are proved once.
#![tactic(auto)]

#[cfg(test)]
mod obligations;
