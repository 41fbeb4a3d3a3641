//! Tests of which files are formed, by public items alone.
//!
//! A crate with tests is proved twice, with them and without. So they stand here, and the crate below is proved once.
#![tactic(auto)]

#[cfg(test)]
mod formed;
