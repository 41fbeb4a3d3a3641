//! Tests of reports, by public items alone.
//!
//! A crate with tests is proved twice, with them and without. So they stand here, and the crate below is proved once.
#![tactic(auto)]

#[cfg(test)]
mod example;
#[cfg(test)]
mod read;
#[cfg(test)]
mod reports;
