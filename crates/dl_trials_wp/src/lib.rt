//! Tests of backward steps, by public items alone.
//!
//! A crate with tests is proved twice, with them and without. So they stand here, and the crates below are proved once.
#![tactic(auto)]

#[cfg(test)]
mod cases;
#[cfg(test)]
mod edges;
#[cfg(test)]
mod examples;
#[cfg(test)]
mod limits;
#[cfg(test)]
mod maker;
#[cfg(test)]
mod steps;
#[cfg(test)]
mod words;
