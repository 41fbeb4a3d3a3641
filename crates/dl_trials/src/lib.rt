//! Tests of trees, terms, substitution and linear lines, by public items alone.
//!
//! A crate with tests is proved twice, with them and without. So they stand here, and the crates below are proved once.
#![tactic(auto)]

#[cfg(test)]
mod linear;
#[cfg(test)]
mod subst;
#[cfg(test)]
mod term;
#[cfg(test)]
mod tree;
