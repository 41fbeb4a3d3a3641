//! Trials of histories: which of them are runs, and where the others have their first fault.
//!
//! A crate with tests is proved twice, with them and without. So they stand here, and the crate below is proved once.
#![tactic(auto)]

#[cfg(test)]
mod entries;
#[cfg(test)]
mod replays;
