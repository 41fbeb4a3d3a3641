//! Trials of the proof kernel: what each rule of proof shows, and what it refuses.
//!
//! What each rule asks for and leaves is worked out in the definitions' own examples. Here the rules are run, with
//! memory, and by calls that every caller has. A crate with tests is proved twice, with them and without. So they stand
//! here, and the kernel is proved once.
#![tactic(auto)]

#[cfg(test)]
mod certificates;
#[cfg(test)]
mod connectives;
#[cfg(test)]
mod counter;
#[cfg(test)]
mod equations;
#[cfg(test)]
mod lines;
#[cfg(test)]
mod maker;
#[cfg(test)]
mod names;
#[cfg(test)]
mod quantifiers;
#[cfg(test)]
mod replays;
#[cfg(test)]
mod scripts;
#[cfg(test)]
mod words;
