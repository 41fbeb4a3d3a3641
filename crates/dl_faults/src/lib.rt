//! What is wrong with a file, once it was read: with its worlds, and then with its obligations and their proofs. And what
//! holds of a file in which nothing is.
//!
//! The folder `specs` says what may be wrong and which of it is answered. The code finds the earlier of two such
//! things, the places of a file's parts, and the first fault of its worlds.
#![tactic(auto)]

mod injections;
mod invariants;
mod labels;
mod laws;
mod places;
mod points;
mod programs;
mod spoken;
mod worlds;
mod wrong;

pub use laws::{
    earliest_goes_first, faultless_files_are_safe, faultless_files_keep_invariants, faults_compute,
    faults_of_programs_compute, obligations_are_met, premises_can_be_met, worlds_are_kept,
};
pub use places::{coherence_place, invariant_place};
pub use points::{Spots, deployed_place, proc_spots, spot_at};
pub use worlds::{hooks_of_worlds_fault, world_fault};
pub use wrong::{Named, Wrong, earlier_of};
