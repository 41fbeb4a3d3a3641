//! The check of a file that was read: the first fault of its obligations and their proofs, how what is wrong is shown,
//! and the answer of the whole.
//!
//! What may be wrong is said in dl_faults. Each call here answers exactly that, or want of memory. Every run of an
//! accepted file is safe.
#![tactic(auto)]

mod checked;
mod duties;
mod extras;
mod keys;
mod known;
mod named;
mod parts;
mod sequents;
mod spare;
mod whole;

pub use checked::check;
pub use duties::obligation_fault;
pub use named::shown;
