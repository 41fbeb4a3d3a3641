//! What a reader must believe: the declarations of a file, and the model of its runs.
//!
//! The types are plain data. The folder `specs` says what they mean: states, steps, hooks, node machines,
//! events, runs, and when a run is safe. Nothing here knows of obligations, scripts or backward steps.
#![tactic(auto)]

mod copy;
mod file;
mod history;
mod laws;
mod program;
mod protocol;
mod sequent;

pub use file::{Decls, Deploy, Invariant, Program, World};
pub use history::{Args, Call, End, Entry, Order, Reply};
pub use laws::{
    counter_computes, ends_compute, examples_are_formed, hook_computes, machine_computes,
    mail_computes, matches_are_found, order_computes, prefixes_are_runs, updates_compute,
    validity_computes, waits_compute, well_sorted_is_kept,
};
pub use program::{Command, Proc};
pub use protocol::{FieldDecl, Hook, Instances, Protocol, Tag, Transition, Update};
pub use sequent::{Hypothesis, Sequent};
