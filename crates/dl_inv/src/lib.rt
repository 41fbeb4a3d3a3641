//! The obligations of protocols and invariants: which ones a file has, and the sequent of each.
#![tactic(auto)]

mod facts;
mod fits;
mod hooks;
mod joined;
mod laws;
mod listed;
mod rule;
mod sequents;
mod step;
mod touched;

pub use facts::{Extent, add_fact, add_facts, extent_of};
pub use fits::in_sort;
pub use hooks::{Sending, all_hooks};
pub use joined::{add_part, both, join};
pub use laws::{
    file_names_may_be_taken, injection_is_told, nothing_is_captured, obligations_are_clean,
    obligations_compute,
};
pub use listed::{duties, find_protocol};
pub use rule::{add_receive, add_send, add_send_parts};
pub use sequents::{BuildFault, build};
pub use step::{params_of, receive_by, receive_known, send_by, send_known, step_terms};
pub use touched::{Move, touches};
