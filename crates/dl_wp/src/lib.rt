//! Backward steps: the formula that says before a step, or in any state, what a formula says after it, or of the first
//! state.
//!
//! Each call makes one formula, says how it is written, and refuses a captured name and a result that is too large. Where
//! the results hold is said by the laws [`sends_hold`], [`receives_hold`] and [`first_states_hold`].
#![tactic(auto)]

mod before;
mod bound;
mod calls;
mod captures;
mod faults;
mod first;
mod laws;
mod picks;
mod plan;
mod room;
mod sight;
mod steps;

pub use calls::{at_init, before_receive, before_send, message_args};
pub use faults::WpFault;
pub use laws::{first_states_hold, receives_hold, sends_hold};
pub use plan::{Sight, spoken_of, tag_of};
pub use sight::seen;
pub use steps::{ReceiveStep, SendStep};
