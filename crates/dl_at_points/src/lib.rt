//! The sequents of what stands at the points of a procedure: a send, a receive, a message that didn't come, a read, a loop
//! and a call.
#![tactic(auto)]

mod assigned;
mod called;
mod got;
mod looped;
mod sent;

pub use assigned::{missed_point, read_point};
pub use called::{enter_point, leave_point};
pub use got::got_point;
pub use looped::{body_point, exit_point};
pub use sent::{guard_point, sent_point};
