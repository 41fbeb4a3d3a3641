//! Histories: what a replay of one gives, and what a history says of a run.
//!
//! An entry of a history is an event of the model: a node takes ticks, makes a call and gets a reply. [`replay`] makes
//! one event after another and answers the configuration after them, or the first entry that is no event.
#![tactic(auto)]

mod config;
mod declared;
mod events;
mod fault;
mod free;
mod laws;
mod replaying;
mod replies;
mod same;
mod start;
mod steps;
mod ticks;
mod turns;

pub use config::{Config, Machines};
pub use dl_model::{Call, Decls, End, Entry, Reply};
pub use dl_prog::Cont;
pub use dl_state::{Shape, WorldState};
pub use fault::ReplayFault;
pub use laws::{fault_decides, run_decides, run_is_soup_run, run_tells_state, waits_are_idle};
pub use replaying::replay;
