//! The nodes' programs at work over one soup.
//!
//! [`finish`] runs them by the serial schedule, on one thread, and says how each of them ends. [`run_serial`] does this for
//! the programs of a file, from the first state on.
#![tactic(auto)]

mod bare;
mod begin;
mod laws;
mod round;
mod schedule;
mod turn;

pub use bare::Bare;
pub use begin::{Run, run_serial};
pub use dl_model::{End, Proc};
pub use laws::{
    serial_decides, serial_runs_are_soup_runs, serial_runs_are_traced, serial_runs_have_ended,
};
pub use schedule::finish;
