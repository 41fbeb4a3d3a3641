//! Sources and sinks of bytes that count their faults, whole inputs and whole outputs, and the
//! gate at which tests hold threads.
#![tactic(auto)]

mod gate;
mod mem;
mod std_streams;
mod streams;
mod whole;

pub use gate::{Gate, NoGate};
pub use mem::{MemSink, MemSource};
pub use std_streams::{StdSink, StdSource};
pub use streams::{Failed, Sink, Source};
pub use whole::{ReadAllFault, read_all, write_all};

#[cfg(test)]
mod tests;
