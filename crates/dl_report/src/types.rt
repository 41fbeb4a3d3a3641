//! What a report holds, and why none is read.

ghost use Rattle.std.specs.Prelude.{◌≡◌};
ghost use Rattle.dl_report.specs.declared.types.ReportFault.TheVariants.{Memory};

use dl_model::{End, Entry, Order};
use sqlite_items::Items;
use std::alloc::AllocError;

/// What a report says.
#[derive(Debug, Drop)]
pub struct Report {
    /// How many ticks and calls each program had at most.
    pub budget: u32,
    /// The order of delivery.
    pub order: Order,
    /// The entries of the history that are no waits.
    pub entries: Items<Entry>,
    /// How the program of each of these nodes ended, with its ticks and calls.
    pub ends: Items<(u32, End, u32)>,
}

/// Why no report is read.
#[derive(Clone, Copy, Debug, Drop, PartialEq, Eq)]
pub enum ReportFault {
    /// The first line such that no report begins with the lines up to it, from 1.
    Line(u32),
    /// Want of memory.
    Memory,
}

impl From<AllocError> for ReportFault {
    ghost from_gives = { λ _ e. e ≡ Memory };

    fn from(_e: AllocError) -> ReportFault {
        ReportFault::Memory
    }
}
