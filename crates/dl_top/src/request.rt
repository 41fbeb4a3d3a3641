//! What the program may be asked to do.

use dl_model::Order;

/// What the program is asked to do.
#[derive(Clone, Copy, Debug, Drop, PartialEq, Eq)]
pub enum Command {
    /// Check the text that the source gives.
    Check,
    /// Check it, and write it in its one layout.
    Show,
    /// Check it, and run the programs of its file: on one thread by the serial schedule, or else on threads; each program within
    /// the budget of ticks and calls, and with this order of delivery.
    Run {
        serial: bool,
        budget: u32,
        order: Order,
    },
}
