//! The report of a run: what it says, how it is written, and how it is read again.
//!
//! A report is lines of words (`specs/Layout`): the budget and the order of delivery, each entry of the history that
//! is no wait, and the end of each program. [`report`] writes one and [`read_report`] gives back what was written, or
//! tells the first line that no report has there (`specs/Wrong`). [`order_in`] and [`small`] read an order of delivery and
//! a number as a report spells them.
#![tactic(auto)]

mod append;
mod call;
mod front;
mod lead;
mod line;
mod named;
mod number;
mod read;
mod reply;
mod types;
mod words;
mod write;

pub use line::order_in;
pub use number::small;
pub use read::read_report;
pub use types::{Report, ReportFault};
pub use write::report;
