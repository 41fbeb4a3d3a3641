//! The machine that runs a node's program, one tick or call at a time.
//!
//! [`Cont::make`] takes all the memory that a run of the procedure needs. After that [`Cont::advance`] and
//! [`Cont::resume`] make the steps of the model's machine and take none.
#![tactic(auto)]

mod answer;
mod asked;
mod cont;
mod laws;
mod moves;
mod nowhere;
mod place;
mod replies;
mod room;
mod slots;
mod stack;
mod values;

pub use answer::At;
pub use cont::Cont;
pub use dl_model::{Args, Call, Command, Proc, Reply};
pub use laws::formed_procedures_can_run;
