//! A ticket lock (Mellor-Crummey and Scott 1991) round a value that stands for a list.
//!
//! A seat is a thread's place at one lock. [`Turn::make`] gives one for each number that it is
//! told. A seat that enters waits for its turn and holds the value; it leaves with one more entry
//! of its own at the end of the list. What a seat has seen is at all times a prefix of the list,
//! and the list's entries of its number are those of its own turns, each once and in order.
//! [`Turn::close`] takes all seats and gives the value back.
//!
//! Nothing is promised of who comes first, of how long a turn is waited for, or that it comes.
#![tactic(auto)]

mod book;
mod ends;
mod held;
mod lock;
#[cfg(test)]
mod tests;
mod turn;
mod view;

pub use book::Book;
pub use lock::{Held, Seat, Turn};
