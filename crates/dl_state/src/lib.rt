//! The state of a world as a program keeps it: the fields of each label in one buffer, and its messages.
//!
//! Contracts see a [`WorldState`] as a state of the model, with a number of messages that each soup has room for.
//! Only [`WorldState::init`] and [`WorldState::reserve`] take memory.
#![tactic(auto)]

mod board;
mod message;
mod messages;
mod shape;
mod world;

pub use message::Message;
pub use shape::{FieldShape, Shape};
pub use world::WorldState;

#[cfg(test)]
mod tests;
