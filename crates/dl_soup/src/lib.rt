//! The message soup that nodes share: the state of the world, and the history of the calls that led to it.
//!
//! Contracts see a [`Soup`] as its instances, shape, order, state, history and room. Only [`Soup::make`] takes memory.
//! [`Soup::act`] is one event of the model.
#![tactic(auto)]

mod answer;
mod entries;
mod ids;
mod pick;
mod pool;
mod shapes;
mod soup;
mod start;

pub use dl_model::{Args, Call, Entry, Instances, Order, Reply};
pub use dl_state::{Shape, WorldState};
pub use soup::Soup;
