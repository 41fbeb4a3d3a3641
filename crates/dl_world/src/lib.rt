//! Worlds: what they compose to, which one can be injected into another, what a formula has to do with one, and the
//! shape of its states.
//!
//! The types are those of the model. Each call is exactly its definition, and only [`compose`] and [`shape`] take memory.
#![tactic(auto)]

mod frame;
mod inject;
mod nowhere;
mod positions;
mod shapes;
mod union;

pub use dl_model::{Decls, Deploy, Invariant, Program, World};
pub use frame::frame_apart;
pub use inject::{InjectFault, can_inject};
pub use shapes::shape;
pub use union::compose;

#[cfg(test)]
mod tests;
