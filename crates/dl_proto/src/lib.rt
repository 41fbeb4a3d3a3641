//! Steps of protocols: which sends and receives can be made in a state, which hooks a send meets, and what a step
//! does to the state.
//!
//! Each call is exactly the model's definition, and only [`Instances::copy`] takes memory.
#![tactic(auto)]

mod find;
mod laws;
mod make;
mod test;
mod write;

pub use dl_model::{FieldDecl, Hook, Instances, Protocol, Tag, Transition, Update};
pub use laws::{shape_is_kept, well_sorted_is_shaped};
pub use make::{apply_receive, apply_send};
pub use test::{enabled, meets, receivable};

#[cfg(test)]
mod tests;
