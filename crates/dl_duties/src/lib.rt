//! Which obligations the procedures and the deployment of a file have, in their order.
#![tactic(auto)]

mod listed;

pub use listed::duties;
