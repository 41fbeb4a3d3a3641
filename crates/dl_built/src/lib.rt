//! The sequent of each obligation of procedures and of the deployment.
#![tactic(auto)]

mod others;
mod sequents;
mod starts;

pub use dl_inv::BuildFault;
pub use sequents::build;
