//! Whether declarations are formed: the condition under which the model speaks of a file.
//!
//! Each part of the model's `IsFormed` is decided by a call of its own. What a term or a formula may name is a
//! scope, and the names of the file's variables are a table, so that the time is linear in the file's size.
#![tactic(auto)]

mod apart;
mod collect;
mod decide;
mod deployment;
mod formulas;
mod names;
mod nowhere;
mod points;
mod programs;
mod protocols;
mod scope;
mod terms;
mod worlds;

pub use decide::is_formed;
