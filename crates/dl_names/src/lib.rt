//! The first fault of a file, of form and then of names and sorts.
//!
//! A walk over the tables of the notation keeps what the file has declared and named up to a place, and judges each
//! name, number, formula and list where it stands.
#![tactic(auto)]

mod api;
mod behind;
mod enter;
mod leave;
mod list;
mod part;

pub use api::file_fault;
