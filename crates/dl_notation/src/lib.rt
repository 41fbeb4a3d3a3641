//! The whole notation as one table, and the first fault of form of a file.
//!
//! A part of a list has a [`Role`] by where it stands, and each list a [`ListRole`]. The tables say which forms a
//! list of each role may have.
#![tactic(auto)]

mod form;
mod laws;
mod number;
mod role;
mod shape;
mod tables;

pub use form::{form_fault, list_form_fault};
pub use laws::{
    faultless_file_computes, faults_of_items_compute, faults_of_programs_compute,
    taken_names_are_a_set,
};
pub use number::{number_list, number_part};
pub use role::{FormulaRole, ListRole, NameRole, NumberRole, Role, TermRole};
pub use shape::{begins_with, has_room, headed_form, headless_form, role_at};
