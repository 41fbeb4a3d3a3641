//! Terms and formulas, read from trees and shown as trees.
#![tactic(auto)]

mod api;
mod around;
mod fault;
mod form;
mod formula;
mod head;
mod kind;
mod names;
mod number;
mod position;
mod read;
mod scope;
mod show;
mod table;
mod taken;
mod width;

pub use api::{formula_of, mark_bound, read_formula, read_term, term_of};
pub use fault::FormFault;
pub use form::{form_fault, form_of, is_name};
pub use head::{Head, head_of};
pub use kind::breaks_kind;
pub use names::{has_text, is};
pub use number::number_names;
pub use position::Position;
pub use scope::{Kind, Marks, Scope, SortDecl};
pub use show::{show_formula, show_term};
pub use table::Names;
pub use taken::is_taken_for_others;
