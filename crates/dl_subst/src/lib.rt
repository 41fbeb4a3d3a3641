//! Substitution in formulas: a term for a variable, terms for the parts of a message, a term for another one, a label for
//! `self`, and terms for several variables at once.
//!
//! Each call makes one formula, walks linear in its size, and says of its result how it is written; where it holds is
//! said by the laws, for all but [`put_terms`] and [`put_terms_within`]. A name that would be captured is refused, and so is
//! a result that is too large, before any of it is built, but by the calls that say that they don't look.
#![tactic(auto)]

mod build;
mod captures;
mod change;
mod faults;
mod laws;
mod message;
mod sizes;
mod substitution;

pub use faults::SubstFault;
pub use laws::{labels_hold, messages_hold, replacements_hold, substitutions_hold};
pub use message::NewMessage;
pub use substitution::{
    at_label, put_message, put_term, put_terms, put_terms_within, replace, room_after_message,
    substitute, substitute_message, term_at_label,
};
