//! Parts of the sequents of procedures: what they know, goals, one formula over another, and what a send or a call has to
//! meet.
#![tactic(auto)]

mod known;
mod pieces;
mod sends;

pub use known::{
    ME, RESULT, add_copy, add_facts_at, add_facts_in, hold, nothing_known, put_beside, put_facts,
    put_known, put_known_after, put_known_with, put_sequent,
};
pub use pieces::{
    first_over, name_at, next_on_the_way, nobody, proc_of, put_goal, put_nothing, received_over,
    sent_over, stopped, terms_over,
};
pub use sends::{add_names, add_terms, allowed, entered, hooks_met, put_for, sending};
