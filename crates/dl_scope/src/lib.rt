//! What a file has declared and named up to a place.
//!
//! A [`Walk`] keeps what stands before the place: what the file has declared, and the [`Scope`] of what the lists
//! around the place have named. Names are looked up in it, and what a proof knows by its obligation is worked out
//! from it.
#![tactic(auto)]

mod declared;
mod given;
mod known;
mod names;
mod saved;
mod scope;
mod text;
mod walk;
mod worlds;

pub use declared::{Given, Procedure, Protocol, Tag, World, add_each_sort};
pub use given::{give, number_in, own_of, point_at};
pub use known::{
    INT, arguments_of, below, is_node, is_sort, label_named, procedure_named, protocol_at,
    protocol_named, protocol_number, row_of, sort_named, tag_of, value_at,
};
pub use names::{add, add_all, add_new, clear, is_among, is_reserved, look_up, text_of};
pub use saved::{close, copy_scope, empty_scope};
pub use scope::Scope;
pub use text::Text;
pub use walk::Walk;
pub use worlds::compose_named;
