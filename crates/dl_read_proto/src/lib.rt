//! The declarations of a file, but for its programs, built from its tree.
//!
//! The tree has no fault of form, name or sort: that was looked at before. What is built here is not trusted either: it
//! is compared with its tree afterwards. So the calls promise nothing of what they build, and where a look-up fails, which
//! it can't in such a tree, want of memory is answered.
#![tactic(auto)]

mod around;
mod built;
mod formulas;
mod items;
mod meanings;
mod protocols;
mod results;
mod terms;
mod transitions;
mod worlds;

pub use around::{
    Around, field, integer, label, label_position, meaning_of, number_of, numbers, parts_behind,
    parts_of, tag, tag_position, value_of, word_of, world_position,
};
pub use built::Built;
pub use formulas::formula;
pub use items::{build_declaration, build_nodes};
pub use meanings::{Meaning, Meanings};
pub use protocols::params;
pub use results::{add, both, boxed, finished, found, lost, position, some};
pub use terms::{all_terms, term};
