//! A node with a program.

use dl_model::End;
use dl_prog::Cont;

/// A node with a program, outside any lock: its machine, its ticks since its last entry, its units, and its end where that
/// is known.
#[derive(Drop)]
pub struct Bare {
    pub node: u32,
    pub cont: Cont,
    pub ticks: u32,
    pub units: u32,
    pub end: Option<End>,
}
