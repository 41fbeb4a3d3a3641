//! The declarations of a file.
use crate::program::Proc;
use crate::protocol::{Hook, Instances};
use dl_term::Formula;
use sqlite_items::Items;

/// Labels and hooks, by their positions in the file.
#[derive(Drop)]
pub struct World {
    /// The number of the world's name.
    pub sym: u32,
    pub labels: Items<u8>,
    pub hooks: Items<u8>,
}

/// A formula that is to hold in each state of its world.
#[derive(Drop)]
pub struct Invariant {
    pub sym: u32,
    /// The position of its world.
    pub world: u8,
    pub formula: Formula,
}

/// What a node runs: a procedure, with a constant for each of its parameters.
#[derive(Drop)]
pub struct Program {
    pub node: u32,
    /// The position of the procedure.
    pub proc: u8,
    pub constants: Items<i64>,
}

/// The world that a file is about, and the nodes that run a program there.
#[derive(Drop)]
pub struct Deploy {
    /// The position of the world.
    pub world: u8,
    pub programs: Items<Program>,
}

/// The declarations of a file. Each item is named by its position among those of its kind.
#[derive(Drop)]
pub struct Decls {
    pub inst: Instances,
    /// The number of each label's name.
    pub labels: Items<u32>,
    pub hooks: Items<Hook>,
    pub worlds: Items<World>,
    pub invariants: Items<Invariant>,
    pub procs: Items<Proc>,
    /// None while items are read.
    pub deploy: Option<Deploy>,
}
