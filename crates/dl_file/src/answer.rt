//! What a check answers.
use dl_tree::{Place, Tree};

/// How much an accepted file has.
#[derive(Clone, Copy, Debug, PartialEq, Eq, Drop)]
pub struct Accepted {
    /// The declared nodes.
    pub nodes: u32,
    /// The declared labels.
    pub labels: u32,
    /// The declared hooks.
    pub hooks: u32,
    /// The declared invariants.
    pub invariants: u32,
    /// The deployed programs.
    pub programs: u32,
    /// The obligations that aren't waived.
    pub obligations: u32,
}

/// Why a file is refused.
#[derive(Drop)]
pub enum Fault {
    /// The number of the rule that is broken first, where, and what is named there: a hook, a label or an obligation,
    /// as a tree without places.
    At {
        rule: u8,
        place: Place,
        what: Option<Tree>,
    },
    /// No memory for the answer.
    Memory,
}
