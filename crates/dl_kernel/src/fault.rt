//! Why a script doesn't prove its sequent.

use dl_tree::Place;

/// Why a script is refused.
#[derive(Clone, Copy, Debug, PartialEq, Eq, Drop)]
pub enum KernelFault {
    /// The condition of the rule here fails.
    RuleFails { place: Place },
    /// The rule here leaves a sequent that is too large.
    Limit { place: Place },
    /// No memory for a sequent.
    Memory,
}
