//! Why a backward step was refused.

ghost use Rattle.std.specs.Prelude.{◌≡◌};
ghost use Rattle.dl_wp.specs.declared.faults.Stop.TheVariants.{Memory};

use std::alloc::AllocError;

/// Why a backward step was refused.
#[derive(Debug, Drop)]
pub enum WpFault {
    /// A name that is free in a term of the step is bound around a place where the term is put.
    Capture,
    /// The result has more than 1,000,000 parts, or nests more than 4,000 deep.
    Size,
    /// Want of memory.
    Memory,
}

/// Why a part of a result was not made.
#[derive(Debug, Drop)]
pub(crate) enum Stop {
    /// It has more parts than there is room for.
    Room,
    /// Want of memory.
    Memory,
}

impl From<AllocError> for Stop {
    ghost from_gives = { λ _ e. e ≡ Memory };

    fn from(_e: AllocError) -> Stop {
        Stop::Memory
    }
}
