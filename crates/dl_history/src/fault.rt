//! Why a history has no configuration.

ghost use Rattle.std.specs.Prelude.{◌≡◌};
ghost use Rattle.dl_history.specs.declared.fault.ReplayFault.TheVariants.{Memory};

use std::alloc::AllocError;

/// Why a history was not replayed to its end.
#[derive(Clone, Copy, Debug, PartialEq, Eq, Drop)]
pub enum ReplayFault {
    /// The position, from 0, of the first entry that is no event there.
    At(u32),
    /// Want of memory.
    Memory,
}

impl From<AllocError> for ReplayFault {
    ghost from_gives = { λ _ e. e ≡ Memory };

    fn from(_e: AllocError) -> ReplayFault {
        ReplayFault::Memory
    }
}
