//! Why a tree isn't read.

ghost use Rattle.std.specs.Prelude.{◌≡◌};
ghost use Rattle.dl_forms.specs.declared.fault.FormFault.TheVariants.{Memory};

use dl_tree::Place;
use std::alloc::AllocError;

/// Why a tree isn't read.
#[derive(Clone, Copy, Debug, Drop, PartialEq, Eq)]
pub enum FormFault {
    /// A rule from 10 to 16, and where it is broken.
    At { rule: u8, place: Place },
    Memory,
}

impl From<AllocError> for FormFault {
    ghost from_gives = { λ _ e. e ≡ Memory };

    fn from(_e: AllocError) -> FormFault {
        FormFault::Memory
    }
}
