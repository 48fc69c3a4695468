// Why a pocket is refused.

use std::alloc::AllocError;

/// Why there is no pocket.
#[derive(Clone, Copy, Debug, PartialEq, Eq)]
pub enum PocketFault {
    /// It has more than 131,072 chains.
    TooMany,
    /// Memory ran out.
    Memory,
}

impl From<AllocError> for PocketFault {
    ghost use Rattle.std.specs.Prelude.{◌≡◌};
    ghost use Rattle.cleanup_pocket.specs.declared.fault.PocketFault.TheVariants.{Memory};

    ghost from_gives = { λ _ fault. fault ≡ Memory };

    fn from(_error: AllocError) -> PocketFault {
        PocketFault::Memory
    }
}
