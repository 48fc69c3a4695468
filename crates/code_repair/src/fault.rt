// Why a repair is refused.

use std::alloc::AllocError;

/// Why there is no repaired program.
#[derive(Clone, Copy, Debug, PartialEq, Eq)]
pub enum RepairFault {
    /// The bit would visit more than 8,388,608 places.
    TooMany,
    /// Memory ran out.
    Memory,
}

impl From<AllocError> for RepairFault {
    ghost use Rattle.std.specs.Prelude.{◌≡◌};
    ghost use Rattle.code_repair.specs.declared.fault.RepairFault.TheVariants.{Memory};

    ghost from_gives = { λ _ fault. fault ≡ Memory };

    fn from(_error: AllocError) -> RepairFault {
        RepairFault::Memory
    }
}
