// Why a drawing has no plan.
ghost use Rattle.std.specs.Prelude.{◌≡◌};

use std::alloc::{AllocError, AllocFailed};
use tangent_disc::ContactFault;

/// Why a drawing has no plan.
#[derive(Clone, Copy, Debug, PartialEq, Eq)]
pub enum PlanFault {
    /// The contacts can't be listed; never `ContactFault::Memory`.
    Contact(ContactFault),
    /// The chains have more than 4,194,304 nodes in all.
    TooManyNodes,
    /// There are more than 131,072 chains, and no more nodes than there may be.
    TooManyChains,
    /// Memory ran out.
    Memory,
}

impl From<AllocError> for PlanFault {
    ghost use Rattle.carve_plan.specs.declared.fault.PlanFault.TheVariants.{Memory};

    ghost from_gives = { λ _ fault. fault ≡ Memory };

    fn from(_error: AllocError) -> PlanFault {
        PlanFault::Memory
    }
}

impl<T: Drop> From<AllocFailed<T>> for PlanFault {
    ghost use Rattle.carve_plan.specs.declared.fault.PlanFault.TheVariants.{Memory};

    ghost from_gives = { λ _ fault. fault ≡ Memory };

    fn from(_error: AllocFailed<T>) -> PlanFault {
        PlanFault::Memory
    }
}
