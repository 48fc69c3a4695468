// A contact, and why the contacts of a drawing can't be listed.
ghost use Rattle.std.specs.Prelude.{◌≡◌};

use std::alloc::{AllocError, AllocFailed};

/// The greatest step between contacts, in grid units.
pub const MOST_STEP: u32 = 32_767;

/// The most pieces into which the contacts divide an edge.
pub const MOST_PIECES: u32 = 8192;

/// The most contacts of a drawing.
pub const MOST_CONTACTS: u32 = 1_048_576;

/// A contact: the point at k / n of the way along an edge, where the contacts divide the edge into n pieces.
#[derive(Clone, Copy, Debug, PartialEq, Eq)]
pub struct Contact {
    /// The number of the loop that the edge stands in.
    pub loop_no: u32,
    /// The number of the edge.
    pub edge: u32,
    /// From 0, the start of the edge, to `n`, its end.
    pub k: u32,
    /// From 1 to 8192.
    pub n: u32,
}

/// Why the contacts of a drawing can't be listed.
#[derive(Clone, Copy, Debug, PartialEq, Eq)]
pub enum ContactFault {
    /// The edge of this number is the first that the step divides into more than 8192 pieces.
    StepTooFine(u32),
    /// There are more than 1,048,576 contacts, and no edge is divided too fine.
    TooMany,
    /// Memory ran out.
    Memory,
}

impl From<AllocError> for ContactFault {
    ghost use Rattle.tangent_disc.specs.declared.contact.ContactFault.TheVariants.{Memory};

    ghost from_gives = { λ _ fault. fault ≡ Memory };

    fn from(_error: AllocError) -> ContactFault {
        ContactFault::Memory
    }
}

impl<T: Drop> From<AllocFailed<T>> for ContactFault {
    ghost use Rattle.tangent_disc.specs.declared.contact.ContactFault.TheVariants.{Memory};

    ghost from_gives = { λ _ fault. fault ≡ Memory };

    fn from(_error: AllocFailed<T>) -> ContactFault {
        ContactFault::Memory
    }
}
