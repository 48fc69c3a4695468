// Why there is no report.
ghost use Rattle.std.specs.Prelude.{◌≡◌};

use std::alloc::AllocError;

/// Why there is no report on uncut points.
#[derive(Clone, Copy, Debug, PartialEq, Eq)]
pub enum CoverFault {
    /// The report has more than 16,777,216 points, cut and uncut, inside the drawing or not.
    TooManyPoints,
    /// Memory ran out.
    Memory,
}

impl From<AllocError> for CoverFault {
    ghost use Rattle.coverage_report.specs.declared.fault.CoverFault.TheVariants.{Memory};

    ghost from_gives = { λ _ fault. fault ≡ Memory };

    fn from(_error: AllocError) -> CoverFault {
        CoverFault::Memory
    }
}
