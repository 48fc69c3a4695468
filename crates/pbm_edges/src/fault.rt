// What keeps a text from being a PBM file, and a bitmap from having segments; and the words that are printed for it.
ghost use Rattle.std.specs.Prelude.{◌≡◌};
ghost use Rattle.pbm_edges.specs.Faults.{flat_words, pbm_words};

use std::alloc::{AllocError, AllocFailed};

/// The first fault of a PBM file; or that memory ran out, which isn't the file's fault.
#[derive(Clone, Copy, Debug, PartialEq, Eq)]
pub enum PbmFault {
    /// The file begins with neither `P1` nor `P4`.
    Magic,
    /// Two numbers of one to five digits don't follow, each behind white space, with one byte of white space behind them.
    Header,
    /// A side has no pixel, or more than 8191.
    Size,
    /// The file ends before its last pixel.
    Short,
    /// A byte among the pixels of a P1 file is neither `0` nor `1` nor white space.
    Pixel,
    /// Memory ran out. No line is ever printed for it.
    Memory,
}

impl PbmFault {
    /// The words that are printed for the fault.
    pub fn words(self) -> &'static str
        ensures { result.now ≡ pbm_words self }
    {
        match self {
            PbmFault::Magic => "magic",
            PbmFault::Header => "header",
            PbmFault::Size => "size",
            PbmFault::Short => "short",
            PbmFault::Pixel => "pixel",
            PbmFault::Memory => "memory",
        }
    }
}

impl From<AllocError> for PbmFault {
    ghost use Rattle.pbm_edges.specs.declared.fault.PbmFault.TheVariants.{Memory};

    ghost from_gives = { λ _ fault. fault ≡ Memory };

    fn from(_error: AllocError) -> PbmFault {
        PbmFault::Memory
    }
}

impl<T: Drop> From<AllocFailed<T>> for PbmFault {
    ghost use Rattle.pbm_edges.specs.declared.fault.PbmFault.TheVariants.{Memory};

    ghost from_gives = { λ _ fault. fault ≡ Memory };

    fn from(_error: AllocFailed<T>) -> PbmFault {
        PbmFault::Memory
    }
}

/// What keeps a bitmap from having segments; or that memory ran out.
#[derive(Clone, Copy, Debug, PartialEq, Eq)]
pub enum FlatFault {
    /// The bitmap is larger than the grid.
    OutOfRange,
    /// The segments are more than 131,072.
    TooMany,
    /// Memory ran out. No line is ever printed for it.
    Memory,
}

impl FlatFault {
    /// The words that are printed for the fault.
    pub fn words(self) -> &'static str
        ensures { result.now ≡ flat_words self }
    {
        match self {
            FlatFault::OutOfRange => "out of range",
            FlatFault::TooMany => "too many",
            FlatFault::Memory => "memory",
        }
    }
}

impl From<AllocError> for FlatFault {
    ghost use Rattle.pbm_edges.specs.declared.fault.FlatFault.TheVariants.{Memory};

    ghost from_gives = { λ _ fault. fault ≡ Memory };

    fn from(_error: AllocError) -> FlatFault {
        FlatFault::Memory
    }
}

impl<T: Drop> From<AllocFailed<T>> for FlatFault {
    ghost use Rattle.pbm_edges.specs.declared.fault.FlatFault.TheVariants.{Memory};

    ghost from_gives = { λ _ fault. fault ≡ Memory };

    fn from(_error: AllocFailed<T>) -> FlatFault {
        FlatFault::Memory
    }
}
