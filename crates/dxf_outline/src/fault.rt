// What keeps a text from being a DXF file with an outline, and the words that are printed for it.
ghost use Rattle.std.specs.Prelude.{◌≡◌};
ghost use Rattle.dxf_outline.specs.Faults.{dxf_words};

use std::alloc::{AllocError, AllocFailed};

/// What is wrong with a DXF file.
#[derive(Clone, Copy, Debug, PartialEq, Eq)]
pub enum DxfKind {
    /// A group code isn't an optional minus and one to four digits.
    BadCode,
    /// The entity lacks a value of this group code.
    Missing(u32),
    /// A value isn't a number.
    Number,
    /// The file ends before its end of file, or a POLYLINE before its SEQEND.
    Unended,
    /// A number is too large, or a point leaves the grid.
    OutOfRange,
    /// The segments are more than 131,072.
    TooMany,
    /// Memory ran out. No line is ever printed for it.
    Memory,
}

impl DxfKind {
    /// The words that are printed for the kind, without the code that is missing.
    pub fn words(self) -> &'static str
        ensures { result.now ≡ dxf_words self }
    {
        match self {
            DxfKind::BadCode => "bad code",
            DxfKind::Missing(_) => "missing",
            DxfKind::Number => "number",
            DxfKind::Unended => "unended",
            DxfKind::OutOfRange => "out of range",
            DxfKind::TooMany => "too many",
            DxfKind::Memory => "memory",
        }
    }
}

/// The first fault of a DXF file; or that memory ran out, which isn't the file's fault, and for which no line is ever printed.
#[derive(Clone, Copy, Debug, PartialEq, Eq)]
pub struct DxfFault {
    /// The number of the faulty pair of lines, from 1; 0 where memory ran out.
    pub pair: u32,
    pub kind: DxfKind,
}

impl DxfFault {
    ghost use Rattle.std.specs.Prelude.{◌≡◌};

    /// The fault of this kind at the pair with this number.
    pub(crate) fn at(pair: u32, kind: DxfKind) -> DxfFault
        ensures { result ≡ record { pair = pair; kind = kind } }
    {
        DxfFault { pair, kind }
    }
}

impl From<AllocError> for DxfFault {
    ghost use Rattle.dxf_outline.specs.declared.fault.DxfKind.TheVariants.{Memory};

    ghost from_gives = { λ _ fault. fault ≡ record { pair = 0; kind = Memory } };

    fn from(_error: AllocError) -> DxfFault {
        OUT_OF_MEMORY
    }
}

impl<T: Drop> From<AllocFailed<T>> for DxfFault {
    ghost use Rattle.dxf_outline.specs.declared.fault.DxfKind.TheVariants.{Memory};

    ghost from_gives = { λ _ fault. fault ≡ record { pair = 0; kind = Memory } };

    fn from(_error: AllocFailed<T>) -> DxfFault {
        OUT_OF_MEMORY
    }
}

/// Memory ran out, at no pair of the file.
pub const OUT_OF_MEMORY: DxfFault = DxfFault {
    pair: 0,
    kind: DxfKind::Memory,
};
