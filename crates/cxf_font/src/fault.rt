// What keeps a text from being a CXF font, and the words that are printed for it.
ghost use Rattle.std.specs.Prelude.{◌≡◌};
ghost use Rattle.cxf_font.specs.Faults.{cxf_words};

use std::alloc::{AllocError, AllocFailed};

/// What is wrong with a CXF font.
#[derive(Clone, Copy, Debug, PartialEq, Eq)]
pub enum CxfKind {
    /// Behind a `[` stands no character with a `]`; or a line of a glyph isn't a letter, a blank and the fields of its element.
    Syntax,
    /// A field of an element isn't a number, or a number out of its range.
    Number,
    /// Memory ran out. No line is ever printed for it.
    Memory,
}

impl CxfKind {
    /// The words that are printed for the kind.
    pub fn words(self) -> &'static str
        ensures { result.now ≡ cxf_words self }
    {
        match self {
            CxfKind::Syntax => "syntax",
            CxfKind::Number => "number",
            CxfKind::Memory => "memory",
        }
    }
}

/// The first fault of a CXF font; or that memory ran out, which isn't the font's fault, and for which no line is ever printed.
#[derive(Clone, Copy, Debug, PartialEq, Eq)]
pub struct CxfFault {
    /// The number of the faulty line, from 1; 0 where memory ran out.
    pub line: u32,
    pub kind: CxfKind,
}

impl From<AllocError> for CxfFault {
    ghost use Rattle.cxf_font.specs.declared.fault.CxfKind.TheVariants.{Memory};

    ghost from_gives = { λ _ fault. fault ≡ record { line = 0; kind = Memory } };

    fn from(_error: AllocError) -> CxfFault {
        OUT_OF_MEMORY
    }
}

impl<T: Drop> From<AllocFailed<T>> for CxfFault {
    ghost use Rattle.cxf_font.specs.declared.fault.CxfKind.TheVariants.{Memory};

    ghost from_gives = { λ _ fault. fault ≡ record { line = 0; kind = Memory } };

    fn from(_error: AllocFailed<T>) -> CxfFault {
        OUT_OF_MEMORY
    }
}

/// Memory ran out, at no line of the font.
pub const OUT_OF_MEMORY: CxfFault = CxfFault {
    line: 0,
    kind: CxfKind::Memory,
};
