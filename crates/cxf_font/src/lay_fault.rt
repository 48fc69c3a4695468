// What keeps a text from being laid out, and the words that are printed for it.
ghost use Rattle.std.specs.Prelude.{◌≡◌};
ghost use Rattle.cxf_font.specs.Faults.{lay_words};

use std::alloc::{AllocError, AllocFailed};

/// What keeps a text from being laid out in a font.
#[derive(Clone, Copy, Debug, PartialEq, Eq)]
pub enum LayFault {
    /// The character at this place, from 0, is no space and no line end, and has no glyph in the font.
    NoGlyph(u32),
    /// A point leaves the grid.
    OutOfRange,
    /// The segments are more than `MOST_LETTERING`.
    TooMany,
    /// Memory ran out. No line is ever printed for it.
    Memory,
}

impl LayFault {
    /// The words that are printed for the fault, without the place of the character.
    pub fn words(self) -> &'static str
        ensures { result.now ≡ lay_words self }
    {
        match self {
            LayFault::NoGlyph(_) => "no glyph",
            LayFault::OutOfRange => "out of range",
            LayFault::TooMany => "too many",
            LayFault::Memory => "memory",
        }
    }
}

impl From<AllocError> for LayFault {
    ghost use Rattle.cxf_font.specs.declared.lay_fault.LayFault.TheVariants.{Memory};

    ghost from_gives = { λ _ fault. fault ≡ Memory };

    fn from(_error: AllocError) -> LayFault {
        LayFault::Memory
    }
}

impl<T: Drop> From<AllocFailed<T>> for LayFault {
    ghost use Rattle.cxf_font.specs.declared.lay_fault.LayFault.TheVariants.{Memory};

    ghost from_gives = { λ _ fault. fault ≡ Memory };

    fn from(_error: AllocFailed<T>) -> LayFault {
        LayFault::Memory
    }
}
