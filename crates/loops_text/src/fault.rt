// What keeps a text from being a drawing in loops form, and the words that are printed for it.
ghost use Rattle.std.specs.Prelude.{◌≡◌};
ghost use Rattle.loops_text.specs.Faults.{loops_words};

use std::alloc::{AllocError, AllocFailed};

/// What is wrong with a text in loops form.
#[derive(Clone, Copy, Debug, PartialEq, Eq)]
pub enum LoopsKind {
    /// The word isn't two whole numbers of at most nine digits with a comma between them.
    Syntax,
    /// The loop has fewer than two points.
    Short,
    /// The point equals the one before it in its loop; at a line's last word, also the loop's first one.
    SamePoint,
    /// A number is no coordinate.
    OutOfRange,
    /// The point is the file's 131,073rd.
    TooMany,
    /// Memory ran out. No line is ever printed for it.
    Memory,
}

impl LoopsKind {
    /// The words that are printed for the kind.
    pub fn words(self) -> &'static str
        ensures { result.now ≡ loops_words self }
    {
        match self {
            LoopsKind::Syntax => "syntax",
            LoopsKind::Short => "short",
            LoopsKind::SamePoint => "same point",
            LoopsKind::OutOfRange => "out of range",
            LoopsKind::TooMany => "too many",
            LoopsKind::Memory => "memory",
        }
    }
}

/// The first fault of a text in loops form; or that memory ran out, which isn't the text's fault, and for which no line is
/// ever printed.
#[derive(Clone, Copy, Debug, PartialEq, Eq)]
pub struct LoopsFault {
    /// The place of the faulty word in the text, in bytes from 0; 0 where memory ran out.
    pub at: u32,
    pub kind: LoopsKind,
}

impl From<AllocError> for LoopsFault {
    ghost use Rattle.loops_text.specs.declared.fault.LoopsKind.TheVariants.{Memory};

    ghost from_gives = { λ _ fault. fault ≡ record { at = 0; kind = Memory } };

    fn from(_error: AllocError) -> LoopsFault {
        OUT_OF_MEMORY
    }
}

impl<T: Drop> From<AllocFailed<T>> for LoopsFault {
    ghost use Rattle.loops_text.specs.declared.fault.LoopsKind.TheVariants.{Memory};

    ghost from_gives = { λ _ fault. fault ≡ record { at = 0; kind = Memory } };

    fn from(_error: AllocFailed<T>) -> LoopsFault {
        OUT_OF_MEMORY
    }
}

/// Memory ran out, at no place of the text.
pub const OUT_OF_MEMORY: LoopsFault = LoopsFault {
    at: 0,
    kind: LoopsKind::Memory,
};
