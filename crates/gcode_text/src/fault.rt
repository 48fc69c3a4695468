// What keeps a text from being a program of the profile, and the words that are printed for it.
ghost use Rattle.std.specs.Prelude.{◌≡◌};
ghost use Rattle.gcode_text.specs.Faults.{code_words};

use std::alloc::{AllocError, AllocFailed};

/// What is wrong with a line of code.
#[derive(Clone, Copy, Debug, PartialEq, Eq)]
pub enum CodeKind {
    /// No letter of the profile stands where a word begins, or a G or M number is outside the profile.
    Word,
    /// What follows a letter isn't a plain number of at most 27 digits.
    Number,
    /// A coordinate isn't a whole number of tenths of a grid unit.
    OffGrid,
    /// A letter other than G and M, or a motion word, stands twice in the line.
    Twice,
    /// G20 or G21 that isn't the job's unit.
    Units,
    /// G91: incremental distances.
    Incremental,
    /// The height is below the surface, and not every coordinate was known before the line.
    Unplaced,
    /// X or Y isn't from -32,768 to 32,767 grid units, or Z from -32,767 to 32,767.
    OutOfRange,
    /// The line has more than 1024 bytes.
    LongLine,
    /// A comment in parentheses doesn't end in its line.
    OpenComment,
    /// The line would give the 8,388,609th move.
    TooMany,
}

impl CodeKind {
    /// The words that are printed for the kind.
    pub fn words(self) -> &'static str
        ensures { result.now ≡ code_words self }
    {
        match self {
            CodeKind::Word => "word",
            CodeKind::Number => "number",
            CodeKind::OffGrid => "off grid",
            CodeKind::Twice => "twice",
            CodeKind::Units => "units",
            CodeKind::Incremental => "incremental",
            CodeKind::Unplaced => "unplaced",
            CodeKind::OutOfRange => "out of range",
            CodeKind::LongLine => "long line",
            CodeKind::OpenComment => "open comment",
            CodeKind::TooMany => "too many",
        }
    }
}

/// The first fault of a text: the number of its line, from 1, and what is wrong with it.
#[derive(Clone, Copy, Debug, PartialEq, Eq)]
pub struct CodeFault {
    pub line: u32,
    pub kind: CodeKind,
}

/// Why a program's moves aren't given.
#[derive(Clone, Copy, Debug, PartialEq, Eq)]
pub enum FinishFault {
    /// The code has this fault.
    Code(CodeFault),
    /// Memory ran out.
    Memory,
}

impl From<CodeFault> for FinishFault {
    ghost use Rattle.gcode_text.specs.declared.fault.FinishFault.TheVariants.{Code};

    ghost from_gives = { λ fault given. given ≡ Code fault };

    fn from(fault: CodeFault) -> FinishFault {
        FinishFault::Code(fault)
    }
}

impl From<AllocError> for FinishFault {
    ghost use Rattle.gcode_text.specs.declared.fault.FinishFault.TheVariants.{Memory};

    ghost from_gives = { λ _ given. given ≡ Memory };

    fn from(_error: AllocError) -> FinishFault {
        FinishFault::Memory
    }
}

impl<T: Drop> From<AllocFailed<T>> for FinishFault {
    ghost use Rattle.gcode_text.specs.declared.fault.FinishFault.TheVariants.{Memory};

    ghost from_gives = { λ _ given. given ≡ Memory };

    fn from(_error: AllocFailed<T>) -> FinishFault {
        FinishFault::Memory
    }
}
