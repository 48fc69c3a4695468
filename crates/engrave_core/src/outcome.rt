// What a run of the program comes to, and the exit status that reports it.
ghost use Rattle.std.specs.Prelude.{◌≡◌};
ghost use Rattle.engrave_core.specs.Outcome.{status_of};

use cxf_font::{CxfFault, LayFault};
use dxf_outline::DxfFault;
use gcode_text::CodeFault;
use gouge_checker::Verdict;
use loops_text::LoopsFault;
use pbm_edges::{FlatFault, PbmFault};
use plane_exact::Point;

/// What a run came to.
#[derive(Clone, Copy, Debug, PartialEq, Eq)]
pub enum Outcome {
    /// The whole text was written.
    Done,
    /// The G-code program isn't clear: the verdict on it, which isn't `Clear`.
    NotClear(Verdict),
    /// The words aren't a command of the program.
    Usage,
    /// The input has a fault.
    Input(InputFault),
    /// There is no file of this name.
    Absent(Which),
    /// A file couldn't be read.
    ReadFault,
    /// The output couldn't be written; what was written is a front part of the text.
    WriteFault,
    /// Memory ran out, and nothing was written.
    Memory,
}

/// A file that a command names.
#[derive(Clone, Copy, Debug, PartialEq, Eq)]
pub enum Which {
    /// That of `--drawing`.
    Drawing,
    /// That of `--code`.
    Code,
}

/// What is wrong with an input.
#[derive(Clone, Copy, Debug, PartialEq, Eq)]
pub enum InputFault {
    /// The file is longer than its limit.
    TooLong(Which),
    /// The drawing isn't in loops form.
    Loops(LoopsFault),
    /// The drawing is no CXF font.
    Cxf(CxfFault),
    /// The drawing is no DXF file with an outline.
    Dxf(DxfFault),
    /// The drawing is no PBM bitmap.
    Pbm(PbmFault),
    /// The text can't be laid out in the font's letters.
    Lay(LayFault),
    /// The boundary of the bitmap's black pixels doesn't fit the grid.
    Pixels(FlatFault),
    /// The first point, by the segments of the drawing, at which an odd number of them end: no loops can be made of them.
    Open(Point),
    /// The numbers of the first two edges of the drawing that cross or overlap, the lesser first.
    Cross(u32, u32),
    /// The step divides the edge of this number, and none before it, into more than 8192 pieces.
    StepTooFine(u32),
    /// There is too much of something.
    TooMany(Kind),
    /// The text isn't a G-code program of the profile.
    Code(CodeFault),
}

/// What there can be too much of.
#[derive(Clone, Copy, Debug, PartialEq, Eq)]
pub enum Kind {
    /// Contacts along the outline: more than 1,048,576.
    Contacts,
    /// Nodes of the carved path, of all its chains together: more than 4,194,304.
    Nodes,
    /// Chains of the carved path: more than 131,072.
    Chains,
    /// Points of the report on what stays uncut, cut and uncut: more than 16,777,216.
    Points,
    /// Moves of a repaired program: more than 8,388,608.
    Moves,
}

impl Kind {
    ghost use Rattle.engrave_core.specs.Line.{kind_words};

    /// The words that are printed for it.
    pub(crate) fn words(self) -> &'static str
        ensures { result.now ≡ kind_words self }
    {
        match self {
            Kind::Contacts => "contacts",
            Kind::Nodes => "nodes",
            Kind::Chains => "chains",
            Kind::Points => "points",
            Kind::Moves => "moves",
        }
    }
}

/// The exit status that reports an outcome: from 0 for `Done` to 7 for `Memory`, in the order of the outcomes.
pub fn status(outcome: &Outcome) -> u8
    ensures { result ≡ status_of outcome.now }
{
    match outcome {
        Outcome::Done => 0,
        Outcome::NotClear(_) => 1,
        Outcome::Usage => 2,
        Outcome::Input(_) => 3,
        Outcome::Absent(_) => 4,
        Outcome::ReadFault => 5,
        Outcome::WriteFault => 6,
        Outcome::Memory => 7,
    }
}
