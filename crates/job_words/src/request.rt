// What the words of a command ask for.

use crate::text::Text;
use grid_num::Units;
use plane_exact::Point;

/// The form of a drawing's file.
#[derive(Clone, Copy, Debug, PartialEq, Eq)]
pub enum FormWord {
    /// Loops of points, a loop a line.
    Loops,
    /// DXF R12: lines, circles, arcs and polylines, whose segments are joined into loops.
    Dxf,
    /// A CXF font, in whose letters a text is laid out.
    Cxf,
    /// A PBM bitmap, of whose black pixels the boundary is taken.
    Pbm,
}

/// Which part of each line of a text stands at x = 0.
#[derive(Clone, Copy, Debug, PartialEq, Eq)]
pub enum JustifyWord {
    /// Its beginning.
    Left,
    /// Its middle.
    Center,
    /// Its end.
    Right,
}

/// What becomes of a drawing whose edges cross or overlap.
#[derive(Clone, Copy, Debug, PartialEq, Eq)]
pub enum CrossWord {
    /// It is refused.
    Refuse,
    /// It is taken by the even-odd rule.
    Evenodd,
}

/// How the flat floors that the depth limit leaves are milled.
#[derive(Clone, Copy, Debug, PartialEq, Eq)]
pub enum PocketWord {
    /// Not at all.
    NoPocket,
    /// By rows along x.
    X,
    /// By columns along y.
    Y,
    /// By rows along x, and by columns along y.
    Both,
}

/// Yes or no.
#[derive(Clone, Copy, Debug, PartialEq, Eq)]
pub enum YesNo {
    Yes,
    No,
}

/// The words that say which drawing a command is about.
#[derive(Debug, Drop)]
pub struct DrawingWords {
    /// The name of the drawing's file; it may be empty.
    pub drawing: Text,
    pub form: FormWord,
    pub units: Units,
    /// The greatest angle of a straight piece of an arc, in degrees, from 1 to 90.
    pub chord: u32,
    /// How far apart two ends of segments may be to be taken as one point, in grid units in each direction, from 0 to 16.
    pub snap: u32,
    /// The side of a bitmap's pixel, in grid units, from 1 to 1000.
    pub pixel: u32,
    /// The text that is laid out, of 1 to 200 characters; a line feed ends a line. It is there where the form is `Cxf`.
    pub text: Option<Text>,
    /// The height of nine units of a font, in grid units, from 1 to 32,767.
    pub height: u32,
    /// How wide letters are, in percent of the font's, from 10 to 500.
    pub width: u32,
    /// The space behind each letter, in percent of the height, from 0 to 500.
    pub charspace: u32,
    /// The width of a space, in percent of the height, from 0 to 500.
    pub wordspace: u32,
    /// The distance between lines, in percent of the height, from 10 to 500.
    pub linespace: u32,
    pub justify: JustifyWord,
    /// Whether left and right are exchanged.
    pub mirror: YesNo,
    /// Whether top and bottom are.
    pub flip: YesNo,
    /// Whether it is refused where its edges cross or overlap.
    pub cross: CrossWord,
}

/// A command with the values of its options.
#[derive(Debug, Drop)]
pub enum Request {
    /// The greatest depth at one point of a drawing.
    Probe {
        shape: DrawingWords,
        at: Point,
        /// The bit is `bit.0 / bit.1` wide, as a radius, for each unit of depth. Each number is from 1 to 2000.
        bit: (u32, u32),
        /// The greatest radius of the bit, in grid units, from 1 to 8191.
        rmax: u32,
        /// The greatest depth that is asked for, in grid units, from 1 to 32,767.
        limit: u32,
    },
    /// The moves of a G-code program.
    Moves {
        /// The name of the G-code program's file; it may be empty.
        code: Text,
        units: Units,
    },
    /// Whether a G-code program stays within a drawing.
    Check {
        shape: DrawingWords,
        /// The name of the G-code program's file; it may be empty.
        code: Text,
        /// As in `Probe`.
        bit: (u32, u32),
        /// As in `Probe`.
        rmax: u32,
    },
    /// The greatest disc that touches the outline at each step along it.
    Contacts {
        shape: DrawingWords,
        /// The greatest distance between contacts along an edge, in grid units, from 1 to 32,767.
        step: u32,
        /// As in `Probe`.
        rmax: u32,
    },
    /// The G-code program that carves a drawing.
    Carve {
        shape: DrawingWords,
        /// As in `Probe`.
        bit: (u32, u32),
        /// As in `Probe`.
        rmax: u32,
        /// As in `Contacts`.
        step: u32,
        /// As in `Probe`.
        limit: u32,
        /// The height above the surface at which the bit travels, in grid units, from 1 to 32,767.
        safe: u32,
        /// The feed, in millimetres or inches a minute, from 1 to 10,000.
        feed: u32,
        /// The distance of the report's points in each direction, in grid units, from 1 to 32,767.
        pitch: u32,
        /// Which way the flat floors that the depth limit leaves are milled, if at all.
        pocket: PocketWord,
        /// The distance of the rows or columns by which they are, in grid units, from 1 to 8191.
        over: u32,
    },
    /// What a G-code program leaves uncut of a drawing.
    Cover {
        shape: DrawingWords,
        /// The name of the G-code program's file; it may be empty.
        code: Text,
        /// As in `Probe`.
        bit: (u32, u32),
        /// As in `Probe`.
        rmax: u32,
        /// As in `Carve`.
        pitch: u32,
    },
    /// The G-code program by which a flat bit mills the floor that the depth limit leaves.
    Flat {
        shape: DrawingWords,
        /// As in `Probe`, the conical bit that cuts the walls.
        bit: (u32, u32),
        /// As in `Probe`.
        rmax: u32,
        /// The radius of the flat bit, in grid units, from 1 to 8191.
        radius: u32,
        /// As in `Probe`.
        limit: u32,
        /// As in `Carve`.
        over: u32,
        /// As in `Carve`.
        safe: u32,
        /// As in `Carve`.
        feed: u32,
        /// As in `Carve`.
        pitch: u32,
        /// Which way the floor is milled; it isn't `NoPocket`.
        pocket: PocketWord,
    },
    /// The drawing in loops form.
    Flatten {
        shape: DrawingWords,
    },
    /// The G-code program that follows open lines at one depth. The form of the drawing is `Dxf` or `Cxf`.
    Strokes {
        shape: DrawingWords,
        /// As in `Probe`.
        bit: (u32, u32),
        /// As in `Probe`.
        rmax: u32,
        /// The depth, in grid units, from 1 to 32,767, at which the bit is at most `rmax` wide.
        depth: u32,
        /// As in `Carve`.
        safe: u32,
        /// As in `Carve`.
        feed: u32,
        /// As in `Carve`.
        pitch: u32,
    },
    /// A G-code program in which moves that leave the drawing have become lifts.
    Repair {
        shape: DrawingWords,
        /// The name of the G-code program's file; it may be empty.
        code: Text,
        /// As in `Probe`.
        bit: (u32, u32),
        /// As in `Probe`.
        rmax: u32,
        /// As in `Carve`.
        safe: u32,
        /// As in `Carve`.
        feed: u32,
    },
    /// A trial of the whole program on a drawing that it makes itself.
    Trial {
        /// The number of cells of that drawing, from 1 to 80.
        count: u32,
    },
}
