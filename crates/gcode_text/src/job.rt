// A job: what a written program says of itself, and how it is cut.
use grid_num::Units;
use plane_exact::Bit;

/// The greatest safe height above the surface, in grid units.
pub const MOST_SAFE_HEIGHT: u32 = 32_767;

/// The greatest feed, in the machine's units a minute.
pub const MOST_FEED: u32 = 10_000;

/// What a program is written for.
#[derive(Clone, Copy, Debug, PartialEq, Eq)]
pub struct Job {
    /// The units of the drawing and of the program.
    pub units: Units,
    /// The height above the surface at which the bit travels, in grid units, from 1 to 32,767.
    pub safe: u32,
    /// The feed, in millimetres or inches a minute, from 1 to 10,000.
    pub feed: u32,
    pub bit: Bit,
    /// The greatest depth, in grid units, from 1 to 32,767.
    pub limit: u32,
    /// The greatest distance between contacts along an edge, in grid units, from 1 to 32,767.
    pub step: u32,
}
