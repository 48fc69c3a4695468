// What a glyph is drawn of.

/// The greatest size of a coordinate or a radius, in millionths of a font unit.
pub const MOST_LENGTH: u64 = 1_000_000_000;

/// The greatest size of an angle, in millionths of a degree.
pub const MOST_ANGLE: u64 = 100_000_000_000;

/// A line or an arc of a glyph. Lengths are in millionths of a font unit, angles in millionths of a degree, counterclockwise from the
/// direction to the right.
#[derive(Clone, Copy, Debug, PartialEq, Eq)]
pub enum Element {
    /// From one point to another.
    Line {
        x1: i64,
        y1: i64,
        x2: i64,
        y2: i64,
    },
    /// About a centre, by its radius, from the angle `a1` to the angle `a2`, counterclockwise or clockwise.
    Arc {
        cx: i64,
        cy: i64,
        r: i64,
        a1: i64,
        a2: i64,
        clockwise: bool,
    },
}
