// Ranges of the rows, or of the columns, of grid points that the bit reaches.
ghost use Rattle.std.specs.Prelude.{◌*◌, ◌+◌, ◌<◌, ◌≤◌, pos, ◌≤ℤ◌};
ghost use Rattle.plane_exact.specs.Heights.{IsFineCoordinate};
ghost use Rattle.swept_move.specs.Band.{AreLinesAround, IsSpan};

use plane_exact::{Bit, MOST_SPOT_DEPTH};

// The lines of the grid from `low` to `high`; none where `high` is less.
#[derive(Clone, Copy)]
pub struct Span {
    pub low: i32,
    pub high: i32,
}

impl Span {
    // The lines of both, and those between.
    pub fn joined(self, other: Span) -> Span
        ensures low { (result.low ≤ℤ self.low) × (result.low ≤ℤ other.low) }
        ensures high { (self.high ≤ℤ result.high) × (other.high ≤ℤ result.high) }
    {
        Span {
            low: self.low.min(other.low),
            high: self.high.max(other.high),
        }
    }
}

// The lines that the bit's disc reaches at the depth, where its centre is at this coordinate, all in tenths of a grid unit.
pub fn span_of(bit: &Bit, at: i32, depth: u32) -> Span
    requires at { IsFineCoordinate at }
    requires depth { depth ≤ MOST_SPOT_DEPTH }
    ensures { IsSpan bit.now at depth result.low result.high }
{
    lines_around(at, radius_at(bit, depth))
}

// The lines at most so many tenths of a grid unit on either side of a coordinate in tenths.
fn lines_around(at: i32, radius: u32) -> Span
    requires at { IsFineCoordinate at }
    requires radius { radius ≤ 655340000 }
    ensures { AreLinesAround at (pos radius) result.low result.high }
{
    let radius = radius as i32;
    Span {
        low: (at - radius + 9).div_euclid(10),
        high: (at + radius).div_euclid(10),
    }
}

// The bit's radius at the depth, both in tenths of a grid unit, rounded down.
fn radius_at(bit: &Bit, depth: u32) -> u32
    requires { depth ≤ MOST_SPOT_DEPTH }
    ensures low { bit.now.sd * result ≤ bit.now.sn * depth }
    ensures high { bit.now.sn * depth < bit.now.sd * (result + 1) }
    ensures range { result ≤ 655340000 }
    ensures over { 1 ≤ bit.now.sd }
{
    bit.sn() * depth / bit.sd()
}
