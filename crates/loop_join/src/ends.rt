// The ends of segments, in an order in which those at one point stand together.
ghost use Rattle.std.specs.Prelude.{◌≡◌, ◌∷◌};
ghost use Rattle.loop_join.specs.Ends.{other_end};
ghost use Rattle.loop_join.specs.Index.{IsLeastFrom, IsLeastNumber, end_of};

use plane_exact::{Point, Seg, is_same_point};
use std::collections::BTreeSet;

// An end of the segment with this number, at the point with these coordinates. The order is by the fields in turn.
#[derive(Clone, Copy, PartialEq, Eq, PartialOrd, Ord, Drop)]
pub struct End {
    pub x: i32,
    pub y: i32,
    pub number: u32,
}

pub fn end_at(p: Point, number: u32) -> End
    ensures { result ≡ end_of p number }
{
    End {
        x: p.x(),
        y: p.y(),
        number,
    }
}

// The first of the ends that aren't before the given one.
pub fn least_from(ends: &BTreeSet<End>, from: End) -> Option<End>
    ensures { IsLeastFrom ends.now from result }
{
    match ends.range(from..).next() {
        Some(end) => Some(*end),
        None => None,
    }
}

// The lowest number of a segment that ends at the point.
pub fn least_number(ends: &BTreeSet<End>, p: Point) -> Option<u32>
    ensures { IsLeastNumber ends.now p result }
{
    let end = least_from(ends, end_at(p, 0))?;
    if end.x == p.x() && end.y == p.y() {
        Some(end.number)
    } else {
        None
    }
}

// The end of a segment that is reached from its end at the place.
pub fn other_end(place: Point, seg: Seg) -> Point
    ensures { result ≡ other_end place seg }
{
    if is_same_point(place, seg.a) {
        seg.b
    } else {
        seg.a
    }
}
