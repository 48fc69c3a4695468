// How two segments meet.
ghost use Rattle.std.specs.Prelude.{◌≡◌, ◌≢◌, ◌↔◌, ◌⊎◌, pos, ◌≤ℤ◌, ◌<ℤ◌, IsTrue};
ghost use Rattle.plane_exact.specs.Meet.{IsMeet};
ghost use Rattle.plane_exact.specs.Product.{cross_of, dot_of};

use crate::point::Seg;
use crate::product::{cross, dot};

/// How two segments meet, by the points that are on both.
#[derive(Clone, Copy, Debug, PartialEq, Eq)]
pub enum Meet {
    /// No point is on both.
    Apart,
    /// One point is, and it is an end of both.
    AtEnds,
    /// One point is, and it isn't an end of both.
    Crosses,
    /// More than one point is.
    Overlaps,
}

/// How `s` and `t` meet, decided exactly over the rational points of both. The two ends of each must differ.
pub fn cross_kind(s: Seg, t: Seg) -> Meet
    requires first { s.a ≢ s.b }
    requires second { t.a ≢ t.b }
    ensures { IsMeet s t result }
{
    let from = cross(s.a, s.b, t.a);
    let to = cross(s.a, s.b, t.b);
    if from < to {
        slanted(s, t)
    } else if to < from {
        slanted(s, turned(t))
    } else if from != 0 {
        Meet::Apart
    } else if dot(s.a, s.b, t.a) < dot(s.a, s.b, t.b) {
        collinear(s, t)
    } else {
        collinear(s, turned(t))
    }
}

// The same segment from its other end.
fn turned(s: Seg) -> Seg
    ensures start { result.a ≡ s.b }
    ensures finish { result.b ≡ s.a }
{
    Seg { a: s.b, b: s.a }
}

// How two segments meet of which `t` turns left from the way of `s`.
fn slanted(s: Seg, t: Seg) -> Meet
    requires { cross_of s.a s.b t.a <ℤ cross_of s.a s.b t.b }
    ensures { IsMeet s t result }
{
    if !(rises_through(s, t) && rises_through(t, turned(s))) {
        Meet::Apart
    } else if has_end_on(s, t) && has_end_on(t, s) {
        Meet::AtEnds
    } else {
        Meet::Crosses
    }
}

// Whether `t` starts not to the left of the line of `s` and finishes not to the right of it.
fn rises_through(s: Seg, t: Seg) -> bool
    ensures { IsTrue result ↔ ((cross_of s.a s.b t.a ≤ℤ pos 0) × (pos 0 ≤ℤ cross_of s.a s.b t.b)) }
{
    cross(s.a, s.b, t.a) <= 0 && 0 <= cross(s.a, s.b, t.b)
}

// Whether an end of `t` is on the line of `s`.
fn has_end_on(s: Seg, t: Seg) -> bool
    ensures { IsTrue result ↔ ((cross_of s.a s.b t.a ≡ pos 0) ⊎ (cross_of s.a s.b t.b ≡ pos 0)) }
{
    cross(s.a, s.b, t.a) == 0 || cross(s.a, s.b, t.b) == 0
}

// How two segments of one line meet that go the same way.
fn collinear(s: Seg, t: Seg) -> Meet
    requires start { cross_of s.a s.b t.a ≡ pos 0 }
    requires finish { cross_of s.a s.b t.b ≡ pos 0 }
    requires forward { dot_of s.a s.b t.a <ℤ dot_of s.a s.b t.b }
    ensures { IsMeet s t result }
{
    let from = dot(s.a, s.b, t.a);
    let to = dot(s.a, s.b, t.b);
    let length = dot(s.a, s.b, s.b);
    if to < 0 || length < from {
        Meet::Apart
    } else if to == 0 || from == length {
        Meet::AtEnds
    } else {
        Meet::Overlaps
    }
}
