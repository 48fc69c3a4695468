// A POLYLINE with its vertices as they are read.
ghost use Rattle.std.specs.Prelude.{◌≡◌};
ghost use Rattle.dxf_outline.specs.Polyline.{corner_of, placed, trail_of, vertex_of};
ghost use Rattle.dxf_outline.specs.State.{trail_at};

use crate::numbers::{number_up_to, point_up_to};
use crate::slots::{Shape, Slots};
use arc_flatten::{Fine, MOST_BULGE, MOST_END};
use std::alloc::Global;
use std::marker::Model;

/// Where a POLYLINE has a corner, and the bulge of the way to the next, in 2^30ths.
#[derive(Clone, Copy)]
pub(crate) struct Corner {
    pub(crate) place: Fine,
    pub(crate) bulge: i64,
}

impl Model for Corner {
    ghost use Rattle.dxf_outline.specs.Corners.{CornerPoint, IsCorner};

    ghost Value = { CornerPoint };

    ghost view = { λ c. record { place = c.place; bulge = c.bulge } };

    ghost invariant = { λ c. IsCorner c.place c.bulge };

    ghost inverse = { λ c. record { place = c.place; bulge = c.bulge } };
}

/// A VERTEX, judged by itself.
#[derive(Clone, Copy)]
pub(crate) enum Vertex {
    /// It is of the frame of a curve.
    Passed,
    /// The value of the pair with this number can't be read.
    Unreadable(u32),
    /// The entity that begins at the pair with the first number lacks the code that is the second.
    Lacking(u32, u32),
    /// A number is out of range.
    TooLarge,
    /// It is this corner.
    Corner(Corner),
}

/// A POLYLINE that has begun.
#[derive(Drop)]
pub(crate) struct Polyline {
    /// The number of its first pair.
    pub(crate) at: u32,
    /// The number of its first own pair whose value can't be read.
    pub(crate) unreadable: Option<u32>,
    /// The flags of code 70.
    pub(crate) flags: u64,
    pub(crate) vertices: Vec<Vertex>,
}

impl Polyline {
    /// The POLYLINE that begins at this pair and says this, without a vertex.
    pub(crate) fn begun(alloc: Global, at: u32, slots: &Slots) -> Polyline
        ensures { trail_at result ≡ trail_of at slots.now }
    {
        Polyline {
            at,
            unreadable: slots.unreadable,
            flags: slots.flags(),
            vertices: Vec::new(alloc),
        }
    }
}

/// The VERTEX that begins at this pair and says this.
#[tactic(auto, unfolding(crate::specs::Polyline::vertex_of))]
pub(crate) fn judge_vertex(at: u32, slots: &Slots) -> Vertex
    ensures { result ≡ vertex_of at slots.now }
{
    if slots.flags() / 16 % 2 == 1 {
        match slots.unreadable_flags {
            Some(pair) => Vertex::Unreadable(pair),
            None => Vertex::Passed,
        }
    } else {
        placed(
            at,
            slots,
            slots.unreadable,
            slots.least_missing(Shape::Vertex),
        )
    }
}

// A VERTEX with a place, by the first of its pairs that can't be read, and the code that it lacks.
fn placed(at: u32, slots: &Slots, unreadable: Option<u32>, missing: Option<u32>) -> Vertex
    ensures { result ≡ placed at slots.now unreadable missing }
{
    match (unreadable, missing) {
        (Some(pair), _) => Vertex::Unreadable(pair),
        (None, Some(code)) => Vertex::Lacking(at, code),
        (None, None) => cornered(slots),
    }
}

fn cornered(slots: &Slots) -> Vertex
    ensures { result ≡ corner_of slots.now }
{
    let Some(place) = point_up_to(MOST_END, slots.x, slots.y) else {
        return Vertex::TooLarge;
    };
    let Some(bulge) = number_up_to(MOST_BULGE, slots.bulge) else {
        return Vertex::TooLarge;
    };
    Vertex::Corner(Corner { place, bulge })
}
