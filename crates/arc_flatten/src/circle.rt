// Points of an arc of a circle.
ghost use Rattle.std.specs.Prelude.{◌≡◌, ◌+◌, ◌*◌, ◌/◌, ◌≤◌, ◌<◌, pos, ◌*ℤ◌, ◌≤ℤ◌, IfOk};
ghost use Rattle.integer_algebra.specs.Ranges.{IsUpTo, IsWithin};
ghost use Rattle.plane_exact.specs.Cone.{IsFromOneTo};
ghost use Rattle.grid_num.specs.Rounding.{nearest};
ghost use Rattle.arc_flatten.specs.Arcs.{arc_points, circle_point_of, pieces_of, stepped_points, width_of};
ghost use Rattle.arc_flatten.specs.Points.{IsPointUpTo};

use crate::angle::TURN;
use crate::fine::Fine;
use crate::heading::ONE;
use crate::quarter::direction;
use crate::wide::times;
use std::alloc::{AllocError, Global};

/// The greatest size of a number of an arc's centre.
pub const MOST_CENTRE: u64 = 100_000_000_000;

/// The greatest radius.
pub const MOST_RADIUS: u64 = 100_000_000_000;

/// The greatest width of a piece of an arc, in degrees.
pub const MOST_CHORD: u32 = 90;

// A piece of 1 degree is the narrowest, and a full turn has no more pieces than this.
const MOST_PIECES: u32 = 361;

/// The points of the arc about `c` of the radius `r`, at most 100,000,000,000, that goes counterclockwise from the direction `from`
/// over `span` parts of a turn, from 1 to 2^22: its ends, and points between them, no wider apart than `chord` degrees, from 1 to 90.
/// The numbers of `c` are at most 100,000,000,000 in size. The error is running out of memory.
pub fn arc(
    alloc: Global,
    c: Fine,
    r: i64,
    from: u32,
    span: u32,
    chord: u32,
) -> Result<Vec<Fine>, AllocError>
    requires centre { IsPointUpTo MOST_CENTRE c }
    requires radius { IsWithin (pos 0) (pos MOST_RADIUS) r }
    requires span { IsFromOneTo TURN span }
    requires chord { IsFromOneTo MOST_CHORD chord }
    ensures { IfOk result (λ points. points.items ≡ arc_points c r from span chord) }
{
    let width = chord * TURN / 360;
    let pieces = (span + (width - 1)) / width;
    stepped(alloc, c, r, from, span, pieces)
}

// The points at the ends of so many even pieces.
fn stepped(
    alloc: Global,
    c: Fine,
    r: i64,
    from: u32,
    span: u32,
    pieces: u32,
) -> Result<Vec<Fine>, AllocError>
    requires centre { IsPointUpTo MOST_CENTRE c }
    requires radius { IsWithin (pos 0) (pos MOST_RADIUS) r }
    requires span { span ≤ TURN }
    requires pieces { IsFromOneTo MOST_PIECES pieces }
    ensures { IfOk result (λ points. points.items ≡ stepped_points c r from span pieces) }
{
    let mut points = Vec::with_capacity(alloc, pieces as usize + 1)?;
    for i in 0..pieces + 1 {
        let u = from as u64 + (i * span / pieces) as u64;
        points.push(circle_point(c, r, u))?;
    }
    Ok(points)
}

// The point of the circle in the direction `u`, reduced by whole turns.
fn circle_point(c: Fine, r: i64, u: u64) -> Fine
    requires centre { IsPointUpTo MOST_CENTRE c }
    requires radius { IsWithin (pos 0) (pos MOST_RADIUS) r }
    ensures { result ≡ circle_point_of c r u }
{
    let way = direction((u % TURN as u64) as u32);
    Fine {
        x: c.x + scaled(r, way.0),
        y: c.y + scaled(r, way.1),
    }
}

// The number nearest to the radius times so many 2^30ths.
fn scaled(r: i64, component: i64) -> i64
    requires radius { IsWithin (pos 0) (pos MOST_RADIUS) r }
    requires component { IsUpTo (pos ONE) component }
    ensures value { result ≡ nearest (r *ℤ component) 1073741824 }
    ensures size { IsUpTo (pos MOST_RADIUS) result }
{
    let product = times(r as i128, component as i128);
    (2 * product + (1 << 30)).div_euclid(1 << 31) as i64
}
