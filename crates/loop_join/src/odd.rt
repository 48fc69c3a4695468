// The points at which an odd number of segments end.
ghost use Rattle.std.specs.Prelude.{◌≡◌, not, if◌then◌else◌, IfOk, OnOk};
ghost use Rattle.plane_exact.specs.Plane.{GridPoint};
ghost use Rattle.plane_exact.specs.Same.{same_point};
ghost use Rattle.loop_join.specs.Ends.{is_odd, open_point};
ghost use Rattle.loop_join.specs.Places.{has_place, place_of};

use plane_exact::{Point, Seg};
use std::alloc::{AllocError, Global};
use std::collections::BTreeSet;

// The first point at which an odd number of segments end, in the order of the segments, a before b.
pub fn open_point(alloc: Global, segs: &[Seg]) -> Result<Option<Point>, AllocError>
    ensures { IfOk result (λ found. found ≡ open_point segs.now) }
{
    let odd = odd_points(alloc, segs)?;
    for seg in segs {
        if is_among(&odd, seg.a) {
            return Ok(Some(seg.a));
        }
        if is_among(&odd, seg.b) {
            return Ok(Some(seg.b));
        }
    }
    Ok(None)
}

// The points at which an odd number of segments end, by their coordinates.
fn odd_points(alloc: Global, segs: &[Seg]) -> Result<BTreeSet<(i32, i32)>, AllocError>
    ensures { IfOk result (λ odd. (p : GridPoint) → has_place odd p ≡ is_odd segs.now p) }
{
    let mut odd = BTreeSet::new(alloc);
    for seg in segs {
        flip(&mut odd, seg.a)?;
        flip(&mut odd, seg.b)?;
    }
    Ok(odd)
}

// Takes the point out where it is among the points, else adds it.
fn flip(points: &mut BTreeSet<(i32, i32)>, p: Point) -> Result<(), AllocError>
    ensures { OnOk result ((q : GridPoint) → has_place points.new q ≡ (if same_point q p then not (has_place points.old q) else has_place points.old q)) }
{
    let place = place_of(p);
    if !points.remove(&place) {
        points.insert(place)?;
    }
    Ok(())
}

fn is_among(points: &BTreeSet<(i32, i32)>, p: Point) -> bool
    ensures { result ≡ has_place points.now p }
{
    points.contains(&place_of(p))
}

fn place_of(p: Point) -> (i32, i32)
    ensures { result ≡ place_of p }
{
    (p.x(), p.y())
}
