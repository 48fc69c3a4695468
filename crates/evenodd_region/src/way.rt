// Ways from grid points to rational points near the grid, times the denominator.
ghost use Rattle.std.specs.Prelude.{◌≡◌, ◌<◌, ◌^◌, pos, ◌-ℤ◌, ◌*ℤ◌, ◌≤ℤ◌};
ghost use Rattle.integer_algebra.specs.Ranges.{IsUpTo};
ghost use Rattle.plane_exact.specs.Plane.{IsCoordinate};
ghost use Rattle.evenodd_region.specs.Lookup.{IsNearGrid};

use plane_exact::{Point, Way};

/// The way from a grid point to the point (x / over, y / over) near the grid, times `over`. It is at most 73,727 long in either
/// coordinate, times `over`.
pub fn scaled_way<const MOST: u64>(from: Point, x: i64, y: i64, over: i64) -> Way<MOST>
    requires positive { pos 1 ≤ℤ over }
    requires small { (pos 73727 *ℤ over) ≤ℤ pos MOST }
    requires most { MOST < 2 ^ 63 }
    requires near_x { IsNearGrid x over }
    requires near_y { IsNearGrid y over }
    ensures across { result.x ≡ x -ℤ over *ℤ from.x }
    ensures up { result.y ≡ y -ℤ over *ℤ from.y }
{
    Way {
        x: scaled_difference::<MOST>(x, over, from.x()),
        y: scaled_difference::<MOST>(y, over, from.y()),
    }
}

// One coordinate of it: from `from` to z / over, times `over`.
fn scaled_difference<const MOST: u64>(z: i64, over: i64, from: i32) -> i64
    requires positive { pos 1 ≤ℤ over }
    requires small { (pos 73727 *ℤ over) ≤ℤ pos MOST }
    requires most { MOST < 2 ^ 63 }
    requires near { IsNearGrid z over }
    requires on { IsCoordinate from }
    ensures value { result ≡ z -ℤ over *ℤ from }
    ensures range { IsUpTo (pos MOST) result }
{
    z - over * from as i64
}
