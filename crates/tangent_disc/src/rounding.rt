// Quotients of whole numbers, rounded to whole numbers.
ghost use Rattle.std.specs.Prelude.{pos, negsuc, ◌≤ℤ◌};
ghost use Rattle.integer_algebra.specs.Ranges.{IsWithin};
ghost use Rattle.integer_algebra.specs.Floors.{IsFloor};
ghost use Rattle.tangent_disc.specs.Tangent.{IsRounded};
ghost use Rattle.tangent_disc.specs.Ways.{most_over};
ghost use Rattle.evenodd_region.specs.Lookup.{IsNearGrid};

use plane_exact::floor_div;

// The floor of z / over, of a coordinate near the grid.
pub(crate) fn grid_floor(z: i64, over: i64) -> i32
    requires some { pos 1 ≤ℤ over }
    requires near { IsNearGrid z over }
    ensures floor { IsFloor z over result }
    ensures range { IsWithin (negsuc 40959) (pos 40959) result }
{
    floor_div(z, over) as i32
}

// The whole number nearest to z / over, the greater of two: the floor of z / over + 1 / 2.
pub(crate) fn nearest(z: i64, over: i64) -> i64
    requires some { pos 1 ≤ℤ over }
    requires small { over ≤ℤ most_over }
    requires near { IsNearGrid z over }
    ensures { IsRounded z over result }
{
    floor_div(2 * z + over, 2 * over)
}
