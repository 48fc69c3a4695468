// Ways between points in tenths of a grid unit.
ghost use Rattle.std.specs.Prelude.{◌≡◌, ◌-ℤ◌};
ghost use Rattle.plane_exact.specs.Heights.{IsHeight};
ghost use Rattle.swept_move.specs.Clear.{tenfold};

use plane_exact::{Point, Seg, Spot, Way};

// The way from one point to another, in tenths of a grid unit.
pub type FineWay = Way<655_350>;

// The way from one spot to another.
pub fn way_between(from: Spot, to: Spot) -> FineWay
    ensures across { result.x ≡ to.at.x -ℤ from.at.x }
    ensures up { result.y ≡ to.at.y -ℤ from.at.y }
{
    Way {
        x: to.x as i64 - from.x as i64,
        y: to.y as i64 - from.y as i64,
    }
}

// The way from a grid point to the spot.
pub fn way_from(point: Point, spot: Spot) -> FineWay
    ensures across { result.x ≡ spot.at.x -ℤ (tenfold point).x }
    ensures up { result.y ≡ spot.at.y -ℤ (tenfold point).y }
{
    Way {
        x: spot.x as i64 - 10 * point.x() as i64,
        y: spot.y as i64 - 10 * point.y() as i64,
    }
}

// The spot's height above the surface.
pub fn height(spot: Spot) -> i64
    ensures value { result ≡ spot.h }
    ensures range { IsHeight result }
{
    spot.h as i64
}

// The way along an edge.
pub fn way_along(edge: &Seg) -> FineWay
    ensures across { result.x ≡ (tenfold edge.now.b).x -ℤ (tenfold edge.now.a).x }
    ensures up { result.y ≡ (tenfold edge.now.b).y -ℤ (tenfold edge.now.a).y }
{
    Way {
        x: 10 * edge.b.x() as i64 - 10 * edge.a.x() as i64,
        y: 10 * edge.b.y() as i64 - 10 * edge.a.y() as i64,
    }
}
