// Points taken to the grid.
ghost use Rattle.std.specs.Prelude.{◌≡◌};
ghost use Rattle.grid_num.specs.Rounding.{nearest};
ghost use Rattle.arc_flatten.specs.Grid.{grid_of};
ghost use Rattle.arc_flatten.specs.Points.{IsFine};

use crate::fine::Fine;
use plane_exact::Point;

/// The nearest point of the grid, the greater coordinate of two, or None where it is out of the coordinates' range.
pub fn to_grid(f: Fine) -> Option<Point>
    ensures { result ≡ grid_of f }
{
    Point::new(in_grid_units(f.x), in_grid_units(f.y))
}

// The number of grid units nearest to so many thousandths.
fn in_grid_units(thousandths: i64) -> i64
    requires { IsFine thousandths }
    ensures { result ≡ nearest thousandths 1000 }
{
    (2 * thousandths + 1000).div_euclid(2000)
}
