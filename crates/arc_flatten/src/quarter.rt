// The directions of the 2^22 parts of a full turn.
ghost use Rattle.std.specs.Prelude.{◌≡◌, ◌<◌, ◌≤◌, pos};
ghost use Rattle.integer_algebra.specs.Ranges.{IsUpTo};
ghost use Rattle.arc_flatten.specs.Directions.{direction_of, in_quarter, quarter_turned};

use crate::angle::{QUARTER, TURN};
use crate::heading::{Heading, ONE};

/// How many times a quarter turn is halved.
const BITS: u32 = 20;

/// The direction at `u` parts of a full turn, counterclockwise from the x axis, of which there are 2^22: its components along x and y,
/// in 2^30ths.
pub fn direction(u: u32) -> (i64, i64)
    requires { u < TURN }
    ensures value { result ≡ direction_of u }
    ensures across { IsUpTo (pos ONE) result.0 }
    ensures up { IsUpTo (pos ONE) result.1 }
{
    let heading = first_quarter(u % QUARTER);
    turned(u / QUARTER, heading.x as i64, heading.y as i64)
}

// The direction at `f` parts of the first quarter turn.
fn first_quarter(f: u32) -> Heading
    ensures { result ≡ in_quarter f }
{
    let mut s = Heading { x: ONE, y: 0 };
    let mut t = Heading { x: 0, y: ONE };
    for done in 0..BITS {
        let half = s.halfway(t);
        if (f >> (BITS - 1 - done)) % 2 == 1 {
            s = half;
        } else {
            t = half;
        }
    }
    s
}

// The way (x, y) turned by so many quarter turns counterclockwise.
fn turned(quarters: u32, x: i64, y: i64) -> (i64, i64)
    requires x { IsUpTo (pos ONE) x }
    requires y { IsUpTo (pos ONE) y }
    ensures value { result ≡ quarter_turned quarters x y }
    ensures across { IsUpTo (pos ONE) result.0 }
    ensures up { IsUpTo (pos ONE) result.1 }
{
    let mut way = (x, y);
    for _ in 0..quarters {
        way = (-way.1, way.0);
    }
    way
}
