// Numbers of an entity in their ranges.
ghost use Rattle.std.specs.Prelude.{◌≡◌, ◌≤◌, pos, IfSome};
ghost use Rattle.integer_algebra.specs.Ranges.{IsUpTo, IsWithin};
ghost use Rattle.arc_flatten.specs.Points.{IsPointUpTo};
ghost use Rattle.dxf_outline.specs.Shapes.{point_up_to, radius_of};
ghost use Rattle.dxf_outline.specs.Values.{number_up_to};

use crate::values::Reading;
use arc_flatten::{Fine, MOST_FINE, MOST_RADIUS};

/// The number that isn't above `most` in size, 0 where there is no reading.
pub(crate) fn number_up_to(most: u64, reading: Option<Reading>) -> Option<i64>
    ensures value { result ≡ number_up_to most reading }
    ensures small { IfSome result (λ z. IsUpTo (pos most) z) }
{
    match reading {
        None => Some(0),
        Some(Reading::Number(z)) if z.unsigned_abs() <= most => Some(z),
        Some(_) => None,
    }
}

/// The point whose numbers aren't above `most` in size.
pub(crate) fn point_up_to(most: u64, x: Option<Reading>, y: Option<Reading>) -> Option<Fine>
    requires { most ≤ MOST_FINE }
    ensures value { result ≡ point_up_to most x y }
    ensures small { IfSome result (λ p. IsPointUpTo most p) }
{
    let x = number_up_to(most, x)?;
    let y = number_up_to(most, y)?;
    Some(Fine { x, y })
}

/// The radius, which isn't negative.
pub(crate) fn radius(reading: Option<Reading>) -> Option<i64>
    ensures value { result ≡ radius_of reading }
    ensures range { IfSome result (λ r. IsWithin (pos 0) (pos MOST_RADIUS) r) }
{
    let r = number_up_to(MOST_RADIUS, reading)?;
    if 0 <= r { Some(r) } else { None }
}
