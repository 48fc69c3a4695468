// Directions between the x and the y axis, and the half direction of two.
ghost use Rattle.std.specs.Prelude.{◌≡◌, ◌≤◌, ◌*◌, ◌+◌};
ghost use Rattle.arc_flatten.specs.Directions.{share_of};

use grid_num::isqrt;
use std::marker::Model;

/// The number that stands for 1 in a direction's components, 2^30.
pub(crate) const ONE: u64 = 1_073_741_824;

/// Its square.
pub(crate) const ONE_SQUARED: u128 = 1_152_921_504_606_846_976;

/// A direction between the x and the y axis: its components, at most 2^30 each, and not both 0.
#[derive(Clone, Copy)]
pub(crate) struct Heading {
    pub(crate) x: u64,
    pub(crate) y: u64,
}

impl Model for Heading {
    ghost use Rattle.arc_flatten.specs.Directions.{AreHeading, Heading};

    ghost Value = { Heading };

    ghost view = { λ h. record { x = h.x; y = h.y } };

    ghost invariant = { λ h. AreHeading h.x h.y };

    ghost inverse = { λ h. record { x = h.x; y = h.y } };
}

impl Heading {
    ghost use Rattle.std.specs.Prelude.{◌≡◌};
    ghost use Rattle.arc_flatten.specs.Directions.{halfway_of};

    // The half direction of the two.
    pub(crate) fn halfway(self, other: Heading) -> Heading
        ensures { result ≡ halfway_of self other }
    {
        let x = self.x + other.x;
        let y = self.y + other.y;
        let whole = x as u128 * x as u128 + y as u128 * y as u128;
        Heading {
            x: share(x, whole),
            y: share(y, whole),
        }
    }
}

// The component whose square is to 2^60 as the square of the part is to the whole, rounded down.
fn share(part: u64, whole: u128) -> u64
    requires small { part ≤ 2147483648 }
    requires within { part * part ≤ whole }
    requires some { 1 ≤ whole }
    ensures value { result ≡ share_of part whole }
{
    isqrt(ONE_SQUARED * (part as u128 * part as u128) / whole)
}
