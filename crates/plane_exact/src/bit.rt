// The conical bit.
ghost use Rattle.std.specs.Prelude.{◌≡◌, ◌↔◌, IsSome, IfSome};
ghost use Rattle.plane_exact.specs.Cone.{IsCone};

use std::marker::Model;

/// The greatest numerator and the greatest denominator of a bit's slope.
pub const MOST_SLOPE: u32 = 2000;

/// The greatest radius that a bit may cut with at the surface, in grid units.
pub const MOST_RADIUS: u32 = 8191;

/// A conical bit. At depth z, in grid units, its radius at the surface is `sn * z / sd`.
#[derive(Clone, Copy, Debug, PartialEq, Eq)]
pub struct Bit {
    sn: u32,
    sd: u32,
    rmax: u32,
}

impl Model for Bit {
    ghost use Rattle.plane_exact.specs.Cone.{Cone, IsCone};

    ghost Value = { Cone };

    ghost view = { λ b. record { sn = b.sn; sd = b.sd; rmax = b.rmax } };

    ghost invariant = { λ b. IsCone b.sn b.sd b.rmax };

    ghost inverse = { λ c. record { sn = c.sn; sd = c.sd; rmax = c.rmax } };
}

impl Bit {
    /// The bit whose radius at depth z is `sn * z / sd`, and which may cut up to the radius `rmax`.
    /// None where `sn` or `sd` is not from 1 to 2000, or `rmax` not from 1 to 8191.
    pub fn new(sn: u32, sd: u32, rmax: u32) -> Option<Bit>
        ensures range { IsSome result ↔ IsCone sn sd rmax }
        ensures value { IfSome result (λ b. b ≡ record { sn = sn; sd = sd; rmax = rmax }) }
    {
        if 1 <= sn
            && sn <= MOST_SLOPE
            && 1 <= sd
            && sd <= MOST_SLOPE
            && 1 <= rmax
            && rmax <= MOST_RADIUS
        {
            Some(Bit { sn, sd, rmax })
        } else {
            None
        }
    }

    /// The slope's numerator, from 1 to 2000.
    pub fn sn(&self) -> u32
        ensures value { result ≡ self.now.sn }
        ensures range { IsCone self.now.sn self.now.sd self.now.rmax }
    {
        self.sn
    }

    /// The slope's denominator, from 1 to 2000.
    pub fn sd(&self) -> u32
        ensures value { result ≡ self.now.sd }
        ensures range { IsCone self.now.sn self.now.sd self.now.rmax }
    {
        self.sd
    }

    /// The greatest radius at the surface, in grid units, from 1 to 8191.
    pub fn rmax(&self) -> u32
        ensures value { result ≡ self.now.rmax }
        ensures range { IsCone self.now.sn self.now.sd self.now.rmax }
    {
        self.rmax
    }
}
