// Along a move in tenths of a grid unit: SD^2 times the square of a corner's distance from the tip, less SN^2 times the square of
// the depth. It is a quadratic in the moment, and negative just where the bit's disc holds the corner.
ghost use Rattle.std.specs.Prelude.{◌≡◌, ◌≢◌, ◌↔◌, ◌⊎◌, pos, ◌+ℤ◌, ◌*ℤ◌, ◌≤ℤ◌, IsTrue};
ghost use Rattle.plane_exact.specs.Distance.{square};
ghost use Rattle.swept_move.specs.Part.{IsNotNegativeIn, slope_at, value_at};
ghost use Rattle.swept_move.specs.Range.{IsFineCoefficient};
ghost use Rattle.integer_algebra.specs.Ranges.{IsUpTo};
ghost use Rattle.swept_move.specs.Part.{with_half};

use crate::moments::Moments;

// a s^2 + 2 half s + c at the moment s.
// If you change this: a coefficient may be 6.9e18, and a signed 64-bit word holds 9.2e18, so coordinates or slopes with a sixth more
// range no longer fit. The ranges stand in `specs/Range.antt`; the proofs that read the formulas step by step in their
// widths break first, for the coefficients in `proofs/Products.antt` and for the tests here in `proofs/Clearances.antt`.
#[derive(Clone, Copy)]
pub struct Clearance {
    pub a: i64,
    pub half: i64,
    pub c: i64,
    ghost a_range: { IsFineCoefficient a },
    ghost half_range: { IsFineCoefficient half },
    ghost c_range: { IsFineCoefficient c },
}

// The product of two numbers, neither above the greatest coefficient. Two coefficients of 63 bits make 126, so it is taken in 128.
pub fn product(a: i64, b: i64) -> i128
    requires a { IsFineCoefficient a }
    requires b { IsFineCoefficient b }
    ensures { result ≡ a *ℤ b }
{
    a as i128 * b as i128
}

impl Clearance {
    // Whether it isn't negative at any of the moments. At a first moment that isn't the move's start the tip is at the surface, so
    // it isn't negative there; likewise at a last one that isn't its finish. Only the last tests take wide products.
    pub fn is_not_negative_in(self, part: Moments) -> bool
        requires first { part.first ≢ pos 0 → pos 0 ≤ℤ value_at (with_half self.a self.half self.c) part.first part.over }
        requires last { part.last ≢ part.over → pos 0 ≤ℤ value_at (with_half self.a self.half self.c) part.last part.over }
        ensures { IsTrue result ↔ IsNotNegativeIn (record { first = part.first; last = part.last; over = part.over }) (with_half self.a self.half self.c) }
    {
        self.starts_clear(part)
            && self.finishes_clear(part)
            && (self.opens_downwards()
                || self.rises(part)
                || self.falls(part)
                || self.lowest_is_clear())
    }

    // Whether it isn't negative at the first moment.
    fn starts_clear(self, part: Moments) -> bool
        requires { part.first ≢ pos 0 → pos 0 ≤ℤ value_at (with_half self.a self.half self.c) part.first part.over }
        ensures { IsTrue result ↔ (pos 0 ≤ℤ value_at (with_half self.a self.half self.c) part.first part.over) }
    {
        if part.first == 0 { self.c >= 0 } else { true }
    }

    // Whether it isn't negative at the last moment.
    fn finishes_clear(self, part: Moments) -> bool
        requires { part.last ≢ part.over → pos 0 ≤ℤ value_at (with_half self.a self.half self.c) part.last part.over }
        ensures { IsTrue result ↔ (pos 0 ≤ℤ value_at (with_half self.a self.half self.c) part.last part.over) }
    {
        if part.last == part.over {
            self.at_finish() >= 0
        } else {
            true
        }
    }

    // Its value at the move's finish: four coefficients at most, so it is taken in 128 bits.
    fn at_finish(self) -> i128
        ensures { result ≡ self.a +ℤ pos 2 *ℤ self.half +ℤ self.c }
    {
        self.a as i128 + 2 * self.half as i128 + self.c as i128
    }

    // Whether it opens downwards, or is a straight line.
    fn opens_downwards(self) -> bool
        ensures { IsTrue result ↔ (self.a ≤ℤ pos 0) }
    {
        self.a <= 0
    }

    // Half its slope at the moment `k / over`, times `over`.
    fn half_slope(self, k: i64, over: i64) -> i128
        requires k { IsUpTo (pos 655340) k }
        requires over { IsUpTo (pos 655340) over }
        ensures { pos 2 *ℤ result ≡ slope_at (with_half self.a self.half self.c) k over }
    {
        product(over, self.half) + product(k, self.a)
    }

    // Whether it rises, or stays, at the first moment.
    fn rises(self, part: Moments) -> bool
        ensures { IsTrue result ↔ (pos 0 ≤ℤ slope_at (with_half self.a self.half self.c) part.first part.over) }
    {
        self.half_slope(part.first, part.over) >= 0
    }

    // Whether it falls, or stays, at the last moment.
    fn falls(self, part: Moments) -> bool
        ensures { IsTrue result ↔ (slope_at (with_half self.a self.half self.c) part.last part.over ≤ℤ pos 0) }
    {
        self.half_slope(part.last, part.over) <= 0
    }

    // Whether the lowest point of a quadratic that opens upwards isn't below 0.
    fn lowest_is_clear(self) -> bool
        ensures { IsTrue result ↔ (square (pos 2 *ℤ self.half) ≤ℤ (pos 4 *ℤ (self.a *ℤ self.c))) }
    {
        product(self.half, self.half) <= product(self.a, self.c)
    }
}
