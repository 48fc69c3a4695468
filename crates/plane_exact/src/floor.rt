// Quotients rounded down.
ghost use Rattle.std.specs.Prelude.{pos, ◌≤ℤ◌};
ghost use Rattle.integer_algebra.specs.Floors.{IsFloor};

/// The greatest whole number that is at most z / over, for a denominator above 0.
pub fn floor_div(z: i64, over: i64) -> i64
    requires { pos 1 ≤ℤ over }
    ensures { IsFloor z over result }
{
    z.div_euclid(over)
}
