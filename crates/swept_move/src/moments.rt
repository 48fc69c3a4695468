// The moments of a move at which its tip isn't above the surface.
ghost use Rattle.std.specs.Prelude.{◌≡◌, ◌⊎◌, pos, ◌≤ℤ◌, ◌<ℤ◌};
ghost use Rattle.swept_move.specs.Motion.{deep_part};
ghost use Rattle.plane_exact.specs.Heights.{IsHeight};

// The moments from `first / over` to `last / over`, of which there is more than one.
#[derive(Clone, Copy)]
pub struct Moments {
    pub first: i64,
    pub last: i64,
    pub over: i64,
    ghost least: { pos 0 ≤ℤ first },
    ghost long: { first <ℤ last },
    ghost most: { last ≤ℤ over },
    ghost range: { over ≤ℤ pos 655340 },
}

// The moments of a move from the height `h` to the height `k`, in tenths of a grid unit, one of them below the surface.
pub fn deep_moments(h: i64, k: i64) -> Moments
    requires start { IsHeight h }
    requires finish { IsHeight k }
    requires deep { (h <ℤ pos 0) ⊎ (k <ℤ pos 0) }
    ensures { record { first = result.first; last = result.last; over = result.over } ≡ deep_part h k }
{
    if h > 0 {
        Moments {
            first: h,
            last: h - k,
            over: h - k,
        }
    } else if k > 0 {
        Moments {
            first: 0,
            last: -h,
            over: k - h,
        }
    } else {
        Moments {
            first: 0,
            last: 1,
            over: 1,
        }
    }
}
