// The multiples of a pitch in a range of coordinates.
ghost use Rattle.std.specs.Prelude.{ℤ, ◌<ℤ◌, ◌≤ℤ◌, ◌+ℤ◌, pos, MatchOption};
ghost use Rattle.plane_exact.specs.Cone.{IsFromOneTo};
ghost use Rattle.plane_exact.specs.Plane.{IsCoordinate};
ghost use Rattle.depth_rule.specs.Ticks.{AreTicks, IsMultiple};

/// The greatest pitch of ticks, in grid units: the greatest coordinate.
pub const MOST_APART: u32 = 32_767;

/// So many multiples of a pitch, at least one, from the first on, in grid units.
#[derive(Clone, Copy, Debug, PartialEq, Eq)]
pub struct Ticks {
    pub first: i32,
    pub count: u32,
}

/// The multiples of the pitch from `low` to `high`, both among them; None where there is none. All are coordinates in grid units, and
/// the pitch is from 1 to 32,767 grid units.
pub fn ticks_between(low: i32, high: i32, pitch: u32) -> Option<Ticks>
    requires low { IsCoordinate low }
    requires high { IsCoordinate high }
    requires pitch { IsFromOneTo MOST_APART pitch }
    ensures { MatchOption result ((z : ℤ) → IsMultiple pitch z → low ≤ℤ z → ¬ (z ≤ℤ high)) (λ ticks. AreTicks low high pitch ticks.first ticks.count) }
{
    let first = first_from(low, pitch);
    if first > high {
        return None;
    }
    Some(Ticks {
        first,
        count: (high - first) as u32 / pitch + 1,
    })
}

// The first multiple of the pitch at or above `low`.
fn first_from(low: i32, pitch: u32) -> i32
    requires low { IsCoordinate low }
    requires pitch { IsFromOneTo MOST_APART pitch }
    ensures multiple { IsMultiple pitch result }
    ensures above { low ≤ℤ result }
    ensures next { result <ℤ (low +ℤ pos pitch) }
{
    low + (-low).rem_euclid(pitch as i32)
}
