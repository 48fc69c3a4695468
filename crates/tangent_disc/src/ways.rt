// Ways from grid points to centres of discs, and how the centres go, times the centre's denominator.
ghost use mir.Syntax.{w128};
ghost use Rattle.std.specs.Prelude.{◌≡◌, ◌≤◌, pos, ◌+ℤ◌, ◌*ℤ◌, FitsSigned};
ghost use Rattle.tangent_disc.specs.Ways.{IsStart, IsStep};

use plane_exact::{MOST_RADIUS, Way};

// The way from a grid point to the centre of a disc, times the denominator: 73,727 times as long as that is, at most, in either
// coordinate.
pub(crate) type DiscWay = Way<55_976_690_376_704>;

// One coordinate of the centres of the discs at a contact, times the denominator: that of the contact itself, and what it gains from
// each disc to the next.
#[derive(Clone, Copy)]
pub(crate) struct Progress {
    pub start: i64,
    pub step: i64,
    ghost from: { IsStart start },
    ghost by: { IsStep step },
}

impl Progress {
    // The coordinate of the centre of the disc `j`.
    pub(crate) fn at(self, j: u32) -> i64
        requires { j ≤ MOST_RADIUS }
        ensures { result ≡ self.start +ℤ pos j *ℤ self.step }
    {
        self.start + i64::from(j) * self.step
    }
}

pub(crate) fn times(a: i128, b: i128) -> i128
    requires { FitsSigned w128 (a *ℤ b) }
    ensures { result ≡ a *ℤ b }
{
    a * b
}
