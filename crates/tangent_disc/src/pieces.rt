// How long an edge is, and into how many pieces a step divides it.
ghost use Rattle.std.specs.Prelude.{◌≡◌, ◌≤◌, pos};
ghost use Rattle.plane_exact.specs.Cone.{IsFromOneTo};
ghost use Rattle.tangent_disc.specs.Contacts.{IsLengthUp, IsPieces};
ghost use Rattle.tangent_disc.specs.Roots.{IsRootUp};
ghost use Rattle.tangent_disc.specs.declared.contact.TheConstants.{MOST_STEP};

use grid_num::isqrt;
use plane_exact::{Seg, dot};

// The length of the edge, rounded up.
pub(crate) fn length_up(edge: &Seg) -> u32
    ensures value { IsLengthUp edge.now (pos result) }
    ensures range { result ≤ 92681 }
{
    root_up(dot(edge.a, edge.b, edge.b) as u64)
}

// The square root of a number, rounded up; the number is that of a squared length.
fn root_up(v: u64) -> u32
    requires { v ≤ 8589672450 }
    ensures value { IsRootUp v result }
    ensures range { result ≤ 92681 }
{
    let root = isqrt(u128::from(v));
    if root * root == v {
        root as u32
    } else {
        root as u32 + 1
    }
}

// The number of pieces that the step divides the edge into.
pub(crate) fn pieces_of(edge: &Seg, step: u32) -> u32
    requires { IsFromOneTo MOST_STEP step }
    ensures { IsPieces step edge.now result }
{
    length_up(edge).div_ceil(step).max(1)
}
