// The coefficients of the clearance of a move from a corner, in tenths of a grid unit.
ghost use Rattle.std.specs.Prelude.{◌≡◌, ◌≤◌, pos, ◌-ℤ◌, ◌*ℤ◌, ◌≤ℤ◌};
ghost use Rattle.plane_exact.specs.Distance.{square};
ghost use Rattle.swept_move.specs.Sweep.{margin_of};
ghost use Rattle.swept_move.specs.Range.{IsFineCoefficient, IsFineProduct, IsFineScaled, IsFineWay};
ghost use Rattle.swept_move.specs.Part.{with_half};

use crate::clearance::Clearance;
use crate::way::FineWay;
use plane_exact::Bit;

// The square of SN or SD, times a product.
fn scaled(number: u32, product: i64) -> i64
    requires number { number ≤ 2000 }
    requires product { IsFineProduct product }
    ensures value { result ≡ square (pos number) *ℤ product }
    ensures range { IsFineScaled result }
{
    number as i64 * number as i64 * product
}

// SD^2 * ways - SN^2 * depths, where `ways` is a product of two ways and `depths` one of two depths.
fn excess(bit: &Bit, ways: i64, depths: i64) -> i64
    requires ways { IsFineProduct ways }
    requires depths { IsFineProduct depths }
    ensures value { result ≡ square (pos bit.now.sd) *ℤ ways -ℤ square (pos bit.now.sn) *ℤ depths }
    ensures range { IsFineCoefficient result }
{
    scaled(bit.sd(), ways) - scaled(bit.sn(), depths)
}

// The product of two numbers, each a depth or a difference of two depths.
fn depths(a: i64, b: i64) -> i64
    requires a { IsFineWay a }
    requires b { IsFineWay b }
    ensures value { result ≡ a *ℤ b }
    ensures range { IsFineProduct result }
{
    a * b
}

// Along a move whose tip is at first the way `from_corner` from the corner and `depth` deep, and which goes the way `path` and
// deeper by `descent`.
pub fn clearance(
    bit: &Bit,
    from_corner: FineWay,
    path: FineWay,
    depth: i64,
    descent: i64,
) -> Clearance
    requires depth { IsFineWay depth }
    requires descent { IsFineWay descent }
    ensures { with_half result.a result.half result.c ≡ margin_of bit.now from_corner.x from_corner.y path.x path.y depth descent }
{
    Clearance {
        a: excess(bit, path.dot(path), depths(descent, descent)),
        half: excess(bit, from_corner.dot(path), depths(depth, descent)),
        c: excess(bit, from_corner.dot(from_corner), depths(depth, depth)),
    }
}
