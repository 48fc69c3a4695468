// Boxes round a disc and round a part of a move, in grid units: an edge whose box misses one needs no test.
ghost use Rattle.std.specs.Prelude.{◌≡◌, ◌*◌, ◌<◌, ◌≤◌, ◌*ℤ◌, false, pos};
ghost use Rattle.integer_algebra.specs.Ranges.{IsUpTo};
ghost use Rattle.plane_exact.specs.Heights.{IsFineCoordinate};
ghost use Rattle.plane_exact.specs.Moves.{IsDeep, IsTooDeep};
ghost use Rattle.plane_exact.specs.declared.point.Seg.{Seg};
ghost use Rattle.engrave_model.specs.Depth.{IsEdgeClear};
ghost use Rattle.lane_kernels.specs.Boxes.{is_met};
ghost use Rattle.segment_grid.specs.Near.{box_of};
ghost use Rattle.depth_rule.specs.Around.{IsAround, place_of};
ghost use Rattle.depth_rule.specs.Parts.{RemovesNoneBetween};

use lane_kernels::Rect;
use plane_exact::{Bit, MOST_DEPTH, MOST_RADIUS, Move, Point};
use swept_move::reach_of;

/// A box round the disc that the bit cuts over `p` at the depth `z`, at most 32,767 grid units, however wide the bit is there.
pub fn disc_box(p: Point, bit: &Bit, z: u32) -> Rect
    requires { z ≤ MOST_DEPTH }
    ensures { (e : Seg) → is_met result (box_of e) ≡ false → IsEdgeClear bit.now p z e }
{
    let radius = (bit.sn() * z).div_ceil(bit.sd()) as i32;
    Rect {
        x0: p.x() - radius,
        y0: p.y() - radius,
        x1: p.x() + radius,
        y1: p.y() + radius,
    }
}

/// Into how many equal parts the way of a long move is cut.
pub const PARTS: u32 = 64;

/// A box round all that a move may cut at the surface from the moment `first / 64` of its way to the moment `last / 64`.
pub fn box_between(mv: &Move, bit: &Bit, first: u32, last: u32) -> Rect
    requires narrow { ¬ IsTooDeep bit.now mv.now }
    requires order { first < last }
    requires whole { last ≤ PARTS }
    ensures spared { (e : Seg) → is_met result (box_of e) ≡ false → RemovesNoneBetween bit.now mv.now first last e }
    ensures steep { IsDeep mv.now → 1 ≤ bit.now.sn }
{
    let reach = PARTS * reach_of(mv, bit);
    let across = span_around(
        place_of(mv.from.across(), mv.to.across(), first),
        place_of(mv.from.across(), mv.to.across(), last),
        reach,
    );
    let up = span_around(
        place_of(mv.from.up(), mv.to.up(), first),
        place_of(mv.from.up(), mv.to.up(), last),
        reach,
    );
    Rect {
        x0: across.low,
        y0: up.low,
        x1: across.high,
        y1: up.high,
    }
}

// A coordinate in 640ths of a grid unit, at the moment `k / 64` of a way from one to another that are in tenths.
fn place_of(from: i32, to: i32, k: u32) -> i32
    requires from { IsFineCoordinate from }
    requires to { IsFineCoordinate to }
    requires k { k ≤ PARTS }
    ensures value { result ≡ place_of from to (pos k) }
    ensures range { IsUpTo (pos 41943040) result }
{
    times(PARTS - k, from) + times(k, to)
}

// So many times a coordinate in tenths.
fn times(k: u32, z: i32) -> i32
    requires k { k ≤ PARTS }
    requires z { IsFineCoordinate z }
    ensures value { result ≡ pos k *ℤ z }
    ensures range { IsUpTo (pos 20971520) result }
{
    k as i32 * z
}

// A range of an axis, in grid units.
#[derive(Clone, Copy)]
struct Span {
    low: i32,
    high: i32,
}

// From `reach` below the lesser of two coordinates to `reach` above the greater, all in 640ths, rounded outwards to grid units.
fn span_around(from: i32, to: i32, reach: u32) -> Span
    requires from { IsUpTo (pos 41943040) from }
    requires to { IsUpTo (pos 41943040) to }
    requires reach { reach ≤ 640 * MOST_RADIUS }
    ensures { IsAround from to (pos reach) result.low result.high }
{
    let reach = reach as i32;
    Span {
        low: (from.min(to) - reach).div_euclid(640),
        high: (from.max(to) + reach + 639).div_euclid(640),
    }
}
