// Points of an arc between two ends that is given by its bulge.
ghost use Rattle.std.specs.Prelude.{◌≡◌, ◌≤◌, ◌++◌, pos, IfOk, OnOk, vec_len};
ghost use Rattle.integer_algebra.specs.Ranges.{IsUpTo};
ghost use Rattle.plane_exact.specs.Cone.{IsFromOneTo};
ghost use Rattle.arc_flatten.specs.Bulges.{apex_of, bulge_points, half_bulge_of, half_size_of, is_flat, middle_of};
ghost use Rattle.arc_flatten.specs.Halves.{StaysFine, halved_bulges, points_along};
ghost use Rattle.arc_flatten.specs.Points.{AreFine, IsFine, IsPointUpTo};

use crate::angle::QUARTER;
use crate::circle::MOST_CHORD;
use crate::fine::Fine;
use crate::heading::{ONE, ONE_SQUARED};
use crate::quarter::direction;
use crate::wide::times;
use grid_num::isqrt;
use std::alloc::{AllocError, Global};

/// The greatest size of a number of an end.
pub const MOST_END: u64 = 100_000_000;

/// The greatest size of a bulge, 10,000, in 2^30ths.
pub const MOST_BULGE: u64 = 10_737_418_240_000;

/// How many times an arc is halved at most.
const MOST_HALVINGS: u32 = 10;

/// The points of the arc from `p` to `q` whose bulge is `b` 2^30ths: its ends, and the middles of its halves and their halves, until
/// they are no wider than `chord` degrees, from 1 to 90, or it is halved ten times. A bulge above 0 is to the right of the way from
/// `p` to `q`, so that the arc goes counterclockwise.
///
/// The numbers of `p` and `q` are at most 100,000,000 in size, and the bulge at most 10,000. The error is running out of memory.
pub fn bulge(alloc: Global, p: Fine, q: Fine, b: i64, chord: u32) -> Result<Vec<Fine>, AllocError>
    requires first { IsPointUpTo MOST_END p }
    requires last { IsPointUpTo MOST_END q }
    requires bulge { IsUpTo (pos MOST_BULGE) b }
    requires chord { IsFromOneTo MOST_CHORD chord }
    ensures { IfOk result (λ points. points.items ≡ bulge_points p q b chord) }
{
    let bulges = bulges_to_halve(alloc, b, direction(chord * QUARTER / 360))?;
    let mut points = Vec::with_capacity(alloc, (1 << bulges.len()) + 1)?;
    points.push(p)?;
    push_points_to(&bulges, p, q, &mut points)?;
    Ok(points)
}

// The bulges of the arcs that are halved: of the whole arc, of its halves, of their halves and so on, until they are flat. They are
// made once for all arcs of one size, since each takes a root.
fn bulges_to_halve(alloc: Global, b: i64, way: (i64, i64)) -> Result<Vec<i64>, AllocError>
    requires bulge { IsUpTo (pos MOST_BULGE) b }
    requires across { IsUpTo (pos ONE) way.0 }
    requires up { IsUpTo (pos ONE) way.1 }
    ensures bulges { IfOk result (λ bulges. bulges.items ≡ halved_bulges MOST_HALVINGS way b) }
    ensures few { IfOk result (λ bulges. vec_len bulges ≤ MOST_HALVINGS) }
{
    let mut bulges = Vec::new(alloc);
    let mut half = b;
    for _ in 0..MOST_HALVINGS {
        if is_flat_along(half, way) {
            return Ok(bulges);
        }
        bulges.push(half)?;
        half = half_bulge(half);
    }
    Ok(bulges)
}

// Whether an arc of the bulge is flat: no wider than the chord whose direction this is.
fn is_flat_along(b: i64, way: (i64, i64)) -> bool
    requires bulge { IsUpTo (pos MOST_BULGE) b }
    requires across { IsUpTo (pos ONE) way.0 }
    requires up { IsUpTo (pos ONE) way.1 }
    ensures { result ≡ is_flat way b }
{
    times(b.unsigned_abs() as i128, way.0 as i128)
        <= (1 << 30) * way.1 as i128 + 1024 * way.0 as i128
}

// The bulge of half the arc.
fn half_bulge(b: i64) -> i64
    requires { IsUpTo (pos MOST_BULGE) b }
    ensures value { result ≡ half_bulge_of b }
    ensures small { IsUpTo (pos MOST_BULGE) result }
{
    let size = half_size(b.unsigned_abs()) as i64;
    if b < 0 { -size } else { size }
}

// The same for a bulge that isn't negative.
fn half_size(b: u64) -> u64
    requires { b ≤ MOST_BULGE }
    ensures value { result ≡ half_size_of b }
    ensures small { result ≤ MOST_BULGE }
{
    let root = isqrt(ONE_SQUARED + b as u128 * b as u128);
    (b as u128 * ONE as u128 / (ONE as u128 + root as u128)) as u64
}

// Appends the points behind `p` up to `q`, of an arc of the first of the bulges, whose halves have the next.
fn push_points_to(
    bulges: &[i64],
    p: Fine,
    q: Fine,
    points: &mut Vec<Fine>,
) -> Result<(), AllocError>
    requires { StaysFine bulges.now p q }
    ensures { OnOk result (points.new.items ≡ points.old.items ++ points_along bulges.now p q) }
{
    match bulges {
        [] => points.push(q)?,
        [b, halves @ ..] => {
            let apex = apex(p, q, *b);
            push_points_to(halves, p, apex, points)?;
            push_points_to(halves, apex, q, points)?;
        }
    }
    Ok(())
}

// The middle of the arc.
fn apex(p: Fine, q: Fine, b: i64) -> Fine
    requires { AreFine (apex_of p q b).x (apex_of p q b).y }
    ensures { result ≡ apex_of p q b }
{
    Fine {
        x: middle(p.x, q.x, p.y, q.y, b),
        y: middle(p.y, q.y, q.x, p.x, b),
    }
}

// Halfway between `u` and `v`, moved by half of the bulge times the difference of `from` and `to`.
fn middle(u: i64, v: i64, from: i64, to: i64, b: i64) -> i64
    requires u { IsFine u }
    requires v { IsFine v }
    requires from { IsFine from }
    requires to { IsFine to }
    requires on { IsFine (middle_of u v from to b) }
    ensures { result ≡ middle_of u v from to b }
{
    let sum = u as i128 + v as i128;
    let moved = times(b as i128, to as i128 - from as i128);
    ((1 << 30) * sum + moved).div_euclid(1 << 31) as i64
}
