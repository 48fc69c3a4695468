// Where the points of a letter come to stand.
ghost use Rattle.std.specs.Prelude.{◌≡◌, ◌≤◌, ◌*◌, ◌+ℤ◌, ◌-ℤ◌, IfOk, MatchOption, None, map, pos};
ghost use Rattle.integer_algebra.specs.Ranges.{IsUpTo};
ghost use Rattle.arc_flatten.specs.Grid.{grid_of};
ghost use Rattle.arc_flatten.specs.Segments.{segments_of};
ghost use Rattle.cxf_font.specs.Layouts.{IsLayout};
ghost use Rattle.cxf_font.specs.Letters.{spot_of};
ghost use Rattle.cxf_font.specs.Placing.{across, line_step, turned, up};

use crate::layout::Layout;
use crate::letter::{Letter, MOST_CHARACTERS, MOST_REACH};
use arc_flatten::{Fine, MOST_FINE};
use std::alloc::{AllocError, Global};

// The greatest size of a number of a point, in thousandths of a grid unit.
const MOST_SPOT: u64 = 20_000_000_000_000_000;

/// Where the points of a letter's element come to stand on a line that is moved so far to the left, or None where one is so far off
/// that it leaves the grid.
pub(crate) fn settled(
    alloc: Global,
    layout: &Layout,
    letter: Letter,
    shift: u64,
    points: &[Fine],
) -> Result<Option<Vec<Fine>>, AllocError>
    requires layout { IsLayout layout.now }
    requires shift { shift ≤ MOST_REACH }
    ensures { IfOk result (λ found. MatchOption found (segments_of (map (spot_of layout.now letter shift) points.now) ≡ None) (λ spots. spots.items ≡ map (spot_of layout.now letter shift) points.now)) }
{
    let mut spots = Vec::with_capacity(alloc, points.len())?;
    let mut rest = points;
    while let Some((p, others)) = rest.split_first() {
        match spot(layout, letter, shift, *p) {
            Some(spot) => spots.push(spot)?,
            None => return Ok(None),
        }
        rest = others;
    }
    Ok(Some(spots))
}

// Where a point of a letter comes to stand, or None where it leaves the range of such points, and so the grid.
fn spot(layout: &Layout, letter: Letter, shift: u64, p: Fine) -> Option<Fine>
    requires layout { IsLayout layout.now }
    requires shift { shift ≤ MOST_REACH }
    ensures { MatchOption result (grid_of (spot_of layout.now letter shift p) ≡ None) (λ spot. spot ≡ spot_of layout.now letter shift p) }
{
    fine(
        spot_x(layout, letter.pen, shift, p),
        spot_y(layout, letter.line, p),
    )
}

fn spot_x(layout: &Layout, pen: u64, shift: u64, p: Fine) -> i64
    requires layout { IsLayout layout.now }
    requires pen { pen ≤ MOST_REACH }
    requires shift { shift ≤ MOST_REACH }
    ensures { result ≡ turned layout.now.mirror (pos pen +ℤ across layout.now p -ℤ pos shift) }
{
    turned(layout.mirror, pen as i64 + layout.across(p) - shift as i64)
}

fn spot_y(layout: &Layout, line: u32, p: Fine) -> i64
    requires layout { IsLayout layout.now }
    requires line { line ≤ MOST_CHARACTERS }
    ensures { result ≡ turned layout.now.flip (up layout.now p -ℤ pos (line * line_step layout.now)) }
{
    turned(layout.flip, layout.up(p) - layout.way_down(line) as i64)
}

// With the sign changed, or as it is.
fn turned(is_turned: bool, z: i64) -> i64
    requires { IsUpTo (pos MOST_SPOT) z }
    ensures value { result ≡ turned is_turned z }
    ensures range { IsUpTo (pos MOST_SPOT) result }
{
    if is_turned { -z } else { z }
}

// The point, or None where it leaves the range of such points, and so the grid.
fn fine(x: i64, y: i64) -> Option<Fine>
    ensures { MatchOption result (grid_of (record { x = x; y = y }) ≡ None) (λ spot. spot ≡ record { x = x; y = y }) }
{
    if x.unsigned_abs() <= MOST_FINE && y.unsigned_abs() <= MOST_FINE {
        Some(Fine { x, y })
    } else {
        None
    }
}
