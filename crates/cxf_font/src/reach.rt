// How far the points of a glyph reach.
ghost use Rattle.std.specs.Prelude.{◌≡◌, ◌≤◌, ◌+◌, ◌+ℤ◌, IfOk, flat_map, pos, true};
ghost use Rattle.std.specs.List.{list_all};
ghost use Rattle.integer_algebra.specs.Ranges.{IsUpTo};
ghost use Rattle.plane_exact.specs.Cone.{IsFromOneTo};
ghost use Rattle.cxf_font.specs.Elements.{is_element};
ghost use Rattle.cxf_font.specs.Layouts.{IsLayout};
ghost use Rattle.cxf_font.specs.Placing.{above_zero, farthest, points_of};

use crate::element::Element;
use crate::layout::{Layout, MOST_ACROSS};
use crate::strokes::points;
use arc_flatten::{Fine, MOST_CHORD};
use std::alloc::{AllocError, Global};

/// The greatest pen of a letter, in thousandths of a grid unit.
pub(crate) const MOST_PEN: u64 = 8_040_000_000_000_000;

/// The greatest x of points, from where a glyph begins and from the pen on; 0 where they are less.
#[derive(Clone, Copy)]
pub(crate) struct Reach {
    pub(crate) ahead: u64,
    pub(crate) right: u64,
}

/// How far the elements of a glyph reach.
#[tactic(auto, unfolding(crate::specs::Placing::farthest))]
pub(crate) fn glyph_reach(
    alloc: Global,
    layout: &Layout,
    chord: u32,
    pen: u64,
    elements: &[Element],
) -> Result<Reach, AllocError>
    requires layout { IsLayout layout.now }
    requires chord { IsFromOneTo MOST_CHORD chord }
    requires pen { pen ≤ MOST_PEN }
    requires elements { list_all is_element elements.now ≡ true }
    ensures ahead { IfOk result (λ reach. reach.ahead ≡ farthest layout.now 0 0 (flat_map (points_of chord) elements.now)) }
    ensures right { IfOk result (λ reach. reach.right ≡ farthest layout.now pen 0 (flat_map (points_of chord) elements.now)) }
    ensures near { IfOk result (λ reach. reach.ahead ≤ MOST_ACROSS) }
    ensures within { IfOk result (λ reach. reach.right ≤ pen + MOST_ACROSS) }
{
    let mut reach = Reach { ahead: 0, right: 0 };
    let mut rest = elements;
    while let Some((element, behind)) = rest.split_first() {
        let points = points(alloc, chord, *element)?;
        reach = points_reach(layout, pen, reach, &points);
        rest = behind;
    }
    Ok(reach)
}

// How far these points reach, or what reached so far.
#[tactic(auto, unfolding(crate::specs::Placing::farthest))]
fn points_reach(layout: &Layout, pen: u64, so_far: Reach, points: &[Fine]) -> Reach
    requires layout { IsLayout layout.now }
    requires pen { pen ≤ MOST_PEN }
    requires near { so_far.ahead ≤ MOST_ACROSS }
    requires within { so_far.right ≤ pen + MOST_ACROSS }
    ensures ahead { result.ahead ≡ farthest layout.now 0 so_far.ahead points.now }
    ensures right { result.right ≡ farthest layout.now pen so_far.right points.now }
    ensures near { result.ahead ≤ MOST_ACROSS }
    ensures within { result.right ≤ pen + MOST_ACROSS }
{
    let mut reach = so_far;
    let mut rest = points;
    while let Some((p, others)) = rest.split_first() {
        let x = layout.across(*p);
        reach = Reach {
            ahead: reach.ahead.max(from_pen(0, x)),
            right: reach.right.max(from_pen(pen, x)),
        };
        rest = others;
    }
    reach
}

// The pen and so much, or 0 where that is negative.
fn from_pen(pen: u64, x: i64) -> u64
    requires pen { pen ≤ MOST_PEN }
    requires x { IsUpTo (pos MOST_ACROSS) x }
    ensures value { result ≡ above_zero (pos pen +ℤ x) }
    ensures within { result ≤ pen + MOST_ACROSS }
{
    (pen as i64 + x).max(0) as u64
}
