// The points of an element of a glyph.
ghost use Rattle.std.specs.Prelude.{◌≡◌, IfOk, true};
ghost use Rattle.plane_exact.specs.Cone.{IsFromOneTo};
ghost use Rattle.cxf_font.specs.Elements.{is_angle, is_element, is_length, is_radius};
ghost use Rattle.cxf_font.specs.Placing.{arc_between, points_of};

use crate::element::Element;
use arc_flatten::{Fine, MOST_CHORD, arc, span_between, turn};
use std::alloc::{AllocError, Global};

/// The points of an element, in millionths of a font unit, with pieces of an arc no wider than `chord` degrees.
#[tactic(auto, unfolding(crate::specs::Placing::points_of))]
pub(crate) fn points(alloc: Global, chord: u32, element: Element) -> Result<Vec<Fine>, AllocError>
    requires chord { IsFromOneTo MOST_CHORD chord }
    requires element { is_element element ≡ true }
    ensures { IfOk result (λ points. points.items ≡ points_of chord element) }
{
    match element {
        Element::Line { x1, y1, x2, y2 } => {
            Ok(Vec::from_array(alloc, [Fine { x: x1, y: y1 }, Fine { x: x2, y: y2 }])?)
        }
        Element::Arc {
            cx,
            cy,
            r,
            a1,
            a2,
            clockwise: false,
        } => counterclockwise(alloc, Fine { x: cx, y: cy }, r, a1, a2, chord),
        Element::Arc {
            cx,
            cy,
            r,
            a1,
            a2,
            clockwise: true,
        } => {
            let mut points = counterclockwise(alloc, Fine { x: cx, y: cy }, r, a2, a1, chord)?;
            points.reverse();
            Ok(points)
        }
    }
}

// The points of the arc that goes counterclockwise from one angle to another.
fn counterclockwise(
    alloc: Global,
    c: Fine,
    r: i64,
    from: i64,
    to: i64,
    chord: u32,
) -> Result<Vec<Fine>, AllocError>
    requires across { is_length c.x ≡ true }
    requires up { is_length c.y ≡ true }
    requires radius { is_radius r ≡ true }
    requires from { is_angle from ≡ true }
    requires to { is_angle to ≡ true }
    requires chord { IsFromOneTo MOST_CHORD chord }
    ensures { IfOk result (λ points. points.items ≡ arc_between c r from to chord) }
{
    let first = turn(from);
    arc(alloc, c, r, first, span_between(first, turn(to)), chord)
}
