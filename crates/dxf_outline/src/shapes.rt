// Judges the entities that draw, and appends their segments.
ghost use Rattle.std.specs.Prelude.{◌≡◌, ◌≢◌, ◌<◌, IfErr, IfOk, List, OnOk, Option, Ok, Err, option_and_then, option_map};
ghost use Rattle.grid_num.specs.Judging.{and_then};
ghost use Rattle.plane_exact.specs.Cone.{IsFromOneTo};
ghost use Rattle.arc_flatten.specs.Points.{FinePoint};
ghost use Rattle.arc_flatten.specs.Segments.{segments_of};
ghost use Rattle.dxf_outline.specs.Shapes.{and_segs, arc_points_of, in_range, judged, line_points, points_about, shape_points, shape_segs};
ghost use Rattle.dxf_outline.specs.State.{drawn_of};

use crate::fault::{DxfFault, DxfKind};
use crate::numbers::{number_up_to, point_up_to, radius};
use crate::outline::Outline;
use crate::slots::{Shape, Slots};
use arc_flatten::{
    Fine, MOST_ANGLE, MOST_CENTRE, MOST_CHORD, MOST_END, TURN, arc, segments, span_between, turn,
};
use plane_exact::Seg;
use std::alloc::{AllocError, Global};

/// The most segments of an outline.
pub const MOST_SEGMENTS: usize = 131_072;

/// Draws the entity of this kind that begins at this pair and says this.
#[tactic(auto, unfolding(crate::specs::Shapes::shape_segs))]
pub(crate) fn judge(
    alloc: Global,
    chord: u32,
    at: u32,
    shape: Shape,
    slots: &Slots,
    outline: &mut Outline,
) -> Result<(), DxfFault>
    requires { IsFromOneTo MOST_CHORD chord }
    ensures drawn { OnOk result (and_then (shape_segs shape chord at slots.now) (and_segs at (drawn_of outline.old)) ≡ Ok (drawn_of outline.new)) }
    ensures fault { IfErr result (λ f. f.kind ≢ DxfKind.Memory → and_then (shape_segs shape chord at slots.now) (and_segs at (drawn_of outline.old)) ≡ Err f) }
    ensures memory { IfErr result (λ f. f.kind ≡ DxfKind.Memory → f.pair ≡ 0) }
{
    judge_slots(at, shape, slots)?;
    match shape_points(alloc, chord, shape, slots)? {
        Some(points) => draw_points(alloc, at, &points, outline),
        None => Err(DxfFault::at(at, DxfKind::OutOfRange)),
    }
}

// The points of an entity that is drawn by itself, where its numbers are in range.
#[tactic(auto, unfolding(crate::specs::Shapes::shape_points))]
fn shape_points(
    alloc: Global,
    chord: u32,
    shape: Shape,
    slots: &Slots,
) -> Result<Option<Vec<Fine>>, AllocError>
    requires { IsFromOneTo MOST_CHORD chord }
    ensures { IfOk result (λ points. option_map (λ points. points.items) points ≡ shape_points shape chord slots.now) }
{
    match shape {
        Shape::Line => line_points(alloc, slots),
        Shape::Circle => points_about(alloc, slots, 0, TURN, chord),
        Shape::Arc => arc_points(alloc, chord, slots),
        Shape::Polyline | Shape::Vertex => Ok(None),
    }
}

// Whether each value of an entity can be read, and none is missing.
fn judge_slots(at: u32, shape: Shape, slots: &Slots) -> Result<(), DxfFault>
    ensures ok { OnOk result ((points : Option (List FinePoint)) → judged at shape slots.now points ≡ in_range at (option_and_then segments_of points)) }
    ensures fault { IfErr result (λ f. (points : Option (List FinePoint)) → judged at shape slots.now points ≡ Err f) }
    ensures memory { IfErr result (λ f. f.kind ≡ DxfKind.Memory → f.pair ≡ 0) }
{
    if let Some(pair) = slots.unreadable {
        return Err(DxfFault::at(pair, DxfKind::Number));
    }
    match slots.least_missing(shape) {
        Some(code) => Err(DxfFault::at(at, DxfKind::Missing(code))),
        None => Ok(()),
    }
}

#[tactic(auto, unfolding(crate::specs::Shapes::line_points))]
fn line_points(alloc: Global, slots: &Slots) -> Result<Option<Vec<Fine>>, AllocError>
    ensures { IfOk result (λ points. option_map (λ points. points.items) points ≡ line_points slots.now) }
{
    let Some(from) = point_up_to(MOST_END, slots.x, slots.y) else {
        return Ok(None);
    };
    let Some(to) = point_up_to(MOST_END, slots.end_x, slots.end_y) else {
        return Ok(None);
    };
    Ok(Some(vec![in alloc; from, to]?))
}

#[tactic(auto, unfolding(crate::specs::Shapes::arc_points_of))]
fn arc_points(alloc: Global, chord: u32, slots: &Slots) -> Result<Option<Vec<Fine>>, AllocError>
    requires { IsFromOneTo MOST_CHORD chord }
    ensures { IfOk result (λ points. option_map (λ points. points.items) points ≡ arc_points_of chord slots.now) }
{
    let Some(from) = number_up_to(MOST_ANGLE, slots.from) else {
        return Ok(None);
    };
    let Some(to) = number_up_to(MOST_ANGLE, slots.to) else {
        return Ok(None);
    };
    let span = span_between(turn(from), turn(to));
    points_about(alloc, slots, turn(from), span, chord)
}

// The points of the arc about the centre with the radius.
fn points_about(
    alloc: Global,
    slots: &Slots,
    from: u32,
    span: u32,
    chord: u32,
) -> Result<Option<Vec<Fine>>, AllocError>
    requires span { IsFromOneTo TURN span }
    requires chord { IsFromOneTo MOST_CHORD chord }
    ensures { IfOk result (λ points. option_map (λ points. points.items) points ≡ points_about slots.now from span chord) }
{
    let Some(centre) = point_up_to(MOST_CENTRE, slots.x, slots.y) else {
        return Ok(None);
    };
    let Some(radius) = radius(slots.radius) else {
        return Ok(None);
    };
    Ok(Some(arc(alloc, centre, radius, from, span, chord)?))
}

// Draws the segments of points that an entity has which begins at this pair.
fn draw_points(
    alloc: Global,
    at: u32,
    points: &[Fine],
    outline: &mut Outline,
) -> Result<(), DxfFault>
    ensures drawn { OnOk result (and_then (in_range at (segments_of points.now)) (and_segs at (drawn_of outline.old)) ≡ Ok (drawn_of outline.new)) }
    ensures fault { IfErr result (λ f. f.kind ≢ DxfKind.Memory → and_then (in_range at (segments_of points.now)) (and_segs at (drawn_of outline.old)) ≡ Err f) }
    ensures memory { IfErr result (λ f. f.kind ≡ DxfKind.Memory → f.pair ≡ 0) }
{
    match segments(alloc, points)? {
        Some(segs) => append(at, &segs, outline),
        None => Err(DxfFault::at(at, DxfKind::OutOfRange)),
    }
}

/// Appends the segments of an entity that begins at this pair.
#[tactic(auto, unfolding(crate::specs::Shapes::and_segs))]
pub(crate) fn append(at: u32, segs: &[Seg], outline: &mut Outline) -> Result<(), DxfFault>
    ensures drawn { OnOk result (and_segs at (drawn_of outline.old) segs.now ≡ Ok (drawn_of outline.new)) }
    ensures fault { IfErr result (λ f. f.kind ≢ DxfKind.Memory → and_segs at (drawn_of outline.old) segs.now ≡ Err f) }
    ensures memory { IfErr result (λ f. f.kind ≡ DxfKind.Memory → f.pair ≡ 0) }
{
    if outline.segs.len() + segs.len() > MOST_SEGMENTS {
        return Err(DxfFault::at(at, DxfKind::TooMany));
    }
    outline.segs.extend_from_slice(segs)?;
    Ok(())
}
