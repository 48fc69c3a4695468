// Draws a POLYLINE at its SEQEND.
ghost use Rattle.std.specs.Prelude.{◌≡◌, ◌≢◌, ◌+◌, ◌<◌, ◌∷◌, ◌||◌, if◌then◌else◌, IfErr, IfOk, IfSome, OnOk, length, nat_lt, Ok, Err, filter_map, option_map};
ghost use Rattle.grid_num.specs.Judging.{and_then};
ghost use Rattle.plane_exact.specs.Cone.{IsFromOneTo};
ghost use Rattle.dxf_outline.specs.Polyline.{closed_round, corner_at, first_fault, lacking_of, segs_through, span_segs, too_large_of, trail_drawn, trail_segs, unreadable_of};
ghost use Rattle.dxf_outline.specs.Shapes.{and_segs, in_range, with_segs};
ghost use Rattle.dxf_outline.specs.State.{drawn_of, trail_at};
ghost use Rattle.dxf_outline.specs.Values.{has_flag};

use crate::corners::{Corner, Polyline, Vertex};
use crate::fault::{DxfFault, DxfKind};
use crate::outline::Outline;
use crate::shapes::{MOST_SEGMENTS, append};
use arc_flatten::{MOST_CHORD, bulge, segments};
use plane_exact::Seg;
use std::alloc::{AllocError, Global};

/// Draws or skips a POLYLINE at its SEQEND.
#[tactic(auto, unfolding(crate::specs::Polyline::trail_drawn))]
pub(crate) fn judge_polyline(
    alloc: Global,
    chord: u32,
    polyline: &Polyline,
    outline: &mut Outline,
) -> Result<(), DxfFault>
    requires { IsFromOneTo MOST_CHORD chord }
    ensures drawn { OnOk result (trail_drawn chord (trail_at polyline.now) (drawn_of outline.old) ≡ Ok (drawn_of outline.new)) }
    ensures fault { IfErr result (λ f. f.kind ≢ DxfKind.Memory → trail_drawn chord (trail_at polyline.now) (drawn_of outline.old) ≡ Err f) }
    ensures memory { IfErr result (λ f. f.kind ≡ DxfKind.Memory → f.pair ≡ 0) }
{
    if let Some(pair) = polyline.unreadable {
        return Err(DxfFault::at(pair, DxfKind::Number));
    }
    if has_flag(16, polyline.flags) || has_flag(64, polyline.flags) {
        return outline.skip();
    }
    draw_trail(alloc, chord, polyline, outline)
}

fn has_flag(flag: u64, flags: u64) -> bool
    requires { 0 < flag }
    ensures { result ≡ has_flag flag flags }
{
    flags / flag % 2 == 1
}

// Draws a POLYLINE that is no mesh.
#[tactic(auto, unfolding(crate::specs::Polyline::trail_segs))]
fn draw_trail(
    alloc: Global,
    chord: u32,
    polyline: &Polyline,
    outline: &mut Outline,
) -> Result<(), DxfFault>
    requires { IsFromOneTo MOST_CHORD chord }
    ensures drawn { OnOk result (and_then (trail_segs chord (trail_at polyline.now)) (and_segs polyline.now.at (drawn_of outline.old)) ≡ Ok (drawn_of outline.new)) }
    ensures fault { IfErr result (λ f. f.kind ≢ DxfKind.Memory → and_then (trail_segs chord (trail_at polyline.now)) (and_segs polyline.now.at (drawn_of outline.old)) ≡ Err f) }
    ensures memory { IfErr result (λ f. f.kind ≡ DxfKind.Memory → f.pair ≡ 0) }
{
    if let Some(fault) = first_unreadable(&polyline.vertices) {
        return Err(fault);
    }
    if let Some(fault) = first_lacking(&polyline.vertices) {
        return Err(fault);
    }
    if let Some(fault) = first_too_large(polyline.at, &polyline.vertices) {
        return Err(fault);
    }
    let corners = corners(alloc, &polyline.vertices, has_flag(1, polyline.flags))?;
    draw_through(alloc, chord, polyline.at, &corners, outline)
}

// The first value that can't be read.
fn first_unreadable(vertices: &[Vertex]) -> Option<DxfFault>
    ensures value { result ≡ first_fault unreadable_of vertices.now }
    ensures kind { IfSome result (λ f. f.kind ≢ DxfKind.Memory) }
{
    let mut rest = vertices;
    while let Some((vertex, others)) = rest.split_first() {
        if let Vertex::Unreadable(pair) = *vertex {
            return Some(DxfFault::at(pair, DxfKind::Number));
        }
        rest = others;
    }
    None
}

// The first vertex that lacks a code.
fn first_lacking(vertices: &[Vertex]) -> Option<DxfFault>
    ensures value { result ≡ first_fault lacking_of vertices.now }
    ensures kind { IfSome result (λ f. f.kind ≢ DxfKind.Memory) }
{
    let mut rest = vertices;
    while let Some((vertex, others)) = rest.split_first() {
        if let Vertex::Lacking(pair, code) = *vertex {
            return Some(DxfFault::at(pair, DxfKind::Missing(code)));
        }
        rest = others;
    }
    None
}

// A number that is out of range, of the POLYLINE that begins at this pair.
fn first_too_large(at: u32, vertices: &[Vertex]) -> Option<DxfFault>
    ensures value { result ≡ first_fault (too_large_of at) vertices.now }
    ensures kind { IfSome result (λ f. f.kind ≢ DxfKind.Memory) }
{
    let mut rest = vertices;
    while let Some((vertex, others)) = rest.split_first() {
        if let Vertex::TooLarge = *vertex {
            return Some(DxfFault::at(at, DxfKind::OutOfRange));
        }
        rest = others;
    }
    None
}

// The corners at the vertices, and where the POLYLINE is closed and has two or more, the first again.
fn corners(alloc: Global, vertices: &[Vertex], is_closed: bool) -> Result<Vec<Corner>, AllocError>
    ensures { IfOk result (λ corners. corners.items ≡ closed_round is_closed (filter_map corner_at vertices.now)) }
{
    let mut corners = open_corners(alloc, vertices)?;
    if is_closed && corners.len() >= 2 {
        let first = corners[0];
        corners.push(first)?;
    }
    Ok(corners)
}

fn open_corners(alloc: Global, vertices: &[Vertex]) -> Result<Vec<Corner>, AllocError>
    ensures { IfOk result (λ corners. corners.items ≡ filter_map corner_at vertices.now) }
{
    let mut corners = Vec::new(alloc);
    let mut rest = vertices;
    while let Some((vertex, others)) = rest.split_first() {
        if let Vertex::Corner(corner) = *vertex {
            corners.push(corner)?;
        }
        rest = others;
    }
    Ok(corners)
}

// Draws the segments along the corners of the POLYLINE that begins at this pair. Where they are too many, the points that follow are
// judged still: one that leaves the grid is the fault then.
#[tactic(auto, unfolding(crate::specs::Polyline::segs_through))]
fn draw_through(
    alloc: Global,
    chord: u32,
    at: u32,
    corners: &[Corner],
    outline: &mut Outline,
) -> Result<(), DxfFault>
    requires { IsFromOneTo MOST_CHORD chord }
    ensures drawn { OnOk result (and_then (in_range at (segs_through chord corners.now)) (and_segs at (drawn_of outline.old)) ≡ Ok (drawn_of outline.new)) }
    ensures fault { IfErr result (λ f. f.kind ≢ DxfKind.Memory → and_then (in_range at (segs_through chord corners.now)) (and_segs at (drawn_of outline.old)) ≡ Err f) }
    ensures memory { IfErr result (λ f. f.kind ≡ DxfKind.Memory → f.pair ≡ 0) }
{
    match corners.split_first() {
        Some((first, others)) => draw_from(alloc, chord, at, *first, others, outline),
        None => append(at, &[], outline),
    }
}

fn draw_from(
    alloc: Global,
    chord: u32,
    at: u32,
    first: Corner,
    others: &[Corner],
    outline: &mut Outline,
) -> Result<(), DxfFault>
    requires { IsFromOneTo MOST_CHORD chord }
    ensures drawn { OnOk result (and_then (in_range at (segs_through chord (first ∷ others.now))) (and_segs at (drawn_of outline.old)) ≡ Ok (drawn_of outline.new)) }
    ensures fault { IfErr result (λ f. f.kind ≢ DxfKind.Memory → and_then (in_range at (segs_through chord (first ∷ others.now))) (and_segs at (drawn_of outline.old)) ≡ Err f) }
    ensures memory { IfErr result (λ f. f.kind ≡ DxfKind.Memory → f.pair ≡ 0) }
{
    let mut is_full = false;
    let mut before = first;
    let mut rest = others;
    while let Some((corner, later)) = rest.split_first() {
        let Some(segs) = span_segs(alloc, chord, before, *corner)? else {
            return Err(DxfFault::at(at, DxfKind::OutOfRange));
        };
        is_full = take(&segs, is_full, outline)?;
        before = *corner;
        rest = later;
    }
    if is_over(is_full, outline) {
        return Err(DxfFault::at(at, DxfKind::TooMany));
    }
    Ok(())
}

// Whether segments were left out, or there are too many.
fn is_over(is_full: bool, outline: &Outline) -> bool
    ensures { result ≡ (is_full || nat_lt MOST_SEGMENTS (length outline.now.segs.items)) }
{
    is_full || outline.segs.len() > MOST_SEGMENTS
}

// Appends the segments if the outline isn't full and doesn't become so, and says whether it is.
fn take(segs: &[Seg], is_full: bool, outline: &mut Outline) -> Result<bool, AllocError>
    ensures full { IfOk result (λ full. full ≡ (is_full || nat_lt MOST_SEGMENTS (length outline.old.segs.items + length segs.now))) }
    ensures taken { IfOk result (λ full. drawn_of outline.new ≡ (if full then drawn_of outline.old else with_segs (drawn_of outline.old) segs.now)) }
{
    if is_full || outline.segs.len() + segs.len() > MOST_SEGMENTS {
        return Ok(true);
    }
    outline.segs.extend_from_slice(segs)?;
    Ok(false)
}

// The segments from one corner to the next. Most ways are straight, and want no arc.
fn span_segs(
    alloc: Global,
    chord: u32,
    from: Corner,
    to: Corner,
) -> Result<Option<Vec<Seg>>, AllocError>
    requires { IsFromOneTo MOST_CHORD chord }
    ensures { IfOk result (λ segs. option_map (λ segs. segs.items) segs ≡ span_segs chord from to) }
{
    if from.bulge == 0 {
        return segments(alloc, &[from.place, to.place]);
    }
    segments(
        alloc,
        &bulge(alloc, from.place, to.place, from.bulge, chord)?,
    )
}
