// Walks over the pairs of a DXF file from one pair of code 0 to the next.
ghost use Rattle.std.specs.Prelude.{◌≡◌, ◌≢◌, ◌≤◌, IfErr, IfOk, OnOk, Ok, Err};
ghost use Rattle.grid_num.specs.Units.{per_unit_of};
ghost use Rattle.dxf_outline.specs.Outline.{begun, drawn_from, finished, followed, headed, left_outside};
ghost use Rattle.dxf_outline.specs.Pairs.{count_of};
ghost use Rattle.dxf_outline.specs.State.{LeadsOn, drawn_of, pairs_left, place_of, state_of, trail_at};

use crate::ahead::Pairs;
use crate::corners::{Polyline, judge_vertex};
use crate::entities::enter;
use crate::fault::{DxfFault, DxfKind};
use crate::names::{Name, name_of};
use crate::outline::Outline;
use crate::pairs::Head;
use crate::place::Place;
use crate::polyline::judge_polyline;
use crate::resolution::Resolution;
use crate::slots::Shape;
use std::alloc::Global;

/// The outline of the pairs that are left, from the begin of a file on.
pub(crate) fn walk(
    alloc: Global,
    resolution: Resolution,
    pairs: &mut Pairs<'_>,
) -> Result<Outline, DxfFault>
    ensures outline { IfOk result (λ outline. drawn_from (per_unit_of resolution.units) resolution.chord begun (pairs_left pairs.old) ≡ Ok (drawn_of outline)) }
    ensures fault { IfErr result (λ f. f.kind ≢ DxfKind.Memory → drawn_from (per_unit_of resolution.units) resolution.chord begun (pairs_left pairs.old) ≡ Err f) }
    ensures memory { IfErr result (λ f. f.kind ≡ DxfKind.Memory → f.pair ≡ 0) }
{
    let mut outline = Outline {
        segs: Vec::new(alloc),
        skipped: 0,
    };
    let mut place = Place::Outside;
    'pairs: loop {
        match pairs.next() {
            Head::Over => return finish(place, outline),
            Head::BadCode(pair) => return Err(DxfFault::at(pair, DxfKind::BadCode)),
            Head::Unended(pair) => return Err(DxfFault::at(pair, DxfKind::Unended)),
            Head::Next(entry) => {
                if entry.has_code(0) {
                    let name = name_of(entry.value);
                    place = step(
                        alloc,
                        resolution,
                        place,
                        entry.at,
                        name,
                        pairs,
                        &mut outline,
                    )?;
                }
            }
        }
    }
}

// The outline at the pair that ends the file.
#[tactic(auto, unfolding(crate::specs::Outline::finished))]
fn finish(place: Place, outline: Outline) -> Result<Outline, DxfFault>
    ensures outline { IfOk result (λ whole. finished (state_of place outline) ≡ Ok (drawn_of whole)) }
    ensures fault { IfErr result (λ f. f.kind ≢ DxfKind.Memory → finished (state_of place outline) ≡ Err f) }
    ensures memory { IfErr result (λ f. f.kind ≡ DxfKind.Memory → f.pair ≡ 0) }
{
    match place {
        Place::Outside | Place::Inside => Ok(outline),
        Place::Along(polyline) => Err(DxfFault::at(polyline.at, DxfKind::Unended)),
    }
}

// Takes what a pair of code 0 with its number and its name begins, at this place, and says where the next one stands.
#[tactic(auto, unfolding(crate::specs::Outline::headed))]
fn step(
    alloc: Global,
    resolution: Resolution,
    place: Place,
    at: u32,
    name: Name,
    pairs: &mut Pairs<'_>,
    outline: &mut Outline,
) -> Result<Place, DxfFault>
    ensures goes { IfOk result (λ next. headed (per_unit_of resolution.units) resolution.chord (state_of place outline.old) at name (pairs_left pairs.old) ≡ Ok (state_of next outline.new)) }
    ensures fault { IfErr result (λ f. f.kind ≢ DxfKind.Memory → headed (per_unit_of resolution.units) resolution.chord (state_of place outline.old) at name (pairs_left pairs.old) ≡ Err f) }
    ensures memory { IfErr result (λ f. f.kind ≡ DxfKind.Memory → f.pair ≡ 0) }
    ensures fewer { count_of (pairs_left pairs.new) ≤ count_of (pairs_left pairs.old) }
    ensures leads_on { OnOk result (LeadsOn (pairs_left pairs.old) (pairs_left pairs.new)) }
{
    match place {
        Place::Outside => Ok(stay_outside(name, pairs)),
        Place::Inside => enter(alloc, resolution, at, name, pairs, outline),
        Place::Along(polyline) => follow(alloc, resolution, polyline, at, name, pairs, outline),
    }
}

// Where the pair behind one of code 0 stands that isn't in the section of entities.
fn stay_outside(name: Name, pairs: &Pairs<'_>) -> Place
    ensures { place_of result ≡ left_outside name (pairs_left pairs.now) }
{
    match name {
        Name::Section if pairs.begins_entities() => Place::Inside,
        _ => Place::Outside,
    }
}

// Takes one more VERTEX of a POLYLINE, or its SEQEND.
#[tactic(auto, unfolding(crate::specs::Outline::followed))]
fn follow(
    alloc: Global,
    resolution: Resolution,
    polyline: Polyline,
    at: u32,
    name: Name,
    pairs: &mut Pairs<'_>,
    outline: &mut Outline,
) -> Result<Place, DxfFault>
    ensures goes { IfOk result (λ next. followed (per_unit_of resolution.units) resolution.chord (trail_at polyline) (drawn_of outline.old) at name (pairs_left pairs.old) ≡ Ok (state_of next outline.new)) }
    ensures fault { IfErr result (λ f. f.kind ≢ DxfKind.Memory → followed (per_unit_of resolution.units) resolution.chord (trail_at polyline) (drawn_of outline.old) at name (pairs_left pairs.old) ≡ Err f) }
    ensures memory { IfErr result (λ f. f.kind ≡ DxfKind.Memory → f.pair ≡ 0) }
    ensures fewer { count_of (pairs_left pairs.new) ≤ count_of (pairs_left pairs.old) }
    ensures leads_on { OnOk result (LeadsOn (pairs_left pairs.old) (pairs_left pairs.new)) }
{
    match name {
        Name::Vertex => take_vertex(resolution, polyline, at, pairs, outline),
        Name::Seqend => {
            judge_polyline(alloc, resolution.chord, &polyline, outline)?;
            Ok(Place::Inside)
        }
        _ => Err(DxfFault::at(polyline.at, DxfKind::Unended)),
    }
}

// Takes one more VERTEX.
fn take_vertex(
    resolution: Resolution,
    polyline: Polyline,
    at: u32,
    pairs: &mut Pairs<'_>,
    outline: &Outline,
) -> Result<Place, DxfFault>
    ensures goes { IfOk result (λ next. followed (per_unit_of resolution.units) resolution.chord (trail_at polyline) (drawn_of outline.now) at Name.Vertex (pairs_left pairs.old) ≡ Ok (state_of next outline.now)) }
    ensures fault { IfErr result (λ f. f.kind ≢ DxfKind.Memory → followed (per_unit_of resolution.units) resolution.chord (trail_at polyline) (drawn_of outline.now) at Name.Vertex (pairs_left pairs.old) ≡ Err f) }
    ensures memory { IfErr result (λ f. f.kind ≡ DxfKind.Memory → f.pair ≡ 0) }
    ensures fewer { count_of (pairs_left pairs.new) ≤ count_of (pairs_left pairs.old) }
    ensures leads_on { OnOk result (LeadsOn (pairs_left pairs.old) (pairs_left pairs.new)) }
{
    let slots = pairs.take_slots(Shape::Vertex, resolution.units)?;
    let _unchanged = outline;
    let mut polyline = polyline;
    polyline.vertices.push(judge_vertex(at, &slots))?;
    Ok(Place::Along(polyline))
}
