// Entities in the section of entities: what is drawn, what begins, and what is skipped.
ghost use Rattle.std.specs.Prelude.{◌≡◌, ◌≢◌, ◌≤◌, IfErr, IfOk, OnOk, Ok, Err};
ghost use Rattle.grid_num.specs.Units.{per_unit_of};
ghost use Rattle.dxf_outline.specs.Outline.{drawn_as, entered};
ghost use Rattle.dxf_outline.specs.Pairs.{count_of};
ghost use Rattle.dxf_outline.specs.State.{LeadsOn, drawn_of, pairs_left, state_of};

use crate::ahead::Pairs;
use crate::corners::Polyline;
use crate::fault::{DxfFault, DxfKind};
use crate::names::Name;
use crate::outline::Outline;
use crate::place::Place;
use crate::resolution::Resolution;
use crate::shapes::judge;
use crate::slots::Shape;
use std::alloc::Global;

/// Takes the entity of this name that begins at the pair with the number `at`, inside the section, and says where the next one
/// stands.
#[tactic(auto, unfolding(crate::specs::Outline::entered))]
pub(crate) fn enter(
    alloc: Global,
    resolution: Resolution,
    at: u32,
    name: Name,
    pairs: &mut Pairs<'_>,
    outline: &mut Outline,
) -> Result<Place, DxfFault>
    ensures goes { IfOk result (λ next. entered (per_unit_of resolution.units) resolution.chord (drawn_of outline.old) at name (pairs_left pairs.old) ≡ Ok (state_of next outline.new)) }
    ensures fault { IfErr result (λ f. f.kind ≢ DxfKind.Memory → entered (per_unit_of resolution.units) resolution.chord (drawn_of outline.old) at name (pairs_left pairs.old) ≡ Err f) }
    ensures memory { IfErr result (λ f. f.kind ≡ DxfKind.Memory → f.pair ≡ 0) }
    ensures fewer { count_of (pairs_left pairs.new) ≤ count_of (pairs_left pairs.old) }
    ensures leads_on { OnOk result (LeadsOn (pairs_left pairs.old) (pairs_left pairs.new)) }
{
    match name {
        Name::Section => Ok(Place::Inside),
        Name::Endsec => Ok(Place::Outside),
        Name::Line => draw(alloc, resolution, at, Shape::Line, pairs, outline),
        Name::Circle => draw(alloc, resolution, at, Shape::Circle, pairs, outline),
        Name::Arc => draw(alloc, resolution, at, Shape::Arc, pairs, outline),
        Name::Polyline => begin_polyline(alloc, resolution, at, pairs, outline),
        Name::Vertex | Name::Seqend | Name::Other => {
            outline.skip()?;
            Ok(Place::Inside)
        }
    }
}

// Draws an entity of this kind.
fn draw(
    alloc: Global,
    resolution: Resolution,
    at: u32,
    shape: Shape,
    pairs: &mut Pairs<'_>,
    outline: &mut Outline,
) -> Result<Place, DxfFault>
    ensures goes { IfOk result (λ next. drawn_as shape (per_unit_of resolution.units) resolution.chord (drawn_of outline.old) at (pairs_left pairs.old) ≡ Ok (state_of next outline.new)) }
    ensures fault { IfErr result (λ f. f.kind ≢ DxfKind.Memory → drawn_as shape (per_unit_of resolution.units) resolution.chord (drawn_of outline.old) at (pairs_left pairs.old) ≡ Err f) }
    ensures memory { IfErr result (λ f. f.kind ≡ DxfKind.Memory → f.pair ≡ 0) }
    ensures fewer { count_of (pairs_left pairs.new) ≤ count_of (pairs_left pairs.old) }
    ensures leads_on { OnOk result (LeadsOn (pairs_left pairs.old) (pairs_left pairs.new)) }
{
    let slots = pairs.take_slots(shape, resolution.units)?;
    judge(alloc, resolution.chord, at, shape, &slots, outline)?;
    Ok(Place::Inside)
}

fn begin_polyline(
    alloc: Global,
    resolution: Resolution,
    at: u32,
    pairs: &mut Pairs<'_>,
    outline: &Outline,
) -> Result<Place, DxfFault>
    ensures goes { IfOk result (λ next. entered (per_unit_of resolution.units) resolution.chord (drawn_of outline.now) at Name.Polyline (pairs_left pairs.old) ≡ Ok (state_of next outline.now)) }
    ensures fault { IfErr result (λ f. f.kind ≢ DxfKind.Memory → entered (per_unit_of resolution.units) resolution.chord (drawn_of outline.now) at Name.Polyline (pairs_left pairs.old) ≡ Err f) }
    ensures memory { IfErr result (λ f. f.kind ≡ DxfKind.Memory → f.pair ≡ 0) }
    ensures fewer { count_of (pairs_left pairs.new) ≤ count_of (pairs_left pairs.old) }
    ensures leads_on { OnOk result (LeadsOn (pairs_left pairs.old) (pairs_left pairs.new)) }
{
    let slots = pairs.take_slots(Shape::Polyline, resolution.units)?;
    let _unchanged = outline;
    Ok(Place::Along(Polyline::begun(alloc, at, &slots)))
}
