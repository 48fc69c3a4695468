// Segments between points that are taken to the grid.
ghost use Rattle.std.specs.Prelude.{◌≡◌, IfOk, option_map};
ghost use Rattle.arc_flatten.specs.Segments.{segments_of};

use crate::fine::Fine;
use crate::grid::to_grid;
use plane_exact::{Seg, is_same_point};
use std::alloc::{AllocError, Global};

/// The segments from the nearest grid point of each point to that of the next, where these differ; or None where one leaves the
/// grid. The error is running out of memory.
#[tactic(auto, unfolding(crate::specs::Segments::segments_of))]
pub fn segments(alloc: Global, points: &[Fine]) -> Result<Option<Vec<Seg>>, AllocError>
    ensures { IfOk result (λ segs. option_map (λ segs. segs.items) segs ≡ segments_of points.now) }
{
    let mut segs = Vec::new(alloc);
    let Some((first, others)) = points.split_first() else {
        return Ok(Some(segs));
    };
    let Some(mut before) = to_grid(*first) else {
        return Ok(None);
    };
    let mut rest = others;
    while let Some((next, others)) = rest.split_first() {
        let Some(point) = to_grid(*next) else {
            return Ok(None);
        };
        if !is_same_point(before, point) {
            segs.push(Seg {
                a: before,
                b: point,
            })?;
        }
        before = point;
        rest = others;
    }
    Ok(Some(segs))
}
