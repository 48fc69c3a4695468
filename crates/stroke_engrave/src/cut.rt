// How many points of the box round strokes they cut.
ghost use Rattle.std.specs.Prelude.{◌≡◌, IfOk, MatchResult, map};
ghost use Rattle.plane_exact.specs.Cone.{IsFromOneTo};
ghost use Rattle.plane_exact.specs.declared.moves.TheConstants.{MOST_DEPTH};
ghost use Rattle.coverage_report.specs.Report.{IsReportFault};
ghost use Rattle.coverage_report.specs.declared.cover.TheConstants.{MOST_PITCH};
ghost use Rattle.stroke_engrave.specs.Cut.{AreStrokeCounts, IsStrokePoint};
ghost use Rattle.stroke_engrave.specs.Moves.{stroke_move};

use crate::bounds::stroke_bounds;
use crate::node::node_at;
use coverage_report::{CoverFault as CutFault, MOST_PITCH, count_cut};
use plane_exact::{Bit, LineMove, MOST_DEPTH, Move, Seg};
use std::alloc::{AllocError, Global};

/// Two counts: how many points are cut, and how many there are. The points are those of the box round the strokes with both coordinates, in
/// grid units, multiples of the pitch; those are cut that lie in the open disc that the bit cuts at the depth over some point of some stroke. The box is that of the strokes' ends, widened on each
/// side by the least whole number that is at least the disc's radius, and cut to the coordinates. The depth and the pitch are from 1 to
/// 32,767 grid units. It is a fault if there are more than 16,777,216 points.
pub fn stroke_cut(
    alloc: Global,
    strokes: &[Seg],
    bit: &Bit,
    depth: u32,
    pitch: u32,
) -> Result<(u64, u64), CutFault>
    requires depth { IsFromOneTo MOST_DEPTH depth }
    requires pitch { IsFromOneTo MOST_PITCH pitch }
    ensures { MatchResult result (λ counts. AreStrokeCounts bit.now depth strokes.now pitch counts.0 counts.1) (λ fault. IsReportFault (IsStrokePoint bit.now depth strokes.now pitch) fault) }
{
    let Some(bounds) = stroke_bounds(strokes, bit, depth) else {
        return Ok((0, 0));
    };
    let moves = stroke_moves(alloc, strokes, depth)?;
    let count = count_cut(alloc, bounds, bit, &moves, pitch)?;
    Ok((count.cut, count.points))
}

// The moves along the strokes at the depth.
fn stroke_moves(alloc: Global, strokes: &[Seg], depth: u32) -> Result<Vec<LineMove>, AllocError>
    requires { IsFromOneTo MOST_DEPTH depth }
    ensures { IfOk result (λ moves. moves.items ≡ map (stroke_move depth) strokes.now) }
{
    let mut moves = Vec::with_capacity(alloc, strokes.len())?;
    for stroke in strokes {
        let from = node_at(stroke.a, depth);
        let to = node_at(stroke.b, depth);
        moves.push(LineMove {
            line: 1,
            mv: Move::between(from, to),
        })?;
    }
    Ok(moves)
}
