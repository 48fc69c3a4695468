// The verdict on the moves of a G-code program.
ghost use Rattle.std.specs.Prelude.{◌≡◌, ◌≢◌, ◌↔◌, ◌++◌, ◌∷◌, [], List};
ghost use Rattle.plane_exact.specs.declared.moves.LineMove.{LineMove};
ghost use Rattle.engrave_model.specs.Drawing.{edges_of};
ghost use Rattle.engrave_model.specs.Removal.{IsSafeCode};
ghost use Rattle.gouge_checker.specs.Harm.{IsFit, IsTrueNo};
ghost use Rattle.gouge_checker.specs.Verdict.{IsVerdict, IsVerdictOfMove};

use depth_rule::{Met, Scene, first_met};
use plane_exact::{Bit, LineMove};

/// What `check` says of a G-code program: `line` counts from 1, `edge` from 0.
#[derive(Clone, Copy, Debug, PartialEq, Eq)]
pub enum Verdict {
    /// Every move is clear.
    Clear,
    /// At an end of this line's move the bit would be wider than its greatest radius.
    TooDeep { line: u32 },
    /// A test of this line's move fails against this edge, and against none before it.
    Gouge { line: u32, edge: u32 },
    /// The first end of this line's move that is below the surface isn't inside.
    Outside { line: u32 },
}

/// The verdict on the moves: what is wrong with the first that isn't clear, or that all are. Where it is `Clear`, no moment
/// of any move removes a point outside the drawing; where it is a gouge or outside, a moment of the named move does. It takes no
/// memory.
// One function has the loop and one the promise, so that the loop's proof speaks of verdicts alone.
pub fn check(scene: &Scene, bit: &Bit, moves: &[LineMove]) -> Verdict
    ensures safe { result ≡ Verdict.Clear → IsSafeCode (edges_of scene.now) bit.now moves.now }
    ensures exact { (result ≡ Verdict.Clear) ↔ IsFit (edges_of scene.now) bit.now moves.now }
    ensures harm { IsTrueNo (edges_of scene.now) bit.now moves.now result }
    ensures verdict { IsVerdict (edges_of scene.now) bit.now moves.now result }
{
    // That the bit has some width is known from its slope.
    let _slope = bit.sn();
    find_verdict(scene, bit, moves)
}

fn find_verdict(scene: &Scene, bit: &Bit, moves: &[LineMove]) -> Verdict
    ensures { IsVerdict (edges_of scene.now) bit.now moves.now result }
{
    for line_move in moves {
        match judge(scene, bit, line_move) {
            Verdict::Clear => {}
            fault => return fault,
        }
    }
    Verdict::Clear
}

/// The verdict on moves of which all but the last have the verdict `before`: that one where it isn't `Clear`, for it stands, and
/// else the verdict on the last. So moves that come one by one are judged without keeping them.
pub fn next_verdict(scene: &Scene, bit: &Bit, before: Verdict, mv: &LineMove) -> Verdict
    ensures stays { before ≢ Verdict.Clear → result ≡ before }
    ensures law { (moves : List LineMove) → IsVerdict (edges_of scene.now) bit.now moves before
        → IsVerdict (edges_of scene.now) bit.now (moves ++ mv.now ∷ []) result }
{
    match before {
        Verdict::Clear => judge(scene, bit, mv),
        fault => fault,
    }
}

/// The verdict on one move.
fn judge(scene: &Scene, bit: &Bit, line_move: &LineMove) -> Verdict
    ensures { IsVerdictOfMove (edges_of scene.now) bit.now line_move.now result }
{
    let line = line_move.line;
    let mv = &line_move.mv;
    if !mv.is_deep() {
        Verdict::Clear
    } else if mv.is_too_deep(bit) {
        Verdict::TooDeep { line }
    } else {
        match first_met(scene, bit, mv) {
            Met::Edge(edge) => Verdict::Gouge { line, edge },
            Met::Outside => Verdict::Outside { line },
            Met::Nothing => Verdict::Clear,
        }
    }
}
