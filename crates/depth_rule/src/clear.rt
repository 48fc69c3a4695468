// Whether a move is clear.
ghost use Rattle.std.specs.Prelude.{◌↔◌, IsTrue};
ghost use Rattle.engrave_model.specs.Drawing.{edges_of};
ghost use Rattle.swept_move.specs.Clear.{IsClear};

use crate::met::{Met, first_met};
use crate::scene::Scene;
use plane_exact::{Bit, Move};

/// Whether the move is clear: no end of it is below the surface, or it isn't too deep, passes the tests against every edge, and
/// its first end below the surface is inside.
pub fn is_clear(scene: &Scene, bit: &Bit, mv: &Move) -> bool
    ensures { IsTrue result ↔ IsClear (edges_of scene.now) bit.now mv.now }
{
    if !mv.is_deep() {
        true
    } else if mv.is_too_deep(bit) {
        false
    } else {
        matches!(first_met(scene, bit, mv), Met::Nothing)
    }
}
