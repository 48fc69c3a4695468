// The first pair of edges of a drawing that cross or overlap.
ghost use Rattle.std.specs.Prelude.{◌≡◌, ◌≢◌, ◌⊎◌, ◌<◌, ℕ, length};
ghost use Rattle.engrave_model.specs.Crossing.{IsCrossing};
ghost use Rattle.engrave_model.specs.Drawing.{edges_of};
ghost use Rattle.loops_text.specs.Crossing.{IsFirstCrossed};
ghost use Rattle.depth_rule.specs.Least.{AtMost};

use crate::least::is_at_most;
use crate::scene::Scene;
use crate::together::clear_end;
use loops_text::crosses;
use plane_exact::Seg;
use segment_grid::box_of;

impl Scene {
    ghost use Rattle.engrave_model.specs.Crossing.{IsFirstCrossing};
    ghost use Rattle.engrave_model.specs.Drawing.{edges_of};

    /// The numbers of the first two edges that cross or overlap, by the lesser number and then the greater: they have a point in
    /// common that isn't an end of both, or more than one. None where no edges do. Edges are asked only near each other.
    pub fn first_crossing(&self) -> Option<(u32, u32)>
        ensures { IsFirstCrossing (edges_of self.now) result }
    {
        let count = self.drawing().edges();
        let mut i = 0;
        while i < count {
            let end = clear_end(self, i);
            if end == i {
                if let Some(j) = first_crossed(self, i) {
                    return Some((i, j));
                }
                i += 1;
            } else {
                i = end;
            }
        }
        None
    }
}

/// The number of the first edge behind the edge `i` that crosses or overlaps it.
fn first_crossed(scene: &Scene, i: u32) -> Option<u32>
    requires { i < length (edges_of scene.now) }
    ensures { IsFirstCrossed (edges_of scene.now) i result }
{
    let first = scene.edge(i);
    let mut least = None;
    for j in scene.near(box_of(first)) {
        least = lesser_crossed(least, i, j, &first, &scene.edge(j));
    }
    least
}

/// The number `j` where it is above `i` and below the least so far, and the two edges cross; else the least so far.
fn lesser_crossed(least: Option<u32>, i: u32, j: u32, first: &Seg, second: &Seg) -> Option<u32>
    requires first { first.now.a ≢ first.now.b }
    requires second { second.now.a ≢ second.now.b }
    ensures keeps { (k : ℕ) → AtMost least k → AtMost result k }
    ensures judged { (i < j → ¬ IsCrossing first.now second.now) ⊎ AtMost result j }
    ensures found { (result ≡ least) ⊎ ((result ≡ Some j) × (i < j) × IsCrossing first.now second.now) }
{
    if j <= i || is_at_most(least, j) {
        return least;
    }
    if crosses(first, second) {
        Some(j)
    } else {
        least
    }
}
