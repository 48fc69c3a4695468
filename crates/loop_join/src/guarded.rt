// The first pair of edges of a drawing that cross or overlap, edge against edge.
ghost use Rattle.std.specs.Prelude.{◌<◌, length};
ghost use Rattle.engrave_model.specs.Crossing.{IsFirstCrossing};
ghost use Rattle.engrave_model.specs.Drawing.{edges_of};
ghost use Rattle.loops_text.specs.Crossing.{IsFirstCrossed};

use loops_text::{Drawing, crosses};

/// The numbers of the first two edges that cross or overlap, by the lesser number and then the greater: they have a point in
/// common that isn't an end of both, or more than one. None where no edges do. It takes no memory, and asks each pair of edges,
/// so that its time grows with the square of their number.
pub fn guard(d: &Drawing) -> Option<(u32, u32)>
    ensures { IsFirstCrossing (edges_of d.now) result }
{
    for i in 0..d.edges() {
        if let Some(j) = first_crossed(d, i) {
            return Some((i, j));
        }
    }
    None
}

// The number of the first edge behind the edge `i` that crosses or overlaps it.
fn first_crossed(d: &Drawing, i: u32) -> Option<u32>
    requires { i < length (edges_of d.now) }
    ensures { IsFirstCrossed (edges_of d.now) i result }
{
    let first = d.edge(i);
    for j in i + 1..d.edges() {
        if crosses(&first, &d.edge(j)) {
            return Some(j);
        }
    }
    None
}
