// The greatest free number on a side of a contact.
ghost use Rattle.std.specs.Prelude.{◌≤◌};
ghost use Rattle.engrave_model.specs.Drawing.{edges_of};
ghost use Rattle.tangent_disc.specs.Tangent.{IsGreatestFree};
ghost use Rattle.tangent_disc.specs.Touch.{IsGreatestFreeOf};

use crate::touch::Touch;
use depth_rule::Scene;
use plane_exact::{MOST_RADIUS, Seg};

// The greatest free number up to `rmax`. The edges near the disc `most` are asked for first, and those near one of twice the size only
// where that is free, for most discs are small.
pub(crate) fn greatest_free(scene: &Scene, touch: &Touch, most: u32, rmax: u32) -> u32
    requires some { 1 ≤ most }
    requires order { most ≤ rmax }
    requires rmax { rmax ≤ MOST_RADIUS }
    ensures { IsGreatestFree (edges_of scene.now) touch.now.side touch.now.point rmax result }
{
    let mut most = most;
    loop {
        let j = greatest_free_within(scene, touch, most);
        if j < most || most == rmax {
            return j;
        }
        most = rmax.min(2 * most);
    }
}

// The greatest free number up to `most`, by the edges near the disc `most`: one that isn't near has no point in it.
pub(crate) fn greatest_free_within(scene: &Scene, touch: &Touch, most: u32) -> u32
    requires { most ≤ MOST_RADIUS }
    ensures { IsGreatestFree (edges_of scene.now) touch.now.side touch.now.point most result }
{
    let drawing = scene.drawing();
    let mut j = most;
    for e in scene.near(touch.disc(most).box_around(most)) {
        j = greatest_free_of(touch, &drawing.edge(e), j);
    }
    j
}

// The greatest number up to `most` that is free as far as one edge goes. Most edges leave `most` free, so that is tried first.
fn greatest_free_of(touch: &Touch, edge: &Seg, most: u32) -> u32
    requires { most ≤ MOST_RADIUS }
    ensures { IsGreatestFreeOf edge.now touch.now.side touch.now.point most result }
{
    if touch.is_free_of(most, edge) {
        return most;
    }
    // The number `low` is free, and none above `high` is.
    let mut low = 0;
    let mut high = most;
    while low < high {
        let middle = high - (high - low) / 2;
        if touch.is_free_of(middle, edge) {
            low = middle;
        } else {
            high = middle - 1;
        }
    }
    low
}
