// Whether two segments cross.
ghost use Rattle.std.specs.Prelude.{◌≢◌, ◌↔◌, IsTrue};
ghost use Rattle.engrave_model.specs.Crossing.{IsCrossing};

use plane_exact::{Meet, Seg, cross_kind};

/// Whether the segments cross or overlap: they have a point in common that isn't an end of both, or more than one. Exact over
/// their rational points. The two ends of each must differ.
pub fn crosses(s: &Seg, t: &Seg) -> bool
    requires first { s.now.a ≢ s.now.b }
    requires second { t.now.a ≢ t.now.b }
    ensures { IsTrue result ↔ IsCrossing s.now t.now }
{
    match cross_kind(*s, *t) {
        Meet::Crosses | Meet::Overlaps => true,
        Meet::Apart | Meet::AtEnds => false,
    }
}
