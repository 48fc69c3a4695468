// How finely an outline is drawn: the units of its grid, and the width of the pieces of its arcs.
ghost use Rattle.arc_flatten.specs.declared.circle.TheConstants.{MOST_CHORD};
ghost use Rattle.plane_exact.specs.Cone.{IsFromOneTo};

use grid_num::Units;

/// The units of the grid, and the greatest width of a piece of an arc in degrees, from 1 to 90.
#[derive(Clone, Copy)]
pub(crate) struct Resolution {
    pub(crate) units: Units,
    pub(crate) chord: u32,
    pub(crate) ghost width: { IsFromOneTo MOST_CHORD chord },
}
