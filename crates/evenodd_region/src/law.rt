// Laws of the even-odd rule. A law is the contract of a function that does nothing.
ghost use Rattle.evenodd_region.specs.Bounds.{InsideBoxLaw};
ghost use Rattle.evenodd_region.specs.Parity.{EdgeParityLaw, ParityLaw};
ghost use Rattle.evenodd_region.specs.SafeMoves.{SparingMoveLaw, SurfaceMoveLaw};
ghost use Rattle.evenodd_region.specs.TwoDrawings.{TwoDrawingsLaw};

/// For an edge that a straight path from v to w doesn't meet: the edge is counted at exactly one of v and w exactly where
/// exactly one of its ends has the path to its left.
pub fn edge_parity_law()
    ensures { EdgeParityLaw }
{}

/// Along a straight path that meets no edge, all points are inside or none is.
pub fn parity_law()
    ensures { ParityLaw }
{}

/// Where all points of a drawing are in a box, each point that is inside is in it too, and on none of its sides.
pub fn inside_box_law()
    ensures { InsideBoxLaw }
{}

/// Off both outlines, a point is inside two drawings put together exactly where it is inside exactly one of them.
pub fn two_drawings_law()
    ensures { TwoDrawingsLaw }
{}

/// A move that goes below the surface, removes no point of any edge, and is inside where it is first below the surface,
/// removes only points that are inside.
pub fn sparing_move_law()
    ensures { SparingMoveLaw }
{}

/// A move that stays at or above the surface removes only points that are inside, for it removes none.
pub fn surface_move_law()
    ensures { SurfaceMoveLaw }
{}
