// What the runs of the boundary are.
ghost use Rattle.pbm_edges.specs.Law.{BoundaryLaw};

/// On each line of the grid, the runs that the segments are made of are the longest ones along which the boundary runs one way, in
/// order; so each side of the boundary is in exactly one of them.
pub fn boundary_law()
    ensures { BoundaryLaw }
{}
