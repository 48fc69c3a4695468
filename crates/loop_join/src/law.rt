// What joining and snapping are worth. A law is the contract of a function that does nothing.
ghost use Rattle.loop_join.specs.Law.{JoinLaw};
ghost use Rattle.loop_join.specs.SnapLaw.{SnapLaw};

/// Segments become loops exactly where an even number of them ends at each point, and the loops are those of the rule of `join`,
/// which has no others; where an odd number of them end at some point, the answer is the first such point.
pub fn join_law()
    ensures { JoinLaw }
{}

/// The points that are kept are further from each other, in one of the coordinates, than the tolerance, and each segment that
/// is left is one of the given ones, each end of which has moved to a kept point no further away than that.
pub fn snap_law()
    ensures { SnapLaw }
{}
