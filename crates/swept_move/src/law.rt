// What the tests of a move against an edge say of all moments between, and what those of its parts say of the whole.
ghost use Rattle.swept_move.specs.Convex.{ConvexLaw};
ghost use Rattle.swept_move.specs.Law.{ClearRunLaw, CutLaw, ExactLaw, SweptLaw};
ghost use Rattle.swept_move.specs.Motion.{BesideLaw, DeepPartLaw, JoinLaw, MotionConverseLaw, MotionLaw, RunLaw, SuccessiveLaw};
ghost use Rattle.swept_move.specs.Reach.{ReachLaw};
ghost use Rattle.swept_move.specs.Sweep.{SweepConverseLaw, SweepLaw};

/// A move that passes the tests against an edge removes no point of the edge, at any moment. The bit may have any slope, the
/// ends of the edge may be one point, and the move may pass through the surface sideways.
pub fn swept_law()
    ensures { SweptLaw }
{}

/// The other way round: a move that goes below the surface passes the tests against an edge, or removes a point of it, which has
/// its moment. The bit has to have some width.
pub fn cut_law()
    ensures { CutLaw }
{}

/// So the tests are exact: such a move passes them just where it removes no point of the edge.
pub fn exact_law()
    ensures { ExactLaw }
{}

/// A straight motion of the bit that passes the tests against an edge reaches no point of the edge, at any moment of the part
/// that is looked at.
pub fn sweep_law()
    ensures { SweepLaw }
{}

/// The other way round: a straight motion of the bit that goes below the surface reaches a point of the edge at some moment of the
/// part, or passes the tests. So the tests are exact. The bit has to have some width.
pub fn sweep_converse_law()
    ensures { SweepConverseLaw }
{}

/// The part of a motion's moments that its tests are about has all moments at which the tip is below the surface.
pub fn deep_part_law()
    ensures { DeepPartLaw }
{}

/// A motion between two places that passes the tests against an edge reaches no point of the edge, at any moment. It may go
/// through the surface, also sideways.
pub fn motion_law()
    ensures { MotionLaw }
{}

/// The other way round, of a motion that goes below the surface and a bit of some width.
pub fn motion_converse_law()
    ensures { MotionConverseLaw }
{}

/// A motion whose places are at least the bit's greatest radius beside both ends of an edge passes the tests against it.
pub fn beside_law()
    ensures { BesideLaw }
{}

/// So a move passes the tests against each edge that lies farther beside its path than it may cut.
pub fn reach_law()
    ensures { ReachLaw }
{}

/// A run of equal steps keeps off an edge exactly where the one motion from its first place to its last does, for a bit of some
/// width.
pub fn run_law()
    ensures { RunLaw }
{}

/// A motion keeps off an edge exactly where its two parts do, up to a place on its way and from there, for a bit of some width.
/// The place may be an end of the motion.
pub fn join_law()
    ensures { JoinLaw }
{}

/// So where places follow each other on a line, each on the way from the first to the next, the motion from the first to the last
/// keeps off an edge exactly where the motions between neighbours do. There are two places or more; they may be unevenly spaced,
/// and neighbours may be the same.
pub fn successive_law()
    ensures { SuccessiveLaw }
{}

/// Where points follow each other on a line, two or more of them, and at one height the move between each two neighbours is clear,
/// the one move from the first to the last is clear, for a bit of some width.
pub fn clear_run_law()
    ensures { ClearRunLaw }
{}

/// What a move removes is convex: a point between two that it removes, be it at different moments, is removed at some moment too.
/// The three points may be any rational ones.
pub fn convex_law()
    ensures { ConvexLaw }
{}
