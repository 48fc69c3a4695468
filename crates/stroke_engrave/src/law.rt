// What engraved strokes are worth. A law is the contract of a function that does nothing.
ghost use Rattle.stroke_engrave.specs.Law.{StrokesLaw};

/// A program along the chains of strokes, in any order and at any safe height, removes a point exactly where it is in the bit's open disc at
/// their depth over some point of some stroke. The point may be any rational one, and the depth is at least 1.
pub fn strokes_law()
    ensures { StrokesLaw }
{}
