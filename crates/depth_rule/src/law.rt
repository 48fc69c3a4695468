// What a clear move is worth, and what one that isn't. A law is the contract of a function that does nothing.
ghost use Rattle.depth_rule.specs.Law.{ClearMoveLaw, OwnPlaceLaw, SafeMoveLaw};

/// A clear move is a safe move: no moment of it removes a point that isn't inside.
pub fn clear_move_law()
    ensures { ClearMoveLaw }
{}

/// The other way round: a safe move that isn't too deep is clear, for a bit of some width. So the tests give no false alarm.
pub fn safe_move_law()
    ensures { SafeMoveLaw }
{}

/// A move that goes below the surface removes the place of its first end that does, for a bit of some width.
pub fn own_place_law()
    ensures { OwnPlaceLaw }
{}
