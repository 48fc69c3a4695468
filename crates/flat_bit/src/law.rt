// What a flat bit mills along the chains of a floor. A law is the contract of a function that does nothing.
ghost use Rattle.flat_bit.specs.Law.{FloorLaw, LevelLaw};

/// For the chains of `flat`, in any order and with any safe height: all material, at the surface and below it, that a flat bit of their
/// radius removes at any rational moment of any move of their program is in the target. The conical bit might remove it, too: from a place
/// inside at an allowed depth, with no point of an edge in its disc.
pub fn floor_law()
    ensures { FloorLaw }
{}

/// All nodes of the chains of `flat` are at the deepest depth that is allowed.
pub fn level_law()
    ensures { LevelLaw }
{}
