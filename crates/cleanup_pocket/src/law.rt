// What the chains of a pocket are worth. A law is the contract of a function that does nothing.
ghost use Rattle.cleanup_pocket.specs.Law.{PocketLaw};

/// At each node of a pocket the depth fits, and each move along a chain of it is clear, for a bit of some width.
pub fn pocket_law()
    ensures { PocketLaw }
{}
