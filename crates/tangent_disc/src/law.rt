// A law of the discs at a contact. A law is the contract of a function that does nothing.
ghost use Rattle.tangent_disc.specs.Law.{LessFreeLaw};

/// Where a number is free on a side of a contact, every lesser one is free on it.
pub fn less_free_law()
    ensures { LessFreeLaw }
{}
