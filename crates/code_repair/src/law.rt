// What a repair is worth. A law is the contract of a function that does nothing.
ghost use Rattle.code_repair.specs.Law.{RepairLaw};

/// A repaired program is clear throughout, removes no point at any moment that the read one doesn't remove, and has the clear moves of
/// that in their order; none is changed exactly where all are clear.
pub fn repair_law()
    ensures { RepairLaw }
{}
