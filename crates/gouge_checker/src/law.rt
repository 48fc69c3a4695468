// What a verdict is worth. A law is the contract of a function that does nothing.
ghost use Rattle.gouge_checker.specs.Law.{VerdictLaw};

/// A verdict is `Clear` exactly where no move is too deep and no moment of any removes a point outside the drawing; where it is a
/// gouge or outside, a moment of a move of its line does remove one, for a bit of some width.
pub fn verdict_law()
    ensures { VerdictLaw }
{}
