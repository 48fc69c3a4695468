// Laws of the CXF form. A law is the contract of a function that does nothing.
ghost use Rattle.cxf_font.specs.Laws.{KeyLaw};

/// Each Unicode character in brackets, in UTF-8, is the key of its line, whatever stands behind them.
pub fn key_law()
    ensures { KeyLaw }
{}
