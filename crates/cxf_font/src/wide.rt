// Products in 128 bits.
ghost use mir.Syntax.{w128};
ghost use Rattle.std.specs.Prelude.{◌≡◌, ◌*ℤ◌, FitsSigned};

pub(crate) fn times(a: i128, b: i128) -> i128
    requires { FitsSigned w128 (a *ℤ b) }
    ensures { result ≡ a *ℤ b }
{
    a * b
}
