// An output that is written piece by piece.
ghost use Rattle.std.specs.Prelude.{◌≡◌, ◌≤◌, ◌<◌, Option, List, ℕ, length, take, IfOk, OnErr};
ghost use Rattle.shop_port.specs.Counts.{Rose};
ghost use Rattle.shop_port.specs.Output.{Appended};

use crate::Failed;

/// An output.
pub trait Sink {
    /// The bytes written so far; None where they aren't known.
    ghost written: { Self → Option (List ℕ) };

    /// How often a write has failed.
    ghost faults: { Self → ℕ };

    /// Takes bytes from the front of `piece`, at least one where it has any, and says how many.
    fn write(&mut self, piece: &[u8]) -> Result<usize, Failed>
        ensures range { IfOk result (λ n. n ≤ length piece.now) }
        ensures progress { IfOk result (λ n. 0 < length piece.now → 0 < n) }
        ensures appended { IfOk result (λ n. Appended (written self.old) (written self.new) (take n piece.now)) }
        ensures unchanged { OnErr result (written self.new ≡ written self.old) }
        ensures failed { OnErr result (Rose (faults self.old) (faults self.new)) }
        ensures faults { faults self.old ≤ faults self.new };
}
