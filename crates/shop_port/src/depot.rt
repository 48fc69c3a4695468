// A place of named files that are read piece by piece.
ghost use Rattle.std.specs.Prelude.{◌≡◌, ◌≤◌, Option, List, ℕ, length, IfOk, IfSome, OnErr};
ghost use Rattle.shop_port.specs.Counts.{Rose};
ghost use Rattle.shop_port.specs.Files.{IfGot, IfAbsent, IsPieceOf};

/// What a read found.
#[derive(Clone, Copy, Debug, PartialEq, Eq)]
pub enum Fetch {
    /// This many bytes, at the front of the buffer. 0 for a buffer with room: the file ends here.
    Got(usize),
    /// There is no file of that name.
    Absent,
}

/// A read or a write that failed.
#[derive(Clone, Copy, Debug, PartialEq, Eq)]
pub struct Failed;

/// Named files. Whatever a depot holds, it stays as it is.
pub trait Depot {
    /// The bytes under each name, None where there is no such file; None in all where they aren't known.
    ghost held: { Self → Option (List ℕ → Option (List ℕ)) };

    /// How often a read has failed.
    ghost faults: { Self → ℕ };

    /// How often a name wasn't found.
    ghost misses: { Self → ℕ };

    /// Reads bytes of a file, from the offset `at` on, to the front of `into`. After an `Err` the
    /// buffer may hold anything.
    fn read(&mut self, name: &str, at: u64, into: &mut [u8]) -> Result<Fetch, Failed>
        ensures range { IfOk result (λ fetch. IfGot fetch (λ n. n ≤ length into.new)) }
        ensures value { IfOk result (λ fetch. IfSome (held self.old) (λ files. IsPieceOf (files name.now) at into.new fetch)) }
        ensures unchanged { held self.new ≡ held self.old }
        ensures absent { IfOk result (λ fetch. IfAbsent fetch (Rose (misses self.old) (misses self.new))) }
        ensures failed { OnErr result (Rose (faults self.old) (faults self.new)) }
        ensures misses { misses self.old ≤ misses self.new }
        ensures faults { faults self.old ≤ faults self.new };
}
