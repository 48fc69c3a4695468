// Blocks: which words a line of code has, and their coordinates.
ghost use Rattle.std.specs.Prelude.{◌≡◌, ◌↔◌, IsSome, IfSome};

use std::marker::Model;

/// A number of tenths of a grid unit, from `-BELOW` to 327,670.
#[derive(Clone, Copy)]
pub struct Tenths<const BELOW: u32> {
    tenths: i32,
}

/// A coordinate of the bit's tip in tenths of a grid unit, from -327,680 to 327,670.
pub type Coordinate = Tenths<327_680>;

/// A height of the bit's tip in tenths of a grid unit, from -327,670 to 327,670.
pub type Height = Tenths<327_670>;

impl<const BELOW: u32> Model for Tenths<BELOW> {
    ghost use Rattle.std.specs.Prelude.{ℤ, pos, neg_ℤ};
    ghost use Rattle.integer_algebra.specs.Ranges.{IsWithin};

    ghost Value = { ℤ };

    ghost view = { λ z. z.tenths };

    ghost invariant = { λ z. IsWithin (neg_ℤ (pos BELOW)) (pos 327670) z.tenths };

    ghost inverse = { λ z. record { tenths = z } };
}

impl<const BELOW: u32> Tenths<BELOW> {
    ghost use Rattle.std.specs.Prelude.{◌≤◌, pos, neg_ℤ};
    ghost use Rattle.integer_algebra.specs.Ranges.{IsWithin};

    /// The number of so many tenths, or None where that is out of range.
    pub fn new(tenths: i128) -> Option<Self>
        requires { BELOW ≤ 327680 }
        ensures range { IsSome result ↔ IsWithin (neg_ℤ (pos BELOW)) (pos 327670) tenths }
        ensures value { IfSome result (λ z. z ≡ tenths) }
    {
        if -(BELOW as i128) <= tenths && tenths <= 327_670 {
            Some(Tenths {
                tenths: tenths as i32,
            })
        } else {
            None
        }
    }

    /// The number of tenths.
    pub fn tenths(self) -> i32
        ensures value { result ≡ self.entry }
        ensures range { IsWithin (neg_ℤ (pos BELOW)) (pos 327670) self.entry }
    {
        self.tenths
    }
}

/// What the words of a line say: in the words of RS274/NGC, its block.
#[derive(Clone, Copy)]
pub struct Block {
    /// Whether there is a word with this letter.
    pub n: bool,
    pub f: bool,
    pub s: bool,
    pub p: bool,
    /// Whether there is a G0 or G1.
    pub motion: bool,
    pub x: Option<Coordinate>,
    pub y: Option<Coordinate>,
    pub z: Option<Height>,
    /// Whether there is an M2 or M30.
    pub last: bool,
}

impl Block {
    ghost use Rattle.gcode_text.specs.Grammar.{empty_block};

    /// The block of no words.
    pub fn empty() -> Block
        ensures { result ≡ empty_block }
    {
        Block {
            n: false,
            f: false,
            s: false,
            p: false,
            motion: false,
            x: None,
            y: None,
            z: None,
            last: false,
        }
    }
}
