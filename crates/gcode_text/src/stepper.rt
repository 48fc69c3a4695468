// Reads a program a byte at a time, and takes no memory.
ghost use Rattle.std.specs.Prelude.{◌≡◌, ◌+◌, ◌<◌, ◌≤◌, [], ◌∷◌, ◌++◌, List, ℕ, Ok, Err, length, take};
ghost use Rattle.gcode_text.specs.Moves.{moves_of};
ghost use Rattle.gcode_text.specs.Stepping.{IfFailed, IfMoved, IsAfter, after, last_move, moves_at_end, moves_reported, next, start_of, turn_of};

use crate::fault::CodeFault;
use crate::state::{MOST_CODE_BYTES, State, Turn};
use grid_num::Units;
use plane_exact::LineMove;
use std::marker::Model;

/// Reads a program a byte at a time, and reports each move with the byte that closes its line. It takes no memory: it
/// stores one line, the coordinates and some counts.
// If you change this: what a byte does stands in `state.rt`, by `turn_of` and `next` of `specs/Stepping.antt`. The clauses `moves` and
// `fault` tie each answer to `moves_of` of all bytes fed, a definition by lines that knows no state: `proofs/Stepped.antt` shows that
// both come to the same, and breaks with a field of the state that isn't renewed behind a line; `proofs/Reported.antt` shows that a
// reported move is the last one.
#[derive(Drop)]
pub struct Stepper {
    state: State,
}

impl Model for Stepper {
    ghost use Rattle.gcode_text.specs.Within.{IsWithin};
    ghost use Rattle.gcode_text.specs.declared.state.State.{State as StateValue};

    ghost Value = { StateValue };

    ghost view = { λ s. s.state };

    ghost invariant = { λ s. IsWithin s.state };
}

impl Stepper {
    /// A stepper for a job of these units, which was fed nothing.
    pub fn new(units: Units) -> Stepper
        ensures { result ≡ start_of units }
    {
        Stepper {
            state: State::new(units),
        }
    }

    /// Takes the next byte of the program, and says what it reports: a move that it reports is the last one of all bytes fed, and
    /// a fault is theirs. After the first fault, and behind the line that ends the program, no byte reports anything.
    pub fn byte(&mut self, byte: u8) -> Turn
        requires { self.old.fed < MOST_CODE_BYTES }
        ensures turn { result ≡ turn_of self.old byte }
        ensures next { self.new ≡ next self.old byte }
        ensures units { self.new.units ≡ self.old.units }
        ensures fed { self.new.fed ≡ self.old.fed + 1 }
        ensures stands { (bytes : List ℕ) → IsAfter bytes self.old → IsAfter (bytes ++ byte ∷ []) self.new }
        ensures moves { IfMoved result (λ mv. (bytes : List ℕ) → IsAfter bytes self.old → moves_of self.old.units (bytes ++ byte ∷ []) ≡ Ok (moves_reported (start_of self.old.units) bytes ++ mv ∷ [])) }
        ensures fault { IfFailed result (λ fault. (bytes : List ℕ) → IsAfter bytes self.old → moves_of self.old.units (bytes ++ byte ∷ []) ≡ Err fault) }
    {
        self.state.step(byte)
    }

    /// Takes those of the next bytes that end no line, as far as there is room for them, and says how many it took. They report
    /// nothing. It may take none: `byte` takes each.
    pub fn take_line(&mut self, bytes: &[u8]) -> usize
        requires { self.old.fed + length bytes.now ≤ MOST_CODE_BYTES }
        ensures within { result ≤ length bytes.now }
        ensures after { self.new ≡ after self.old (take result bytes.now) }
        ensures silent { moves_reported self.old (take result bytes.now) ≡ [] }
        ensures units { self.new.units ≡ self.old.units }
        ensures fed { self.new.fed ≡ self.old.fed + result }
    {
        self.state.take_line(bytes)
    }

    /// Judges the last line, which no line feed has closed: its move, if it has one. The first fault of all lines, where
    /// there is one. With the moves that were reported, it makes those of all bytes fed.
    pub fn end(self) -> Result<Option<LineMove>, CodeFault>
        ensures value { result ≡ last_move self }
        ensures moves { (bytes : List ℕ) → IsAfter bytes self → moves_of self.units bytes ≡ moves_at_end (moves_reported (start_of self.units) bytes) result }
    {
        let Stepper { state } = self;
        state.end()
    }
}
