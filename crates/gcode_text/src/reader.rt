// A program that comes in pieces, however it is cut.
ghost use Rattle.std.specs.Prelude.{◌≡◌, ◌+◌, ◌++◌, ◌≤◌, ◌<◌, ◌∷◌, List, ℕ, IfErr, IfOk, IsErr, OnErr, OnOk, Ok, Err, [], false, true, length};
ghost use Rattle.gcode_text.specs.Following.{AreFollowing};
ghost use Rattle.gcode_text.specs.Moves.{moves_of};
ghost use Rattle.gcode_text.specs.Reading.{HasFault, StandsFor};
ghost use Rattle.gcode_text.specs.Collecting.{Continues, collected_moves};
ghost use Rattle.gcode_text.specs.declared.modal.TheConstants.{MOST_MOVES};

use crate::fault::FinishFault;
use crate::state::{MOST_CODE_BYTES, Turn};
use crate::stepper::Stepper;
use grid_num::Units;
use plane_exact::LineMove;
use std::alloc::{AllocError, Global};
use std::marker::Model;

/// The moves of the program, each with its line, or its first fault.
pub fn read_code(alloc: Global, units: Units, code: &[u8]) -> Result<Vec<LineMove>, FinishFault>
    requires { length code.now ≤ MOST_CODE_BYTES }
    ensures moves { IfOk result (λ moves. moves_of units code.now ≡ Ok moves.items) }
    ensures fault { IfErr result (λ fault. HasFault fault (moves_of units code.now)) }
    // Each move begins where the one before ended, and the first at or above the surface.
    ensures follow { IfOk result (λ moves. AreFollowing moves.items) }
    ensures few { IfOk result (λ moves. length moves.items ≤ MOST_MOVES) }
{
    let mut reader = Reader::new(alloc, units);
    reader.feed(code)?;
    reader.finish()
}

/// Reads G-code that is fed in pieces: its moves depend on the bytes alone, and not on how they are cut.
///
/// The code is of the profile that docs/GCODE.md tells: RS274/NGC as LinuxCNC documents it, with these departures.
///
/// - A line has the words of N, G, M, X, Y, Z, F, S and P; every other letter is refused, and so are block delete
///   (`/`), parameters (`#`), expressions (`[`) and O words. A letter other than G and M stands once in a line.
/// - Of the G words G0 and G1 are accepted, one of them a line; G20 or G21 where it is the job's unit; and without
///   effect G17, G40, G49, G54, G61, G64, G80, G90, G91.1 and G94. Arcs (G2, G3), G91 and all others are refused.
/// - Of the M words M2 and M30 end the program behind their line, and M3, M4, M5, M7, M8 and M9 have no effect. All
///   others are refused. Words of one modal group may stand together, except G0 and G1.
/// - N, F, S and P take any number, anywhere in the line, without effect. G0, G1 and no motion word give the same
///   straight path, whatever the feed. A bare G0 or G1 is no move.
/// - No mode is asked of a program: without G20, G21 and G90 the job's unit and absolute positions hold.
/// - A line with a coordinate is a move once X, Y and Z were all known before it. Before that the bit may not be
///   below the surface.
/// - Coordinates are whole tenths of a grid unit, X and Y from -32,768 to 32,767 units, Z from -32,767 to 32,767; a number has
///   at most 27 digits, from the first that isn't 0 on, and no exponent.
/// - A comment in parentheses ends at the next `)`. A `;` begins a comment to the line's end. A line has at most
///   1024 bytes without what ends it.
/// - A line that is `%` alone, outside comments, says nothing, wherever it stands. A file needs no end word.
#[derive(Drop)]
pub struct Reader {
    collected: Collected,
    // Whether memory ran out: then a move is missing.
    is_lost: bool,
}

impl Model for Reader {
    ghost use Rattle.gcode_text.specs.Reading.{Progress};

    ghost Value = { Progress };

    ghost view = { λ r. record { units = r.collected.stepper.units; state = r.collected.stepper; moves = r.collected.moves.items; is_lost = r.is_lost } };
}

impl Reader {
    /// A reader for a job of these units, which was fed nothing.
    pub fn new(alloc: Global, units: Units) -> Reader
        ensures units { result.units ≡ units }
        ensures nothing { StandsFor [] result }
        ensures fed { result.state.fed ≡ 0 }
        ensures memory { result.is_lost ≡ false }
    {
        Reader {
            collected: Collected {
                stepper: Stepper::new(units),
                moves: Vec::new(alloc),
            },
            is_lost: false,
        }
    }

    /// Takes the next piece of the program, which has at most 536,870,912 bytes in all. After an error every later call
    /// errs.
    pub fn feed(&mut self, piece: &[u8]) -> Result<(), AllocError>
        requires room { self.old.state.fed + length piece.now ≤ MOST_CODE_BYTES }
        ensures units { self.new.units ≡ self.old.units }
        ensures grown { OnOk result ((bytes : List ℕ) → StandsFor bytes self.old → StandsFor (bytes ++ piece.now) self.new) }
        ensures fed { OnOk result (self.new.state.fed ≡ self.old.state.fed + length piece.now) }
        ensures room_left { self.new.state.fed ≤ self.old.state.fed + length piece.now }
        ensures memory { self.new.is_lost ≡ true → IsErr result }
        ensures lost { OnErr result (self.new.is_lost ≡ true) }
        ensures stays_lost { self.old.is_lost ≡ true → IsErr result }
    {
        if self.is_lost {
            return Err(AllocError);
        }
        let grown = self.collected.take_all(piece);
        self.is_lost = grown.is_err();
        grown
    }

    /// The moves of the program, each with its line, or its first fault. `Memory` where memory ran out, now or in a call
    /// of `feed`.
    pub fn finish(self) -> Result<Vec<LineMove>, FinishFault>
        ensures moves { IfOk result (λ moves. (bytes : List ℕ) → StandsFor bytes self → moves_of self.units bytes ≡ Ok moves.items) }
        ensures fault { IfErr result (λ fault. (bytes : List ℕ) → StandsFor bytes self → HasFault fault (moves_of self.units bytes)) }
        ensures lost { self.is_lost ≡ true → result ≡ Err FinishFault.Memory }
    {
        let Reader { collected, is_lost } = self;
        if is_lost {
            return Err(FinishFault::Memory);
        }
        collected.finish()
    }
}

// A stepper, and the moves that it has reported.
#[derive(Drop)]
struct Collected {
    stepper: Stepper,
    moves: Vec<LineMove>,
}

impl Collected {
    // Takes the next bytes.
    fn take_all(&mut self, piece: &[u8]) -> Result<(), AllocError>
        requires room { self.old.stepper.fed + length piece.now ≤ MOST_CODE_BYTES }
        ensures units { self.new.stepper.units ≡ self.old.stepper.units }
        ensures fed { OnOk result (self.new.stepper.fed ≡ self.old.stepper.fed + length piece.now) }
        ensures room_left { self.new.stepper.fed ≤ self.old.stepper.fed + length piece.now }
        ensures moves { OnOk result (Continues self.old piece.now self.new []) }
    {
        let mut rest = piece;
        while let [first, behind @ ..] = rest {
            let len = self.stepper.take_line(rest);
            if len == 0 {
                self.take(*first)?;
                rest = behind;
            } else {
                rest = &rest[len..];
            }
        }
        Ok(())
    }

    // Takes the next byte.
    fn take(&mut self, byte: u8) -> Result<(), AllocError>
        requires room { self.old.stepper.fed < MOST_CODE_BYTES }
        ensures units { self.new.stepper.units ≡ self.old.stepper.units }
        ensures fed { self.new.stepper.fed ≡ self.old.stepper.fed + 1 }
        ensures moves { OnOk result ((later : List ℕ) → Continues self.old (byte ∷ later) self.new later) }
    {
        match self.stepper.byte(byte) {
            Turn::Moved(mv) => self.moves.push(mv)?,
            // The stepper keeps the fault, and its end gives it.
            Turn::Nothing | Turn::Failed(_) => {}
        }
        Ok(())
    }

    // With the move of the last line; or the first fault.
    fn finish(self) -> Result<Vec<LineMove>, FinishFault>
        ensures moves { IfOk result (λ moves. collected_moves self ≡ Ok moves.items) }
        ensures fault { IfErr result (λ fault. HasFault fault (collected_moves self)) }
    {
        let Collected { stepper, mut moves } = self;
        if let Some(mv) = stepper.end()? {
            moves.push(mv)?;
        }
        Ok(moves)
    }
}
