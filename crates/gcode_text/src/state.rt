// The state of a program that is read a byte at a time, and what a byte does with it.
ghost use Rattle.std.specs.Prelude.{◌≡◌, ◌+◌, ◌<◌, ◌≤◌, ◌^◌, [], length, take};
ghost use Rattle.std.specs.List.{prefix_len};
ghost use Rattle.grid_num.specs.Judging.{and_then};
ghost use Rattle.gcode_text.specs.Moves.{in_line, judge_move};
ghost use Rattle.gcode_text.specs.Runs.{is_of_line};
ghost use Rattle.gcode_text.specs.Stepping.{after, behind_block, behind_line, block_of, ended_line, last_move, move_of_line, moves_reported, next, start_of, turn_by, turn_of, with_byte};

use crate::block::Block;
use crate::fault::{CodeFault, CodeKind};
use crate::line::{LINE_ROOM, line_block};
use crate::modal::{Position, judge_move};
use arrayvec::ArrayVec;
use grid_num::Units;
use plane_exact::LineMove;
use text_lines::without_return;

/// What a byte of a program reports.
#[derive(Clone, Copy, Debug, PartialEq, Eq)]
pub enum Turn {
    /// It closes no line, or one without a move.
    Nothing,
    /// It closes the line of this move.
    Moved(LineMove),
    /// It closes the first faulty line.
    Failed(CodeFault),
}

impl Turn {
    // What a line that gives this move, or this fault, reports.
    fn of_line(line: Result<Option<LineMove>, CodeFault>) -> Turn
        ensures { result ≡ turn_by line }
    {
        match line {
            Ok(Some(mv)) => Turn::Moved(mv),
            Ok(None) => Turn::Nothing,
            Err(fault) => Turn::Failed(fault),
        }
    }
}

/// Whether lines are still read.
#[derive(Clone, Copy, Debug, PartialEq, Eq)]
pub enum Phase {
    Open,
    /// Behind the line with M2 or M30.
    Ended,
    /// Behind a line with this fault.
    Broken(CodeFault),
}

/// The most bytes of a program.
pub const MOST_CODE_BYTES: u32 = 536_870_912;

/// A program as far as it is read.
#[derive(Drop)]
pub struct State {
    pub units: Units,
    /// The number of the line that isn't closed yet, from 1.
    pub line: u32,
    /// How many moves came before it.
    pub moves: u32,
    pub position: Position,
    /// The bytes of that line; one more than a line may have, for a carriage return at its end is none of them.
    pub bytes: ArrayVec<u8, LINE_ROOM>,
    /// Whether the line has more bytes than that.
    pub is_long: bool,
    pub phase: Phase,
    /// How many bytes were fed.
    pub fed: u32,
}

impl State {
    /// Before the first byte.
    pub fn new(units: Units) -> State
        ensures { result ≡ start_of units }
    {
        State {
            units,
            line: 1,
            moves: 0,
            position: Position::nowhere(),
            bytes: ArrayVec::new(),
            is_long: false,
            phase: Phase::Open,
            fed: 0,
        }
    }

    /// Takes the next byte, and says what it reports.
    pub fn step(&mut self, byte: u8) -> Turn
        requires fed { self.old.fed + 1 < 2 ^ 32 }
        requires line { self.old.line + 1 < 2 ^ 32 }
        requires moves { self.old.moves + 1 < 2 ^ 32 }
        ensures turn { result ≡ turn_of self.old byte }
        ensures next { self.new ≡ next self.old byte }
    {
        self.fed += 1;
        match self.phase {
            Phase::Open if byte == b'\n' => Turn::of_line(self.close_line()),
            Phase::Open => {
                self.push(byte);
                Turn::Nothing
            }
            Phase::Ended | Phase::Broken(_) => Turn::Nothing,
        }
    }

    /// Judges the last line, which no line feed has closed. The first fault of all lines, where there is one.
    pub fn end(self) -> Result<Option<LineMove>, CodeFault>
        ensures { result ≡ last_move self }
    {
        match self.phase {
            Phase::Open => {
                let (_, mv) = self.ended_line()?;
                Ok(mv)
            }
            Phase::Ended => Ok(None),
            Phase::Broken(fault) => Err(fault),
        }
    }

    /// Takes those of the next bytes that belong to the line and find room in it, all at once, and says how many it took. They report
    /// nothing. It may take none: `step` takes each.
    pub fn take_line(&mut self, bytes: &[u8]) -> usize
        requires fed { self.old.fed + length bytes.now < 2 ^ 32 }
        ensures within { result ≤ length bytes.now }
        ensures after { self.new ≡ after self.old (take result bytes.now) }
        ensures silent { moves_reported self.old (take result bytes.now) ≡ [] }
        ensures units { self.new.units ≡ self.old.units }
        ensures line { self.new.line ≡ self.old.line }
        ensures moves { self.new.moves ≡ self.old.moves }
        ensures fed { self.new.fed ≡ self.old.fed + result }
    {
        if self.phase != Phase::Open {
            return 0;
        }
        let room = LINE_ROOM - self.bytes.len();
        let front = front(bytes, room);
        let len = line_len(front);
        if self.bytes.try_extend_from_slice(&front[..len]).is_err() {
            return 0;
        }
        self.fed += len as u32;
        len
    }

    // One more byte of the line.
    fn push(&mut self, byte: u8)
        ensures { self.new ≡ with_byte self.old byte }
    {
        if self.bytes.len() < LINE_ROOM {
            self.bytes.push(byte);
        } else {
            self.is_long = true;
        }
    }

    // Goes on to the next line, and gives the move of this one, or its fault.
    fn close_line(&mut self) -> Result<Option<LineMove>, CodeFault>
        requires line { self.old.line + 1 < 2 ^ 32 }
        requires moves { self.old.moves + 1 < 2 ^ 32 }
        ensures value { result ≡ move_of_line (ended_line self.old) }
        ensures next { self.new ≡ behind_line self.old (ended_line self.old) }
    {
        match self.ended_line() {
            Ok((block, mv)) => {
                self.go_on(&block, mv.is_some());
                Ok(mv)
            }
            Err(fault) => {
                self.phase = Phase::Broken(fault);
                Err(fault)
            }
        }
    }

    // Goes on behind a line of this block, with a move or without.
    fn go_on(&mut self, block: &Block, has_move: bool)
        requires line { self.old.line + 1 < 2 ^ 32 }
        requires moves { self.old.moves + 1 < 2 ^ 32 }
        ensures { self.new ≡ behind_block self.old block.now has_move }
    {
        self.line += 1;
        if has_move {
            self.moves += 1;
        }
        self.position = self.position.moved(block);
        self.bytes.clear();
        self.is_long = false;
        if block.last {
            self.phase = Phase::Ended;
        }
    }

    // The block of the line that ends here and its move, which not every line has, or its fault.
    fn ended_line(&self) -> Result<(Block, Option<LineMove>), CodeFault>
        ensures { result ≡ ended_line self.now }
    {
        match self.judged_line() {
            Ok(ended) => Ok(ended),
            Err(kind) => Err(CodeFault {
                line: self.line,
                kind,
            }),
        }
    }

    // Apart from `ended_line`, so that `?` serves for both faults before they get the number of the line.
    fn judged_line(&self) -> Result<(Block, Option<LineMove>), CodeKind>
        ensures { result ≡ and_then (block_of self.now.units self.now.is_long self.now.bytes.items) (λ block. and_then (judge_move self.now.line self.now.moves self.now.position block) (λ mv. Ok (block, mv))) }
    {
        let block = self.block()?;
        let mv = judge_move(self.line, self.moves, &self.position, &block)?;
        Ok((block, mv))
    }

    // The block of the line.
    fn block(&self) -> Result<Block, CodeKind>
        ensures { result ≡ block_of self.now.units self.now.is_long self.now.bytes.items }
    {
        if self.is_long {
            return Err(CodeKind::LongLine);
        }
        line_block(self.units, without_return(self.bytes.as_slice()))
    }
}

// The first bytes, at most so many.
fn front(bytes: &[u8], most: usize) -> &[u8]
    ensures value { result.now ≡ take most bytes.now }
    ensures room { length result.now ≤ most }
    ensures within { length result.now ≤ length bytes.now }
{
    if bytes.len() < most {
        bytes
    } else {
        &bytes[..most]
    }
}

// How many bytes come before the first line feed.
fn line_len(bytes: &[u8]) -> usize
    ensures value { result ≡ prefix_len is_of_line bytes.now }
    ensures within { result ≤ length bytes.now }
{
    bytes.iter().take_while(|byte| is_of_line(**byte)).count()
}

// Whether the byte is no line feed.
fn is_of_line(byte: u8) -> bool
    ensures { result ≡ is_of_line byte }
{
    byte != b'\n'
}
