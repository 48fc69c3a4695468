// The modal state between lines: the coordinates that are known, and the move that a line gives.
ghost use Rattle.std.specs.Prelude.{◌≡◌};
ghost use Rattle.gcode_text.specs.Moves.{judge_move, names_place};

use crate::block::{Block, Coordinate, Height};
use crate::fault::CodeKind;
use plane_exact::{LineMove, Move, Spot};

/// The most moves of a program.
pub const MOST_MOVES: u32 = 8_388_608;

/// The coordinates that are known.
#[derive(Clone, Copy)]
pub struct Position {
    pub x: Option<Coordinate>,
    pub y: Option<Coordinate>,
    pub z: Option<Height>,
}

impl Position {
    ghost use Rattle.gcode_text.specs.Moves.{is_below, moved, nowhere, spot_of};

    /// No coordinate is known.
    pub fn nowhere() -> Position
        ensures { result ≡ nowhere }
    {
        Position {
            x: None,
            y: None,
            z: None,
        }
    }

    /// After a line of this block.
    pub fn moved(&self, block: &Block) -> Position
        ensures { result ≡ moved self.now block.now }
    {
        Position {
            x: block.x.or(self.x),
            y: block.y.or(self.y),
            z: block.z.or(self.z),
        }
    }

    // The spot, where every coordinate is known.
    fn spot(&self) -> Option<Spot>
        ensures { result ≡ spot_of self.now }
    {
        Some(Spot {
            x: self.x?.tenths(),
            y: self.y?.tenths(),
            h: self.z?.tenths(),
        })
    }

    // Whether the height is known and below the surface.
    fn is_below(&self) -> bool
        ensures { result ≡ is_below self.now.z }
    {
        match self.z {
            Some(z) => z.tenths() < 0,
            None => false,
        }
    }
}

/// The move of a line of this block, after `count` earlier moves: one if it names a coordinate and all were known
/// before it. `Unplaced` where the height is below the surface behind the line and not every coordinate was known
/// before it, else `TooMany` for a move past the most moves.
pub fn judge_move(
    line: u32,
    count: u32,
    old: &Position,
    block: &Block,
) -> Result<Option<LineMove>, CodeKind>
    ensures { result ≡ judge_move line count old.now block.now }
{
    let new = old.moved(block);
    let Some(from) = old.spot() else {
        return if new.is_below() {
            Err(CodeKind::Unplaced)
        } else {
            Ok(None)
        };
    };
    if !names_place(block) {
        return Ok(None);
    }
    if count >= MOST_MOVES {
        return Err(CodeKind::TooMany);
    }
    let Some(to) = new.spot() else {
        return Ok(None);
    };
    Ok(Some(LineMove {
        line,
        mv: Move { from, to },
    }))
}

// Whether a word names a coordinate.
fn names_place(block: &Block) -> bool
    ensures { result ≡ names_place block.now }
{
    block.x.is_some() || block.y.is_some() || block.z.is_some()
}
