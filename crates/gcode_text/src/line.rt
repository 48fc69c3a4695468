// A line of a program: its block, from what stands outside its comments and blanks, in capitals.
ghost use Rattle.std.specs.Prelude.{◌≡◌, ◌≤◌, false, Some, None, if◌then◌else◌, length};
ghost use Rattle.gcode_text.specs.Grammar.{capital, outside_comments};
ghost use Rattle.gcode_text.specs.Moves.{line_block, words_block};

use crate::block::Block;
use crate::fault::CodeKind;
use crate::judge::judge;
use crate::plain::plain_block;
use arrayvec::ArrayVec;
use grid_num::Units;
use text_lines::Separator;

/// The most bytes of a line, without what ends it.
pub const MOST_LINE_BYTES: usize = 1024;

/// Room for the most bytes of a line and the carriage return that may end it.
pub const LINE_ROOM: usize = 1025;

/// The block of a line, without the carriage return that may end it.
pub fn line_block(units: Units, line: &[u8]) -> Result<Block, CodeKind>
    ensures { result ≡ line_block units line.now }
{
    if line.len() > MOST_LINE_BYTES {
        return Err(CodeKind::LongLine);
    }
    match plain_block(units, line) {
        Some(block) => Ok(block),
        None => words_block(units, line),
    }
}

// The block of what stands outside comments, byte by byte.
// Apart, so that a plain line doesn't pay for the room that this takes.
#[inline(never)]
fn words_block(units: Units, line: &[u8]) -> Result<Block, CodeKind>
    requires { length line.now ≤ MOST_LINE_BYTES }
    ensures { result ≡ words_block units (outside_comments false line.now) }
{
    let mut outside = ArrayVec::new();
    if !take_outside(line, &mut outside) {
        return Err(CodeKind::OpenComment);
    }
    match outside.as_slice() {
        [b'%'] => Ok(Block::empty()),
        words => judge(units, words),
    }
}

// Puts what stands in the line outside its comments in place of what `outside` holds: without blanks, in capitals.
// False where a `(` has no `)` behind it in the line.
fn take_outside(line: &[u8], outside: &mut ArrayVec<u8, MOST_LINE_BYTES>) -> bool
    requires { length line.now ≤ MOST_LINE_BYTES }
    ensures { outside_comments false line.now ≡ (if result then Some outside.new.items else None) }
{
    outside.clear();
    let mut in_comment = false;
    for byte in line {
        if in_comment {
            in_comment = *byte != b')';
        } else if *byte == b'(' {
            in_comment = true;
        } else if *byte == b';' {
            return true;
        } else if !Separator::Blank.separates(*byte) {
            outside.push(as_capital(*byte));
        }
    }
    !in_comment
}

// A small letter as the capital.
fn as_capital(byte: u8) -> u8
    ensures { result ≡ capital byte }
{
    if byte.is_ascii_lowercase() {
        byte - 32
    } else {
        byte
    }
}
