// The lines of a program, each written at the end of a text.
ghost use Rattle.std.specs.Prelude.{◌≡◌, ◌++◌, ◌∷◌, [], OnOk};
ghost use Rattle.gcode_text.specs.Path.{end_line, height_line, length_word, mode_lines, motion_word, node_line, travel_line};
ghost use Rattle.gcode_text.specs.Written.{Note, code_text, word_text};

use grid_num::{Units, write_decimal};
use plane_exact::{Node, Point};
use std::alloc::AllocError;

/// How a line moves the bit.
#[derive(Clone, Copy, Debug, PartialEq, Eq)]
pub enum Motion {
    /// G0, as fast as the machine can.
    Rapid,
    /// G1, straight at the feed.
    Straight,
}

/// A comment.
pub fn write_note(note: &str, code: &mut Vec<u8>) -> Result<(), AllocError>
    ensures { OnOk result (code.new.items ≡ code.old.items ++ code_text (Note note.now ∷ [])) }
{
    code.extend_from_slice(b"(")?;
    code.extend_from_slice(note.as_bytes())?;
    code.extend_from_slice(b")\n")
}

/// The units, absolute places, and the feed.
pub fn write_modes(units: Units, feed: u32, code: &mut Vec<u8>) -> Result<(), AllocError>
    ensures { OnOk result (code.new.items ≡ code.old.items ++ code_text (mode_lines units feed)) }
{
    code.extend_from_slice(if units.is_inch() {
        b"G20\nG90\nF"
    } else {
        b"G21\nG90\nF"
    })?;
    write_decimal(i64::from(feed), 1, code)?;
    code.extend_from_slice(b"\n")
}

/// Over the point, at the height that there is.
pub fn write_travel(units: Units, at: Point, code: &mut Vec<u8>) -> Result<(), AllocError>
    ensures { OnOk result (code.new.items ≡ code.old.items ++ code_text (travel_line units at ∷ [])) }
{
    code.extend_from_slice(b"G0")?;
    write_length(units, b'X', i64::from(at.x()), code)?;
    write_length(units, b'Y', i64::from(at.y()), code)?;
    code.extend_from_slice(b"\n")
}

/// To the height, upright.
pub fn write_height(
    units: Units,
    motion: Motion,
    height: i64,
    code: &mut Vec<u8>,
) -> Result<(), AllocError>
    ensures { OnOk result (code.new.items ≡ code.old.items ++ code_text (height_line units (motion_word motion) height ∷ [])) }
{
    code.extend_from_slice(motion_text(motion).as_bytes())?;
    write_length(units, b'Z', height, code)?;
    code.extend_from_slice(b"\n")
}

/// Straight to the node.
pub fn write_node(units: Units, node: Node, code: &mut Vec<u8>) -> Result<(), AllocError>
    ensures { OnOk result (code.new.items ≡ code.old.items ++ code_text (node_line units node ∷ [])) }
{
    code.extend_from_slice(b"G1")?;
    write_length(units, b'X', i64::from(node.at.x()), code)?;
    write_length(units, b'Y', i64::from(node.at.y()), code)?;
    write_length(units, b'Z', -i64::from(node.depth), code)?;
    code.extend_from_slice(b"\n")
}

/// The program's end.
pub fn write_end(code: &mut Vec<u8>) -> Result<(), AllocError>
    ensures { OnOk result (code.new.items ≡ code.old.items ++ code_text (end_line ∷ [])) }
{
    code.extend_from_slice(b"M2\n")
}

/// The motion's word.
pub fn motion_text(motion: Motion) -> &'static str
    ensures { result.now ≡ word_text (motion_word motion) }
{
    match motion {
        Motion::Rapid => "G0",
        Motion::Straight => "G1",
    }
}

// A space, the letter, and the length in the job's units.
fn write_length(units: Units, letter: u8, value: i64, code: &mut Vec<u8>) -> Result<(), AllocError>
    ensures { OnOk result (code.new.items ≡ code.old.items ++ 32 ∷ word_text (length_word units letter value)) }
{
    code.extend_from_slice(&[b' ', letter])?;
    write_decimal(value, units.per_unit(), code)
}
