// Writes a drawing in loops form: a loop a line, its points `x,y` with one space between them.
ghost use Rattle.std.specs.Prelude.{◌≡◌, ◌≤◌, ◌++◌, IfOk, Ok, OnOk, length};
ghost use Rattle.grid_num.specs.Written.{decimal_text};
ghost use Rattle.loops_text.specs.Grammar.{loops_of};
ghost use Rattle.loops_text.specs.Writing.{more_points, written_loop, written_loops, written_point};

use crate::drawing::Drawing;
use crate::reader::MOST_DRAWING_BYTES;
use grid_num::write_decimal;
use plane_exact::Point;
use std::alloc::{AllocError, Global};

/// The text of a drawing in loops form: each loop is a line, its points `x,y` with one space between them, and ends with a
/// line feed. `read_loops` reads it as the same drawing: it is never too long for that, since no point takes more than 14
/// bytes. It may answer that memory ran out.
pub fn write_loops(alloc: Global, d: &Drawing) -> Result<Vec<u8>, AllocError>
    ensures text { IfOk result (λ bytes. bytes.items ≡ written_loops d.now) }
    ensures range { IfOk result (λ bytes. length bytes.items ≤ MOST_DRAWING_BYTES) }
    ensures read_back { IfOk result (λ bytes. loops_of bytes.items ≡ Ok d.now) }
{
    let mut text = Vec::new(alloc);
    for i in 0..d.loops() {
        write_loop(d.points(i), &mut text)?;
    }
    Ok(text)
}

// The line of a loop.
fn write_loop(points: &[Point], text: &mut Vec<u8>) -> Result<(), AllocError>
    ensures { OnOk result (text.new.items ≡ text.old.items ++ written_loop points.now) }
{
    if let Some((first, rest)) = points.split_first() {
        write_point(*first, text)?;
        write_more_points(rest, text)?;
    }
    text.extend_from_slice(b"\n")
}

// The points behind the first, each with a space before it.
fn write_more_points(points: &[Point], text: &mut Vec<u8>) -> Result<(), AllocError>
    ensures { OnOk result (text.new.items ≡ text.old.items ++ more_points points.now) }
{
    for point in points {
        text.extend_from_slice(b" ")?;
        write_point(*point, text)?;
    }
    Ok(())
}

fn write_point(p: Point, text: &mut Vec<u8>) -> Result<(), AllocError>
    ensures { OnOk result (text.new.items ≡ text.old.items ++ written_point p) }
{
    write_number(p.x(), text)?;
    text.extend_from_slice(b",")?;
    write_number(p.y(), text)
}

fn write_number(number: i32, text: &mut Vec<u8>) -> Result<(), AllocError>
    ensures { OnOk result (text.new.items ≡ text.old.items ++ decimal_text 0 number) }
{
    write_decimal(i64::from(number), 1, text)
}
