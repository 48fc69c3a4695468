// A cell of the field, and its loops.
ghost use Rattle.std.specs.Prelude.{◌≡◌, ◌+◌, ◌≤◌, ◌<◌, ◌++◌, ◌∷◌, [], None, OnOk, length, pos, sum_by};
ghost use Rattle.integer_algebra.specs.Ranges.{IsUpTo};
ghost use Rattle.engrave_model.specs.Drawing.{most_edges};
ghost use Rattle.loops_text.specs.Edges.{push_fault};
ghost use Rattle.trial_field.specs.Field.{about, cell_loops, far_of, middle_of, near_of, octagon, square};
ghost use Rattle.trial_field.specs.Room.{HasRoom};

use crate::field::MOST_CELLS;
use loops_text::{Drawing, PushFault};
use plane_exact::Point;
use std::alloc::AllocError;

/// Adds the loops of the cell with this number at the end of the drawing.
pub fn push_cell(field: &mut Drawing, cell: u32) -> Result<(), AllocError>
    requires few { sum_by length field.old + 8 ≤ most_edges }
    requires cell { cell < MOST_CELLS }
    ensures { OnOk result (field.new ≡ field.old ++ cell_loops cell) }
{
    let middle = middle_of(cell);
    let far = 400 + 10 * (cell % 50);
    let near = far / 2;
    if cell % 2 == 0 {
        push(field, &octagon(middle, far, near))
    } else {
        push(field, &square(middle, far))?;
        push(field, &square(middle, near))
    }
}

// Adds a loop that breaks no rule of the drawing.
fn push(field: &mut Drawing, points: &[Point]) -> Result<(), AllocError>
    requires { push_fault field.old points.now ≡ None }
    ensures { OnOk result (field.new ≡ field.old ++ points.now ∷ []) }
{
    if let Err(fault) = field.push_loop(points) {
        prove!(matches!(&fault, PushFault::Memory));
        return Err(AllocError);
    }
    Ok(())
}

// The middle of the cell.
fn middle_of(cell: u32) -> Point
    requires { cell < MOST_CELLS }
    ensures value { result ≡ middle_of cell }
    ensures room { HasRoom result }
{
    let x = 3000 * (cell % 8) + 1500;
    let y = 3000 * (cell / 8) + 1500;
    Point::new(i64::from(x), i64::from(y)).unwrap()
}

// The octagon about the middle, whose corners are far from it in one direction and near in the other.
fn octagon(middle: Point, far: u32, near: u32) -> [Point; 8]
    requires room { HasRoom middle }
    requires far { far ≤ 1000 }
    requires near { near ≤ 1000 }
    ensures { result ≡ octagon middle (pos far) (pos near) }
{
    let (a, b) = (i64::from(far), i64::from(near));
    [
        about(middle, a, b),
        about(middle, b, a),
        about(middle, -b, a),
        about(middle, -a, b),
        about(middle, -a, -b),
        about(middle, -b, -a),
        about(middle, b, -a),
        about(middle, a, -b),
    ]
}

// The square about the middle, whose corners are as far from it across as up.
fn square(middle: Point, far: u32) -> [Point; 4]
    requires room { HasRoom middle }
    requires far { far ≤ 1000 }
    ensures { result ≡ square middle (pos far) }
{
    let a = i64::from(far);
    [
        about(middle, a, a),
        about(middle, -a, a),
        about(middle, -a, -a),
        about(middle, a, -a),
    ]
}

// The point that stands so far from the middle, across and up.
fn about(middle: Point, x: i64, y: i64) -> Point
    requires room { HasRoom middle }
    requires across { IsUpTo (pos 1000) x }
    requires up { IsUpTo (pos 1000) y }
    ensures { result ≡ about middle x y }
{
    Point::new(i64::from(middle.x()) + x, i64::from(middle.y()) + y).unwrap()
}
