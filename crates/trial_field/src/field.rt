// The field of cells, as a drawing.
ghost use Rattle.std.specs.Prelude.{◌≡◌, IfOk};
ghost use Rattle.plane_exact.specs.Cone.{IsFromOneTo};
ghost use Rattle.trial_field.specs.Field.{trial_loops};

use crate::cell::push_cell;
use loops_text::Drawing;
use std::alloc::{AllocError, Global};

/// A field has at most so many cells.
pub const MOST_CELLS: u32 = 80;

/// The drawing of a trial, a field of so many cells. It has at most 120 loops and 640 edges.
pub fn trial_field(alloc: Global, count: u32) -> Result<Drawing, AllocError>
    requires { IsFromOneTo MOST_CELLS count }
    ensures { IfOk result (λ d. d ≡ trial_loops count) }
{
    let mut field = Drawing::empty(alloc);
    for cell in 0..count {
        push_cell(&mut field, cell)?;
    }
    Ok(field)
}
