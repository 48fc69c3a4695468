// The edges of a drawing in levels of cells, by their sizes.
ghost use Rattle.std.specs.Prelude.{IfOk};
ghost use Rattle.segment_grid.specs.Grid.{IsGridOf};

use crate::build::levels_of;
use crate::level::Level;
use crate::pack::packed;
use loops_text::Drawing;
use std::alloc::{AllocError, Global};

/// The edges of a drawing, kept by place.
#[derive(Debug, Drop)]
pub struct Grid {
    pub levels: Vec<Level>,
}

impl Grid {
    /// The grid of a drawing, kept in this allocator. The error is running out of memory.
    pub fn build(alloc: Global, d: &Drawing) -> Result<Grid, AllocError>
        ensures { IfOk result (λ grid. IsGridOf grid d.now) }
    {
        let open = levels_of(alloc, d)?;
        let levels = packed(alloc, open)?;
        Ok(Grid { levels })
    }
}
