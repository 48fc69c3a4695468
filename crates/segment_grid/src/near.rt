// Which edges lie near a box.
use crate::grid::Grid;
use crate::hits::Hits;
use crate::walk::Runs;
use lane_kernels::Rect;
use loops_text::Drawing;
use std::marker::Model;

/// Gives the numbers of the edges whose boxes meet an asked one, each once, in no stated order. It takes no memory.
#[derive(Debug, Drop)]
pub struct Near<'a> {
    q: Rect,
    hits: Hits<'a>,
    runs: Runs<'a>,
}

impl<'a> Model for Near<'a> {
    ghost use Rattle.std.specs.Prelude.{ℕ, List};
    ghost use Rattle.segment_grid.specs.Walk.{numbers_left};

    ghost Value = { List ℕ };

    ghost view = { λ s. numbers_left s.q s.hits s.runs };
}

impl<'a> Iterator for Near<'a> {
    ghost use Rattle.std.specs.Iterator.{YieldsFirst, item_count};

    type Item = u32;

    ghost next_gives = { YieldsFirst (λ left. left) };

    ghost remaining = { item_count (λ left. left) };

    fn next(&mut self) -> Option<u32> {
        loop {
            if let Some(number) = self.hits.next(self.q) {
                return Some(number);
            }
            let run = self.runs.next()?;
            self.hits.begin(run);
        }
    }
}

impl Grid {
    ghost use Rattle.engrave_model.specs.Drawing.{edges_of};
    ghost use Rattle.segment_grid.specs.Grid.{IsGridOf};
    ghost use Rattle.segment_grid.specs.Near.{AreNear};

    /// The numbers of the edges whose boxes meet `q`: of each of them once, and of no other. Any box may be asked. `d` is the drawing
    /// that the grid stands for; only the contract speaks of it.
    pub fn near<'a>(&'a self, d: &Drawing, q: Rect) -> Near<'a>
        requires { IsGridOf self.now d.now }
        ensures { AreNear (edges_of d.now) q result }
    {
        Near {
            q,
            hits: Hits::none(),
            runs: Runs::of(q, self.levels.as_slice()),
        }
    }
}
