// What is drawn of a text so far.
ghost use Rattle.std.specs.Prelude.{◌≤◌, vec_len};
ghost use Rattle.cxf_font.specs.declared.drawing.TheConstants.{MOST_LETTERING};

use crate::lay_fault::LayFault;
use arc_flatten::{Fine, segments};
use plane_exact::Seg;
use std::alloc::Global;

/// The most segments of a text.
pub const MOST_LETTERING: usize = 131_072;

/// The segments so far. Once they are too many no more is kept, since all that is left to find is a point out of range.
#[derive(Drop)]
pub(crate) struct Drawing {
    alloc: Global,
    segs: Vec<Seg>,
    is_over: bool,
    ghost few: { vec_len segs ≤ MOST_LETTERING },
}

impl Drawing {
    ghost use Rattle.std.specs.Prelude.{◌≡◌, ◌≢◌, ◌≤◌, ◌++◌, ◌∷◌, [], Err, IfErr, IfOk, List, Ok, OnOk, length};
    ghost use Rattle.plane_exact.specs.declared.point.Seg.{Seg};
    ghost use Rattle.arc_flatten.specs.Points.{FinePoint};
    ghost use Rattle.cxf_font.specs.Drawn.{drawn_on, drawn_with};
    ghost use Rattle.cxf_font.specs.Lay.{few};
    ghost use Rattle.cxf_font.specs.declared.lay_fault.LayFault.TheVariants.{Memory};

    /// Nothing is drawn.
    pub(crate) fn begin(alloc: Global) -> Drawing
        ensures { (later : List Seg) → drawn_with result later ≡ few later }
    {
        Drawing {
            alloc,
            segs: Vec::new(alloc),
            is_over: false,
        }
    }

    /// Draws from each of the points to the next.
    #[tactic(auto, unfolding(crate::specs::Lay::all_segments))]
    pub(crate) fn draw(&mut self, points: &[Fine]) -> Result<(), LayFault>
        ensures drawn { OnOk result ((strokes : List (List FinePoint)) → drawn_on self.new strokes ≡ drawn_on self.old (points.now ∷ strokes)) }
        ensures fault { IfErr result (λ f. f ≢ Memory → (strokes : List (List FinePoint)) → drawn_on self.old (points.now ∷ strokes) ≡ Err f) }
    {
        match segments(self.alloc, points)? {
            Some(segs) => self.append(&segs),
            None => Err(LayFault::OutOfRange),
        }
    }

    // Appends segments, while they aren't too many.
    #[tactic(auto, unfolding(crate::specs::Lay::few))]
    fn append(&mut self, segs: &[Seg]) -> Result<(), LayFault>
        ensures drawn { OnOk result ((later : List Seg) → drawn_with self.new later ≡ drawn_with self.old (segs.now ++ later)) }
        ensures fault { IfErr result (λ f. f ≡ Memory) }
    {
        if self.is_over || self.segs.len() + segs.len() > MOST_LETTERING {
            self.is_over = true;
        } else {
            self.segs.extend_from_slice(segs)?;
        }
        Ok(())
    }

    /// All that is drawn.
    #[tactic(auto, unfolding(crate::specs::Lay::few))]
    pub(crate) fn finish(self) -> Result<Vec<Seg>, LayFault>
        ensures value { IfOk result (λ segs. drawn_with self [] ≡ Ok segs.items) }
        ensures fault { IfErr result (λ f. drawn_with self [] ≡ Err f) }
        ensures few { IfOk result (λ segs. length segs.items ≤ MOST_LETTERING) }
    {
        if self.is_over {
            Err(LayFault::TooMany)
        } else {
            Ok(self.segs)
        }
    }
}
