// What a DXF file draws.
use crate::fault::{DxfFault, OUT_OF_MEMORY};
use plane_exact::Seg;

/// The segments of a DXF file, in the order of its entities, and how many entities are skipped.
#[derive(Debug, Drop)]
pub struct Outline {
    pub segs: Vec<Seg>,
    pub skipped: u32,
}

impl Outline {
    ghost use Rattle.std.specs.Prelude.{◌≡◌, IfErr, OnOk};
    ghost use Rattle.dxf_outline.specs.Polyline.{one_skipped};
    ghost use Rattle.dxf_outline.specs.State.{drawn_of};
    ghost use Rattle.dxf_outline.specs.declared.fault.TheConstants.{OUT_OF_MEMORY};

    /// Counts one more entity that is skipped. No file has so many that the counter is full; it would be out of memory.
    pub(crate) fn skip(&mut self) -> Result<(), DxfFault>
        ensures skipped { OnOk result (drawn_of self.new ≡ one_skipped (drawn_of self.old)) }
        ensures full { IfErr result (λ f. f ≡ OUT_OF_MEMORY) }
    {
        if self.skipped == u32::MAX {
            return Err(OUT_OF_MEMORY);
        }
        self.skipped += 1;
        Ok(())
    }
}
