// Reads the outline of a DXF file, pair by pair.
ghost use Rattle.std.specs.Prelude.{◌≡◌, ◌≢◌, ◌≤◌, IfErr, IfOk, Ok, Err, length};
ghost use Rattle.grid_num.specs.Units.{per_unit_of};
ghost use Rattle.plane_exact.specs.Cone.{IsFromOneTo};
ghost use Rattle.dxf_outline.specs.Outline.{dxf_of};
ghost use Rattle.dxf_outline.specs.State.{drawn_of};
ghost use Rattle.dxf_outline.specs.declared.shapes.TheConstants.{MOST_SEGMENTS};

use crate::ahead::Pairs;
use crate::fault::{DxfFault, DxfKind};
use crate::outline::Outline;
use crate::resolution::Resolution;
use crate::walk::walk;
use arc_flatten::MOST_CHORD;
use grid_num::Units;
use std::alloc::Global;

/// The most bytes of a DXF file.
pub const MOST_DXF_BYTES: usize = 16_777_216;

/// The outline of a DXF file of at most `MOST_DXF_BYTES` bytes on the grid of these units, whose arcs are drawn by pieces no wider
/// than `chord` degrees, from 1 to 90; or its first fault.
#[tactic(auto, unfolding(crate::specs::Outline::dxf_of))]
pub fn read_dxf(alloc: Global, bytes: &[u8], units: Units, chord: u32) -> Result<Outline, DxfFault>
    requires bytes { length bytes.now ≤ MOST_DXF_BYTES }
    requires chord { IsFromOneTo MOST_CHORD chord }
    ensures outline { IfOk result (λ outline. dxf_of (per_unit_of units) chord bytes.now ≡ Ok (drawn_of outline)) }
    ensures few { IfOk result (λ outline. length outline.segs.items ≤ MOST_SEGMENTS) }
    ensures fault { IfErr result (λ f. f.kind ≢ DxfKind.Memory → dxf_of (per_unit_of units) chord bytes.now ≡ Err f) }
    ensures memory { IfErr result (λ f. f.kind ≡ DxfKind.Memory → f.pair ≡ 0) }
{
    let mut pairs = Pairs::of(bytes);
    walk(alloc, Resolution { units, chord }, &mut pairs)
}
