// The report on the marked points that a program leaves uncut.
ghost use Rattle.std.specs.Prelude.{◌≡◌, ◌+◌, ◌/◌, List, length, IfOk, MatchOption, MatchResult};
ghost use Rattle.plane_exact.specs.Cone.{Cone, IsFromOneTo};
ghost use Rattle.plane_exact.specs.Plane.{GridPoint};
ghost use Rattle.coverage_report.specs.Cuts.{AreRowCuts};
ghost use Rattle.coverage_report.specs.Lattices.{IsLatticeOf};
ghost use Rattle.coverage_report.specs.Points.{IsReportPoint};
ghost use Rattle.coverage_report.specs.Report.{IsCoverFault, IsReportOf, IsReportOn};
ghost use Rattle.coverage_report.specs.Taken.{AreRowsTaken, IsRowTaken};

use crate::bits::count_set;
use crate::cuts::cuts_of;
use crate::fault::CoverFault;
use crate::lattice::{Lattice, lattice_of};
use crate::marks::{Marks, clear_cut};
use crate::row::Row;
use crate::runs::push_runs;
use depth_rule::Scene;
use plane_exact::{Bit, LineMove, Run, Uncut};
use std::alloc::{AllocError, Global};

/// The greatest distance of the points of a report, in grid units.
pub const MOST_PITCH: u32 = 32_767;

/// The most points that a report may have, cut and uncut, inside the drawing or not.
pub const MOST_POINTS: u64 = 16_777_216;

/// Which points inside the scene's drawing no moment of any move removes. The points of the report are those of the drawing's
/// bounding box of which both coordinates, in grid units, are multiples of the pitch, which is from 1 to 32,767. The runs go
/// upwards row by row, and each row to the right.
pub fn uncut(
    alloc: Global,
    scene: &Scene,
    bit: &Bit,
    moves: &[LineMove],
    pitch: u32,
) -> Result<Uncut, CoverFault>
    requires { IsFromOneTo MOST_PITCH pitch }
    ensures { MatchResult result (λ uncut. IsReportOn scene.now bit.now moves.now pitch uncut) (λ fault. IsCoverFault scene.now pitch fault) }
{
    marked_uncut(alloc, scene, scene, bit, moves, pitch)
}

/// Which marked points, of those of the report of `uncut`, no moment of any move removes, in the same order. `drawing` counts the marked
/// points in place of those inside the drawing.
pub fn marked_uncut<M: Marks>(
    alloc: Global,
    scene: &Scene,
    marks: &M,
    bit: &Bit,
    moves: &[LineMove],
    pitch: u32,
) -> Result<Uncut, CoverFault>
    requires { IsFromOneTo MOST_PITCH pitch }
    ensures { MatchResult result (λ uncut. IsReportOf (IsReportPoint scene.now pitch) (M.is_marked marks.now) bit.now moves.now pitch uncut) (λ fault. IsCoverFault scene.now pitch fault) }
{
    let Some(lattice) = report_lattice(scene, pitch) else {
        return Ok(Uncut {
            runs: Vec::new(alloc),
            drawing: 0,
            left: 0,
        });
    };
    if lattice.count() > MOST_POINTS {
        return Err(CoverFault::TooManyPoints);
    }
    Ok(take_rows(alloc, marks, bit, moves, &lattice)?)
}

// The points of the report; None where it has none.
fn report_lattice(scene: &Scene, pitch: u32) -> Option<Lattice>
    requires { IsFromOneTo MOST_PITCH pitch }
    ensures { MatchOption result ((p : GridPoint) → ¬ IsReportPoint scene.now pitch p) (λ lattice. IsLatticeOf scene.now pitch lattice) }
{
    lattice_of(scene.bounds()?, pitch)
}

// The points of the lattice that are marked and that no move removes, row by row upwards. One buffer holds the bits of a row.
fn take_rows<M: Marks>(
    alloc: Global,
    marks: &M,
    bit: &Bit,
    moves: &[LineMove],
    lattice: &Lattice,
) -> Result<Uncut, AllocError>
    ensures { IfOk result (λ uncut. AreRowsTaken (M.is_marked marks.now) bit.now moves.now lattice.now lattice.now.rows uncut.runs uncut.drawing uncut.left) }
{
    let cuts = cuts_of(alloc, lattice, bit, moves)?;
    let mut bits = vec![in alloc; 0; (lattice.columns() as usize + 63) / 64]?;
    let mut runs = Vec::new(alloc);
    let mut drawing = 0;
    let mut left = 0;
    for k in 0..lattice.rows() {
        let row = lattice.row(k);
        let cut = cuts.row(k);
        let counts = take_row(marks, &row, cut, &mut bits, &mut runs)?;
        drawing += counts.drawing;
        left += counts.left;
    }
    Ok(Uncut {
        runs,
        drawing,
        left,
    })
}

// How many points of a row are marked, and how many of these no move removes.
#[derive(Clone, Copy)]
struct Counts {
    drawing: u64,
    left: u64,
}

// The same of one row; `cut` tells which of its points moves remove, and its bits are what `bits` are afterwards.
fn take_row<M: Marks>(
    marks: &M,
    row: &Row,
    cut: &[u64],
    bits: &mut [u64],
    runs: &mut Vec<Run>,
) -> Result<Counts, AllocError>
    requires words { length bits.old ≡ (row.now.count + 63) / 64 }
    requires cut { length cut.now ≡ (row.now.count + 63) / 64 }
    ensures { (cone : Cone) (moves : List LineMove) → AreRowCuts cone moves row.now cut.now → IfOk result (λ counts. IsRowTaken (M.is_marked marks.now) cone moves row.now runs.old.items runs.new.items counts.drawing counts.left) }
{
    marks.mark_row(row.y, row.x, row.pitch, row.count, bits);
    let drawing = count_set(row, bits);
    clear_cut(cut, bits);
    let left = count_set(row, bits);
    push_runs(row, bits, runs)?;
    Ok(Counts { drawing, left })
}
