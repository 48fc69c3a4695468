// How many points of a box a program cuts.
ghost use Rattle.std.specs.Prelude.{◌≡◌, IfOk, MatchResult};
ghost use Rattle.plane_exact.specs.Cone.{IsFromOneTo};
ghost use Rattle.coverage_report.specs.Counts.{AreCounts, IsCountIn};
ghost use Rattle.coverage_report.specs.Cuts.{IsCut};
ghost use Rattle.coverage_report.specs.Lattices.{IsBoxPoint};
ghost use Rattle.coverage_report.specs.Report.{IsReportFault};

use crate::bits::count_set;
use crate::cover::{MOST_PITCH, MOST_POINTS};
use crate::cuts::cuts_of;
use crate::fault::CoverFault;
use crate::lattice::{Lattice, lattice_of};
use depth_rule::Bounds;
use plane_exact::{Bit, LineMove};
use std::alloc::{AllocError, Global};

/// How many points of a box a program cuts.
#[derive(Clone, Copy, Debug, PartialEq, Eq)]
pub struct CutCount {
    /// The points that some moment of some move removes.
    pub cut: u64,
    /// All points.
    pub points: u64,
}

/// How many points of the box have both coordinates, in grid units, multiples of the pitch, which is from 1 to 32,767, and how many
/// of them some moment of some move removes. It is a fault if they are more than a report may have.
pub fn count_cut(
    alloc: Global,
    bounds: Bounds,
    bit: &Bit,
    moves: &[LineMove],
    pitch: u32,
) -> Result<CutCount, CoverFault>
    requires { IsFromOneTo MOST_PITCH pitch }
    ensures { MatchResult result (λ count. AreCounts (IsBoxPoint bounds.low bounds.high pitch) (IsCut bit.now moves.now) count.cut count.points) (λ fault. IsReportFault (IsBoxPoint bounds.low bounds.high pitch) fault) }
{
    let Some(lattice) = lattice_of(bounds, pitch) else {
        return Ok(CutCount { cut: 0, points: 0 });
    };
    let points = lattice.count();
    if points > MOST_POINTS {
        return Err(CoverFault::TooManyPoints);
    }
    let cut = count_rows(alloc, &lattice, bit, moves)?;
    Ok(CutCount { cut, points })
}

// How many points of the lattice some moment of some move removes, row by row upwards.
fn count_rows(
    alloc: Global,
    lattice: &Lattice,
    bit: &Bit,
    moves: &[LineMove],
) -> Result<u64, AllocError>
    ensures { IfOk result (λ cut. IsCountIn lattice.now lattice.now.rows (IsCut bit.now moves.now) cut) }
{
    let cuts = cuts_of(alloc, lattice, bit, moves)?;
    // its range, by which the counts are small enough
    let _columns = lattice.columns();
    let mut cut = 0;
    for k in 0..lattice.rows() {
        cut += count_set(&lattice.row(k), cuts.row(k));
    }
    Ok(cut)
}
