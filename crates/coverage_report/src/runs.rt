// The runs of points of a row whose bits are 1.
ghost use Rattle.std.specs.Prelude.{◌≡◌, ◌+◌, ◌/◌, ◌<◌, ◌≤◌, length, OnOk};
ghost use Rattle.coverage_report.specs.Rows.{ArePushed};
ghost use Rattle.coverage_report.specs.RowRuns.{run_at};

use crate::bits::is_set;
use crate::row::Row;
use plane_exact::Run;
use std::alloc::AllocError;

// The run of the row's points from the first to before the end.
fn run_of(row: &Row, first: u32, end: u32) -> Run
    requires some { first < end }
    requires within { end ≤ row.now.count }
    ensures { result ≡ run_at row.now first end }
{
    let from = row.point(first);
    Run {
        y: from.y(),
        x0: from.x(),
        x1: row.point(end - 1).x(),
    }
}

/// Adds the maximal runs of the row's points whose bits are 1.
pub fn push_runs(row: &Row, bits: &[u64], runs: &mut Vec<Run>) -> Result<(), AllocError>
    requires { length bits.now ≡ (row.now.count + 63) / 64 }
    ensures { OnOk result (ArePushed row.now bits.now runs.old.items runs.new.items) }
{
    let mut going = None;
    for i in 0..row.count {
        match going {
            None => {
                if is_set(bits, i) {
                    going = Some(i);
                }
            }
            Some(first) => {
                let ends = !is_set(bits, i);
                if ends {
                    runs.push(run_of(row, first, i))?;
                    going = None;
                }
            }
        }
    }
    if let Some(first) = going {
        runs.push(run_of(row, first, row.count))?;
    }
    Ok(())
}
