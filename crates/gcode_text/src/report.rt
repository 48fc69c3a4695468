// Writes the report on what a program leaves, a line for each run of points and one for the counts.
ghost use Rattle.std.specs.Prelude.{◌≡◌, ◌<◌, ◌^◌, ◌++◌, All, OnOk, decimal, map};
ghost use Rattle.grid_num.specs.Written.{decimal_text};
ghost use Rattle.plane_exact.specs.Uncut.{IsRun};
ghost use Rattle.gcode_text.specs.Report.{IsReport, count_line, lines_between, report_lines, run_line, subject_word};

use grid_num::write_decimal;
use itoa::Buffer;
use plane_exact::{Run, Uncut};
use std::alloc::AllocError;

/// What a report is about.
#[derive(Clone, Copy, Debug, PartialEq, Eq)]
pub enum Subject {
    /// The points inside a drawing that a conical bit leaves uncut.
    Uncut,
    /// The points of a floor that a flat bit doesn't reach.
    Floor,
}

impl Subject {
    ghost use Rattle.std.specs.Prelude.{◌≡◌};
    ghost use Rattle.gcode_text.specs.Report.{subject_word};

    /// The word with which each line of the report begins.
    fn word(self) -> &'static str
        ensures { result.now ≡ subject_word self }
    {
        match self {
            Subject::Uncut => "uncut",
            Subject::Floor => "floor",
        }
    }
}

/// Appends the lines of the report, each between the two texts. The error is running out of memory.
pub fn write_report(
    subject: Subject,
    uncut: &Uncut,
    before: &str,
    behind: &str,
    out: &mut Vec<u8>,
) -> Result<(), AllocError>
    ensures text { OnOk result (out.new.items ≡ out.old.items ++ lines_between before.now behind.now (report_lines subject uncut.now)) }
    // The numbers of a report are in their ranges.
    ensures range { OnOk result (IsReport uncut.now) }
{
    write_runs(subject, &uncut.runs, before, behind, out)?;
    out.extend_from_slice(before.as_bytes())?;
    write_counts(subject, uncut, out)?;
    out.extend_from_slice(behind.as_bytes())
}

fn write_runs(
    subject: Subject,
    runs: &[Run],
    before: &str,
    behind: &str,
    out: &mut Vec<u8>,
) -> Result<(), AllocError>
    ensures text { OnOk result (out.new.items ≡ out.old.items ++ lines_between before.now behind.now (map (run_line subject) runs.now)) }
    ensures range { OnOk result (All (λ run. IsRun run.y run.x0 run.x1) runs.now) }
{
    for run in runs {
        out.extend_from_slice(before.as_bytes())?;
        write_run(subject, run, out)?;
        out.extend_from_slice(behind.as_bytes())?;
    }
    Ok(())
}

#[tactic(auto, unfolding(crate::specs::Report::run_line))]
fn write_run(subject: Subject, run: &Run, out: &mut Vec<u8>) -> Result<(), AllocError>
    ensures text { OnOk result (out.new.items ≡ out.old.items ++ run_line subject run.now) }
    ensures range { OnOk result (IsRun run.now.y run.now.x0 run.now.x1) }
{
    out.extend_from_slice(subject.word().as_bytes())?;
    write_number(" y ", run.y, out)?;
    write_number(" x ", run.x0, out)?;
    write_number(" to ", run.x1, out)
}

#[tactic(auto, unfolding(crate::specs::Report::count_line))]
fn write_counts(subject: Subject, uncut: &Uncut, out: &mut Vec<u8>) -> Result<(), AllocError>
    ensures text { OnOk result (out.new.items ≡ out.old.items ++ count_line subject uncut.now) }
    ensures range { OnOk result ((uncut.now.drawing < 2 ^ 64) × (uncut.now.left < 2 ^ 64)) }
{
    out.extend_from_slice(subject.word().as_bytes())?;
    write_count(" ", uncut.left, out)?;
    write_count(" of ", uncut.drawing, out)
}

fn write_number(name: &str, number: i32, out: &mut Vec<u8>) -> Result<(), AllocError>
    ensures { OnOk result (out.new.items ≡ out.old.items ++ (name.now ++ decimal_text 0 number)) }
{
    out.extend_from_slice(name.as_bytes())?;
    write_decimal(i64::from(number), 1, out)
}

/// Appends the name and the count.
pub fn write_count(name: &str, count: u64, out: &mut Vec<u8>) -> Result<(), AllocError>
    ensures text { OnOk result (out.new.items ≡ out.old.items ++ (name.now ++ decimal count)) }
    ensures range { count < 2 ^ 64 }
{
    let mut digits = Buffer::new();
    out.extend_from_slice(name.as_bytes())?;
    out.extend_from_slice(digits.format(count).as_bytes())
}
