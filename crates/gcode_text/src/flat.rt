// The program of a flat bit that mills a floor.
ghost use Rattle.std.specs.Prelude.{◌≡◌, string_bytes, IfOk};
ghost use Rattle.plane_exact.specs.Nodes.{AreWithinLimits};
ghost use Rattle.gcode_text.specs.Flat.{IsFlatReadBack, flat_text, flat_title};
ghost use Rattle.gcode_text.specs.Path.{IsJob};

use crate::job::Job;
use crate::report::{Subject, write_report};
use crate::writer::write_path;
use crate::written::write_end;
use plane_exact::{Chain, Uncut};
use std::alloc::{AllocError, Global};

/// The text of the program that mills along these chains with a flat bit of this radius, in grid units: as that of `write_code`, with a
/// title of its own, and the report on the floor that it leaves. It says nothing of the job's bit, limit and step. The error is running
/// out of memory.
pub fn write_flat(
    alloc: Global,
    job: &Job,
    radius: u32,
    chains: &[Chain],
    left: &Uncut,
) -> Result<Vec<u8>, AllocError>
    requires { IsJob job.now }
    // The text of the program.
    ensures text { IfOk result (λ code. code.items ≡ flat_text job.now radius chains.now left.now) }
    // It is read as exactly the moves through the chains' nodes.
    ensures read_back { IfOk result (λ _. AreWithinLimits chains.now → IsFlatReadBack job.now radius chains.now left.now) }
{
    let title = title_of(alloc, radius)?;
    let mut code = write_path(alloc, title.as_str(), job, chains)?;
    write_report(Subject::Floor, left, "(", ")\n", &mut code)?;
    write_end(&mut code)?;
    Ok(code)
}

#[tactic(auto, unfolding(crate::specs::Flat::flat_title))]
fn title_of(alloc: Global, radius: u32) -> Result<String, AllocError>
    ensures { IfOk result (λ title. string_bytes title ≡ flat_title radius) }
{
    format!(in alloc; "flat {radius}")
}
