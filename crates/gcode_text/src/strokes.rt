// The program that engraves strokes.
ghost use Rattle.std.specs.Prelude.{◌≡◌, length, string_bytes, IfOk};
ghost use Rattle.plane_exact.specs.Nodes.{AreWithinLimits};
ghost use Rattle.gcode_text.specs.Path.{IsJob};
ghost use Rattle.gcode_text.specs.Strokes.{AreStrokesReadBack, cut_note, strokes_text, strokes_title};

use crate::job::Job;
use crate::writer::write_path;
use crate::written::{write_end, write_note};
use plane_exact::Chain;
use std::alloc::{AllocError, Global};

/// The text of the program that engraves so many strokes at the depth, in grid units, along these chains: as that of `write_code`,
/// with a title of its own, and for a report how many points it cuts of how many. It says nothing of the job's bit, limit and step.
/// The error is running out of memory.
pub fn write_strokes(
    alloc: Global,
    job: &Job,
    strokes: u32,
    depth: u32,
    chains: &[Chain],
    cut: u64,
    points: u64,
) -> Result<Vec<u8>, AllocError>
    requires { IsJob job.now }
    // The text of the program.
    ensures text { IfOk result (λ code. code.items ≡ strokes_text job.now strokes depth chains.now cut points) }
    // It is read as exactly the moves through the chains' nodes.
    ensures read_back { IfOk result (λ _. AreWithinLimits chains.now → AreStrokesReadBack job.now strokes depth chains.now cut points) }
{
    let title = title_of(alloc, strokes, chains.len(), depth)?;
    let mut code = write_path(alloc, title.as_str(), job, chains)?;
    let note = note_of(alloc, cut, points)?;
    write_note(note.as_str(), &mut code)?;
    write_end(&mut code)?;
    Ok(code)
}

#[tactic(auto, unfolding(crate::specs::Strokes::strokes_title))]
fn title_of(alloc: Global, strokes: u32, chains: usize, depth: u32) -> Result<String, AllocError>
    ensures { IfOk result (λ title. string_bytes title ≡ strokes_title strokes chains depth) }
{
    format!(in alloc; "strokes {strokes} chains {chains} depth {depth}")
}

#[tactic(auto, unfolding(crate::specs::Strokes::cut_note))]
fn note_of(alloc: Global, cut: u64, points: u64) -> Result<String, AllocError>
    ensures { IfOk result (λ note. string_bytes note ≡ cut_note cut points) }
{
    format!(in alloc; "cut {cut} of {points}")
}
