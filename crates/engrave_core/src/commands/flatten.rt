// `flatten`: the drawing in loops form.
ghost use Rattle.std.specs.Prelude.{◌≡◌, ◌++◌, IfOk, IfErr, string_bytes};
ghost use Rattle.loops_text.specs.Writing.{written_loops};
ghost use Rattle.job_words.specs.Shape.{IsShapeInRange};
ghost use Rattle.engrave_core.specs.Commands.Flatten.{IsDueOfFlatten, IsRefusalOfFlatten, skipped_line};
ghost use Rattle.engrave_core.specs.Given.{IsReported};
ghost use Rattle.engrave_core.specs.Outcome.{outcome_of};
ghost use Rattle.engrave_core.specs.Stored.{AnswersFrom};

use crate::drawing::{Loaded, load_drawing};
use crate::refusal::Refusal;
use job_words::DrawingWords;
use loops_text::write_loops;
use shop_port::Depot;
use std::alloc::{AllocError, Global};

/// The loops of the drawing, a line each, or the refusal of it.
pub fn run<D: Depot>(alloc: Global, shape: &DrawingWords, depot: &mut D) -> Result<Vec<u8>, Refusal>
    requires { IsShapeInRange shape.now }
    ensures value { AnswersFrom D.held D.faults D.misses depot.old depot.new
        (λ files. IsReported (IsDueOfFlatten files shape.now)) result }
    ensures refusal { IfErr result (λ refusal. IsRefusalOfFlatten shape.now (outcome_of refusal)) }
{
    let loaded = load_drawing(alloc, shape, depot)?;
    Ok(loops_text(alloc, &loaded)?)
}

/// How many entities were skipped, where the drawing's form skips any, and the loops.
fn loops_text(alloc: Global, loaded: &Loaded) -> Result<Vec<u8>, AllocError>
    ensures { IfOk result (λ text. text.items ≡ skipped_line loaded.now.skipped ++ written_loops loaded.now.scene) }
{
    let mut text = skipped_text(alloc, loaded.skipped)?.into_bytes();
    text.extend_from_slice(&write_loops(alloc, loaded.scene.drawing())?)?;
    Ok(text)
}

fn skipped_text(alloc: Global, skipped: Option<u32>) -> Result<String, AllocError>
    ensures { IfOk result (λ text. string_bytes text ≡ skipped_line skipped) }
{
    match skipped {
        Some(count) => format!(in alloc; "# skipped {count}\n"),
        None => Ok(String::new(alloc)),
    }
}
