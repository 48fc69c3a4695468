// `check`: the verdict on a G-code program, over a drawing. The program is judged as it comes, and never stored.
ghost use Rattle.std.specs.Prelude.{◌≡◌, ◌≤◌, length, IfOk, IfErr, string_bytes};
ghost use Rattle.engrave_model.specs.Drawing.{edges_of};
ghost use Rattle.job_words.specs.Shape.{IsShapeInRange};
ghost use Rattle.engrave_core.specs.Commands.Check.{IsDueOfCheck, IsRefusalOfCheck, IsRefusalOfVerdict, IsReportOf, clear_line};
ghost use Rattle.engrave_core.specs.Given.{IsReported};
ghost use Rattle.engrave_core.specs.Refusals.{IsRefusalOfStoredCode};
ghost use Rattle.engrave_core.specs.Stored.{AnswersFrom, stored_code};
ghost use Rattle.engrave_core.specs.Streamed.{IsJudgedAs};
ghost use Rattle.engrave_core.specs.Outcome.{outcome_of};

use crate::drawing::load_drawing;
use crate::refusal::Refusal;
use crate::stream::check_stream;
use depth_rule::Scene;
use gouge_checker::Verdict;
use grid_num::Units;
use job_words::{DrawingWords, Text};
use plane_exact::Bit;
use shop_port::Depot;
use std::alloc::{AllocError, Global};

/// The most bytes of a program that are held at a time.
const PIECE: usize = 65_536;

/// The text of a clear program, or the refusal of the drawing, of the program or by the verdict.
pub fn run<D: Depot>(
    alloc: Global,
    shape: &DrawingWords,
    code: &Text,
    bit: &Bit,
    depot: &mut D,
) -> Result<Vec<u8>, Refusal>
    requires { IsShapeInRange shape.now }
    ensures value { AnswersFrom D.held D.faults D.misses depot.old depot.new
        (λ files. IsReported (IsDueOfCheck files shape.now code.now bit.now)) result }
    ensures refusal { IfErr result (λ refusal. IsRefusalOfCheck shape.now (outcome_of refusal)) }
{
    let loaded = load_drawing(alloc, shape, depot)?;
    let mut buffer = zeros(alloc)?;
    // That the bit has some width is known from its slope.
    let _slope = bit.sn();
    let (verdict, count) = judge_code(
        &loaded.scene,
        bit,
        shape.units,
        code.as_str(),
        depot,
        &mut buffer,
    )?;
    verdict_text(alloc, verdict, count)
}

/// A buffer for the pieces of a program.
fn zeros(alloc: Global) -> Result<Vec<u8>, AllocError>
    ensures { IfOk result (λ v. length v.items ≡ PIECE) }
{
    vec![in alloc; 0; PIECE]
}

/// The verdict on the G-code program in the file of this name, and how many moves it has, or the refusal of the program.
#[tactic(auto, unfolding(crate::specs::Stored::stored_code, crate::specs::Stored::code_of))]
fn judge_code<D: Depot>(
    scene: &Scene,
    bit: &Bit,
    units: Units,
    name: &str,
    depot: &mut D,
    buffer: &mut [u8],
) -> Result<(Verdict, u32), Refusal>
    requires { 1 ≤ length buffer.old }
    ensures value { AnswersFrom D.held D.faults D.misses depot.old depot.new
        (λ files. IsJudgedAs (edges_of scene.now) bit.now (stored_code files units name.now)) result }
    ensures refusal { IfErr result (λ refusal. IsRefusalOfStoredCode (outcome_of refusal)) }
{
    Ok(check_stream(scene, bit, units, depot, name, buffer)?)
}

/// `clear COUNT moves`, or the verdict as a refusal.
fn verdict_text(alloc: Global, verdict: Verdict, count: u32) -> Result<Vec<u8>, Refusal>
    ensures value { IsReported (IsReportOf count verdict) result }
    ensures refusal { IfErr result (λ refusal. IsRefusalOfVerdict (outcome_of refusal)) }
{
    match verdict {
        Verdict::Clear => Ok(clear_text(alloc, count)?.into_bytes()),
        fault => Err(Refusal::NotClear(fault)),
    }
}

fn clear_text(alloc: Global, count: u32) -> Result<String, AllocError>
    ensures { IfOk result (λ text. string_bytes text ≡ clear_line count) }
{
    format!(in alloc; "clear {count} moves\n")
}
