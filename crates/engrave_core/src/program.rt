// The G-code program that carves a drawing: of its plan, with the report on what it leaves uncut.
ghost use Rattle.std.specs.Prelude.{◌≡◌, IfErr, IfOk, IfSome, MatchResult, Ok};
ghost use Rattle.cleanup_pocket.specs.declared.pockets.TheConstants.{MOST_OVER};
ghost use Rattle.coverage_report.specs.declared.cover.TheConstants.{MOST_PITCH};
ghost use Rattle.gcode_text.specs.Moves.{moves_of};
ghost use Rattle.gcode_text.specs.Path.{IsJob};
ghost use Rattle.plane_exact.specs.Cone.{IsFromOneTo};
ghost use Rattle.engrave_core.specs.Line.{line_of};
ghost use Rattle.engrave_core.specs.Outcome.{IfAnswered, outcome_of};
ghost use Rattle.engrave_core.specs.Programs.{IsProgramOf, IsRefusalOfProgram, IsUnprogrammed};

use crate::refusal::Refusal;
use carve_plan::plan;
use cleanup_pocket::{MOST_OVER, Way};
use coverage_report::{MOST_PITCH, uncut};
use depth_rule::Scene;
use gcode_text::{Job, chain_moves, write_code};
use plane_exact::{Chain, LineMove, Uncut};
use std::alloc::Global;

/// A program, and what it was written from.
#[derive(Drop)]
pub struct Program {
    pub plan: Vec<Chain>,
    pub moves: Vec<LineMove>,
    pub uncut: Uncut,
    pub text: Vec<u8>,
}

/// The program of the drawing's plan with the pocket that is asked for, and the report on its moves at this pitch; or the refusal.
pub fn program_of(
    alloc: Global,
    scene: &Scene,
    job: &Job,
    pitch: u32,
    pockets: Option<(Way, u32)>,
) -> Result<Program, Refusal>
    requires job { IsJob job.now }
    requires pitch { IsFromOneTo MOST_PITCH pitch }
    requires over { IfSome pockets (λ asked. IsFromOneTo MOST_OVER asked.1) }
    ensures value { MatchResult result
        (λ program. IsProgramOf job.now pitch pockets scene.now program.plan.items program.uncut program.text.items)
        (λ refusal. IfAnswered (outcome_of refusal) (IsUnprogrammed job.now pitch pockets scene.now (outcome_of refusal) (line_of (outcome_of refusal)))) }
    ensures moves { IfOk result (λ program. moves_of job.now.units program.text.items ≡ Ok program.moves.items) }
    ensures refusal { IfErr result (λ refusal. IsRefusalOfProgram (outcome_of refusal)) }
{
    // That the bit has some width is known from its slope.
    let _slope = job.bit.sn();
    let plan = plan(alloc, scene, &job.bit, job.limit, job.step, pockets)?;
    let moves = chain_moves(alloc, job, &plan)?;
    let uncut = uncut(alloc, scene, &job.bit, &moves, pitch)?;
    let text = write_code(alloc, job, &plan, &uncut)?;
    Ok(Program {
        plan,
        moves,
        uncut,
        text,
    })
}
