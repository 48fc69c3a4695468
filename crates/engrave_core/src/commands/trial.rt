// `trial`: a field of simple shapes is carved, read back, checked and reported on. No file is read.
ghost use Rattle.std.specs.Prelude.{◌≡◌, ◌++◌, IfErr, IfOk, MatchResult, Ok, codes, decimal, length, string_bytes};
ghost use Rattle.engrave_model.specs.Drawing.{edges_of};
ghost use Rattle.gcode_text.specs.Moves.{moves_of};
ghost use Rattle.gcode_text.specs.Path.{IsJob};
ghost use Rattle.gouge_checker.specs.Harm.{IsFit};
ghost use Rattle.plane_exact.specs.Cone.{IsFromOneTo};
ghost use Rattle.plane_exact.specs.Nodes.{AreWithinLimits, joined};
ghost use Rattle.trial_field.specs.declared.field.TheConstants.{MOST_CELLS};
ghost use Rattle.engrave_core.specs.Commands.Trial.{IsDueOfTrial, IsRefusalOfTrial, IsSummary, IsUntried, summary_of, summary_text, trial_job};
ghost use Rattle.engrave_core.specs.Given.{IsReported};
ghost use Rattle.engrave_core.specs.Line.{line_of};
ghost use Rattle.engrave_core.specs.Outcome.{IfAnswered, outcome_of};

use crate::commands::bit_of;
use crate::program::{Program, program_of};
use crate::refusal::Refusal;
use carve_plan::count_nodes;
use cleanup_pocket::Way;
use depth_rule::Scene;
use gcode_text::{FinishFault, Job, MOST_CODE_BYTES, read_code};
use gouge_checker::{Verdict, check};
use grid_num::Units;
use loops_text::Drawing;
use plane_exact::Chain;
use std::alloc::{AllocError, Global};
use tangent_disc::contacts;
use trial_field::{MOST_CELLS, trial_field};

/// The distance of the report's points, in grid units.
const PITCH: u32 = 20;

/// The distance of the pocket's rows, in grid units.
const OVER: u32 = 40;

/// The numbers that a trial prints.
#[derive(Clone, Copy)]
pub struct Summary {
    pub count: u32,
    pub loops: u32,
    pub edges: u32,
    pub contacts: usize,
    pub nodes: usize,
    pub chains: usize,
    pub moves: usize,
    pub left: u64,
    pub drawn: u64,
}

/// The lines of the field of so many cells, from 1 to 80, or the refusal of its plan or of the report.
pub fn run(alloc: Global, count: u32) -> Result<Vec<u8>, Refusal>
    requires { IsFromOneTo MOST_CELLS count }
    ensures value { IsReported (IsDueOfTrial count) result }
    ensures refusal { IfErr result (λ refusal. IsRefusalOfTrial (outcome_of refusal)) }
{
    let scene = Scene::new(alloc, trial_field(alloc, count)?)?;
    let summary = tried(alloc, count, &scene)?;
    Ok(text_of(alloc, summary)?)
}

/// The numbers of the field: it is carved, and its program is read back and checked.
fn tried(alloc: Global, count: u32, scene: &Scene) -> Result<Summary, Refusal>
    ensures value { MatchResult result (IsSummary count scene.now)
        (λ refusal. IfAnswered (outcome_of refusal) (IsUntried scene.now (outcome_of refusal) (line_of (outcome_of refusal)))) }
    ensures refusal { IfErr result (λ refusal. IsRefusalOfTrial (outcome_of refusal)) }
{
    let job = job();
    let contacts = contacts(alloc, scene.drawing(), job.step)?;
    let program = program_of(alloc, scene, &job, PITCH, Some((Way::X, OVER)))?;
    let moves = clear_moves(alloc, scene, &job, &program)?;
    Ok(summary_of(count, scene.drawing(), contacts.len(), &program, moves))
}

/// The job of a trial.
fn job() -> Job
    ensures value { result ≡ trial_job }
    ensures range { IsJob result }
{
    Job {
        units: Units::Mm100,
        safe: 200,
        feed: 500,
        bit: bit_of((1, 1), 500),
        limit: 300,
        step: 50,
    }
}

/// How many moves the program has, as its text is read back; all are clear.
// That they are those it was written from, and clear, is known. They are read and checked all the same: it is what a user does with them.
fn clear_moves(
    alloc: Global,
    scene: &Scene,
    job: &Job,
    program: &Program,
) -> Result<usize, AllocError>
    requires read { moves_of job.now.units program.now.text.items ≡ Ok program.now.moves.items }
    requires fit { IsFit (edges_of scene.now) job.now.bit program.now.moves.items }
    ensures { IfOk result (λ count. count ≡ length program.now.moves.items) }
{
    if program.text.len() > MOST_CODE_BYTES as usize {
        return Ok(program.moves.len());
    }
    let moves = match read_code(alloc, job.units, &program.text) {
        Ok(moves) => moves,
        Err(FinishFault::Memory) => return Err(AllocError),
        Err(FinishFault::Code(_)) => unreachable!(),
    };
    match check(scene, &job.bit, &moves) {
        Verdict::Clear => Ok(moves.len()),
        _ => unreachable!(),
    }
}

fn summary_of(
    count: u32,
    field: &Drawing,
    contacts: usize,
    program: &Program,
    moves: usize,
) -> Summary
    requires { AreWithinLimits program.now.plan.items }
    ensures { result ≡ summary_of count field.now contacts program.now.plan.items moves program.now.uncut }
{
    Summary {
        count,
        loops: field.loops(),
        edges: field.edges(),
        contacts,
        nodes: nodes_of(&program.plan),
        chains: program.plan.len(),
        moves,
        left: program.uncut.left,
        drawn: program.uncut.drawing,
    }
}

/// How many nodes the chains have in all.
fn nodes_of(plan: &[Chain]) -> usize
    requires { AreWithinLimits plan.now }
    ensures { result ≡ length (joined plan.now) }
{
    match count_nodes(plan) {
        Some(count) => count,
        None => unreachable!(),
    }
}

/// The four lines.
fn text_of(alloc: Global, s: Summary) -> Result<Vec<u8>, AllocError>
    ensures { IfOk result (λ text. text.items ≡ summary_text s) }
{
    let mut text = Vec::new(alloc);
    text.extend_from_slice(field_text(alloc, s.count, s.loops)?.as_bytes())?;
    text.extend_from_slice(edges_text(alloc, s.edges, s.contacts)?.as_bytes())?;
    text.extend_from_slice(nodes_text(alloc, s.nodes, s.chains)?.as_bytes())?;
    text.extend_from_slice(moves_text(alloc, s.moves)?.as_bytes())?;
    text.extend_from_slice(uncut_text(alloc, s.left, s.drawn)?.as_bytes())?;
    Ok(text)
}

fn field_text(alloc: Global, count: u32, loops: u32) -> Result<String, AllocError>
    ensures { IfOk result (λ text. string_bytes text ≡ codes "trial " ++ decimal count ++ codes " loops " ++ decimal loops ++ codes " ") }
{
    format!(in alloc; "trial {count} loops {loops} ")
}

fn edges_text(alloc: Global, edges: u32, contacts: usize) -> Result<String, AllocError>
    ensures { IfOk result (λ text. string_bytes text ≡ codes "edges " ++ decimal edges ++ codes " contacts " ++ decimal contacts ++ codes "\n") }
{
    format!(in alloc; "edges {edges} contacts {contacts}\n")
}

fn nodes_text(alloc: Global, nodes: usize, chains: usize) -> Result<String, AllocError>
    ensures { IfOk result (λ text. string_bytes text ≡ codes "nodes " ++ decimal nodes ++ codes " chains " ++ decimal chains ++ codes "\n") }
{
    format!(in alloc; "nodes {nodes} chains {chains}\n")
}

fn moves_text(alloc: Global, moves: usize) -> Result<String, AllocError>
    ensures { IfOk result (λ text. string_bytes text ≡ codes "clear " ++ decimal moves ++ codes " moves\n") }
{
    format!(in alloc; "clear {moves} moves\n")
}

fn uncut_text(alloc: Global, left: u64, drawn: u64) -> Result<String, AllocError>
    ensures { IfOk result (λ text. string_bytes text ≡ codes "uncut " ++ decimal left ++ codes " of " ++ decimal drawn ++ codes "\n") }
{
    format!(in alloc; "uncut {left} of {drawn}\n")
}
