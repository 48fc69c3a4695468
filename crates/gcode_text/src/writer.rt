// The program of a job: its text, and what a reader of it finds.
ghost use Rattle.std.specs.Prelude.{◌≡◌, ◌++◌, All, flat_map, map, string_bytes, IfOk, OnOk};
ghost use Rattle.plane_exact.specs.Nodes.{AreWithinLimits, IsChain};
ghost use Rattle.gcode_text.specs.Path.{IsJob, IsReadBack, chain_lines, job_note, node_line, path_text, program_text, setup_lines};
ghost use Rattle.gcode_text.specs.Written.{code_text};

use crate::job::Job;
use crate::report::{Subject, write_report};
use crate::written::{
    Motion, write_end, write_height, write_modes, write_node, write_note, write_travel,
};
use grid_num::Units;
use plane_exact::{Chain, Node, Uncut};
use std::alloc::{AllocError, Global};

/// The text of the job's program: the bit is taken over the first node of each chain at the safe height, down to the node,
/// straight through the others, and up again. Behind that stand the lines of the report, each a comment, and the end. The error
/// is running out of memory.
pub fn write_code(
    alloc: Global,
    job: &Job,
    chains: &[Chain],
    uncut: &Uncut,
) -> Result<Vec<u8>, AllocError>
    requires { IsJob job.now }
    // The text of the program.
    ensures text { IfOk result (λ code. code.items ≡ program_text job.now chains.now uncut.now) }
    // It is read as exactly the moves through the chains' nodes.
    ensures read_back { IfOk result (λ _. AreWithinLimits chains.now → IsReadBack job.now chains.now uncut.now) }
{
    let title = title_of(alloc, job)?;
    let mut code = write_path(alloc, title.as_str(), job, chains)?;
    write_report(Subject::Uncut, uncut, "(", ")\n", &mut code)?;
    write_end(&mut code)?;
    Ok(code)
}

/// The program of this title but for its notes and its end.
pub fn write_path(
    alloc: Global,
    title: &str,
    job: &Job,
    chains: &[Chain],
) -> Result<Vec<u8>, AllocError>
    ensures text { IfOk result (λ code. code.items ≡ path_text title.now job.now chains.now) }
    ensures range { IfOk result (λ _. All IsChain chains.now) }
{
    let mut code = Vec::new(alloc);
    write_note(title, &mut code)?;
    write_setup(job, &mut code)?;
    write_chains(job, chains, &mut code)?;
    Ok(code)
}

fn write_chains(job: &Job, chains: &[Chain], code: &mut Vec<u8>) -> Result<(), AllocError>
    ensures text { OnOk result (code.new.items ≡ code.old.items ++ code_text (flat_map (chain_lines job.now) chains.now)) }
    ensures range { OnOk result (All IsChain chains.now) }
{
    for chain in chains {
        write_chain(job, chain, code)?;
    }
    Ok(())
}

fn write_chain(job: &Job, chain: &Chain, code: &mut Vec<u8>) -> Result<(), AllocError>
    ensures text { OnOk result (code.new.items ≡ code.old.items ++ code_text (chain_lines job.now chain.now)) }
    ensures range { IsChain chain.now }
{
    if let [first, rest @ ..] = chain.nodes() {
        write_travel(job.units, first.at, code)?;
        write_height(job.units, Motion::Straight, -i64::from(first.depth), code)?;
        write_nodes(job.units, rest, code)?;
        write_height(job.units, Motion::Rapid, i64::from(job.safe), code)?;
    }
    Ok(())
}

fn write_nodes(units: Units, nodes: &[Node], code: &mut Vec<u8>) -> Result<(), AllocError>
    ensures { OnOk result (code.new.items ≡ code.old.items ++ code_text (map (node_line units) nodes.now)) }
{
    for node in nodes {
        write_node(units, *node, code)?;
    }
    Ok(())
}

/// The modes, and up to the safe height.
#[tactic(auto, unfolding(crate::specs::Path::setup_lines))]
fn write_setup(job: &Job, code: &mut Vec<u8>) -> Result<(), AllocError>
    ensures { OnOk result (code.new.items ≡ code.old.items ++ code_text (setup_lines job.now)) }
{
    write_modes(job.units, job.feed, code)?;
    write_height(job.units, Motion::Rapid, i64::from(job.safe), code)
}

#[tactic(auto, unfolding(crate::specs::Path::job_note))]
fn title_of(alloc: Global, job: &Job) -> Result<String, AllocError>
    ensures { IfOk result (λ title. string_bytes title ≡ job_note job.now) }
{
    let (sn, sd, rmax) = (job.bit.sn(), job.bit.sd(), job.bit.rmax());
    format!(in alloc;
        "bit {sn}/{sd} rmax {rmax} limit {} step {}",
        job.limit, job.step
    )
}
