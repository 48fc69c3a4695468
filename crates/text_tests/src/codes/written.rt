// Written programs by their whole text, and their moves. The expected texts and places are written by hand.
ghost use Rattle.std.specs.Prelude.{◌≡◌, ◌≤◌, IfOk, length};
ghost use Rattle.plane_exact.specs.Nodes.{AreWithinLimits};
ghost use Rattle.plane_exact.specs.Plane.{IsOnGrid};
ghost use Rattle.gcode_text.specs.Path.{IsJob};

use super::{MOST, text_of};
use crate::points::point;
use gcode_text::{Job, Subject, chain_moves, read_code, write_code, write_report, write_strokes};
use grid_num::Units;
use plane_exact::{Bit, Chain, Node, Run, Uncut};
use std::alloc::{AllocError, Global};
use std::process::Abort;
use std::str;
use std::test::Fail;

const PLATE: &str =
    "(bit 1/1 rmax 2 limit 32767 step 2)\nG21\nG90\nF500\nG0 Z2.00\nG0 X0.00 Y0.00\nG1 Z0.00\n\
    G1 X0.02 Y0.02 Z-0.02\nG1 X0.04 Y0.00 Z0.00\nG0 Z2.00\n(uncut y 2 x 2 to 2)\n(uncut 1 of 9)\nM2\n";

const EMPTY: &str =
    "(bit 1/1 rmax 2 limit 32767 step 2)\nG21\nG90\nF500\nG0 Z2.00\n(uncut 0 of 0)\nM2\n";

const STROKES: &str =
    "(strokes 3 chains 1 depth 10)\nG21\nG90\nF500\nG0 Z2.00\nG0 X0.00 Y0.00\nG1 Z-0.10\n\
    G1 X1.00 Y0.00 Z-0.10\nG1 X1.00 Y1.00 Z-0.10\nG1 X0.00 Y1.00 Z-0.10\nG0 Z2.00\n(cut 7 of 9)\nM2\n";

const REPORT: &str = "> uncut y -3 x -32768 to -1\n> uncut y 32767 x -2 to 0\n\
    > uncut 18446744073709551614 of 18446744073709551615\n";

fn job() -> Job
    ensures { IsJob result }
{
    Job {
        units: Units::Mm100,
        safe: 200,
        feed: 500,
        bit: Bit::new(1, 1, 2).unwrap(),
        limit: 32_767,
        step: 2,
    }
}

fn node(x: i64, y: i64, depth: u32) -> Node
    requires place { IsOnGrid x y }
    requires depth { depth ≤ 32767 }
{
    let at = point(x, y);
    Node { at, depth }
}

// Down to the middle and up to the other corner.
fn zigzag(alloc: Global) -> Result<Chain, AllocError>
    ensures { IfOk result (λ chain. length chain ≡ 3) }
{
    let mut chain = Chain::one(alloc, node(0, 0, 0))?;
    chain.push(node(2, 2, 2))?;
    chain.push(node(4, 0, 0))?;
    Ok(chain)
}

// Three sides of a square at one depth.
fn three_sides(alloc: Global) -> Result<Chain, AllocError> {
    let mut chain = Chain::one(alloc, node(0, 0, 10))?;
    chain.push(node(100, 0, 10))?;
    chain.push(node(100, 100, 10))?;
    chain.push(node(0, 100, 10))?;
    Ok(chain)
}

fn uncut(alloc: Global, runs: &[Run], left: u64, drawing: u64) -> Result<Uncut, AllocError> {
    Ok(Uncut {
        runs: Vec::from_slice(alloc, runs)?,
        drawing,
        left,
    })
}

// The text of the program of these chains is the wanted one.
fn expect_code(
    rt: &impl Abort,
    alloc: Global,
    chains: &[Chain],
    uncut: &Uncut,
    want: &str,
) -> Result<(), AllocError> {
    let code = write_code(alloc, &job(), chains, uncut)?;
    assert_eq!(rt; str::from_utf8(&code).ok(), Some(want));
    Ok(())
}

#[test]
fn texts_of_programs(rt: HostRuntime) -> Result<(), Fail> {
    let alloc = rt.alloc();
    let chains = [zigzag(alloc)?];
    let run = Run { y: 2, x0: 2, x1: 2 };
    expect_code(&rt, alloc, &chains, &uncut(alloc, &[run], 1, 9)?, PLATE)?;
    expect_code(&rt, alloc, &[], &uncut(alloc, &[], 0, 0)?, EMPTY)?;
    Ok(())
}

#[test]
fn text_of_three_strokes(rt: HostRuntime) -> Result<(), Fail> {
    let alloc = rt.alloc();
    let chain = [three_sides(alloc)?];
    let code = write_strokes(alloc, &job(), 3, 10, &chain, 7, 9)?;
    assert_eq!(rt; str::from_utf8(&code).ok(), Some(STROKES));
    Ok(())
}

#[test]
fn lines_of_a_report(rt: HostRuntime) -> Result<(), Fail> {
    let alloc = rt.alloc();
    let runs = [
        Run {
            y: -3,
            x0: -32_768,
            x1: -1,
        },
        Run {
            y: 32_767,
            x0: -2,
            x1: 0,
        },
    ];
    let mut text = Vec::new(alloc);
    write_report(
        Subject::Uncut,
        &uncut(alloc, &runs, u64::MAX - 1, u64::MAX)?,
        "> ",
        "\n",
        &mut text,
    )?;
    assert_eq!(rt; str::from_utf8(&text).ok(), Some(REPORT));
    Ok(())
}

// Two chains, of three nodes and of one.
fn two_chains(alloc: Global) -> Result<Vec<Chain>, AllocError>
    ensures { IfOk result (λ chains. AreWithinLimits chains.items) }
{
    let mut chains = Vec::new(alloc);
    chains.push(zigzag(alloc)?)?;
    chains.push(Chain::one(alloc, node(-5, 3, 7))?)?;
    Ok(chains)
}

#[test]
fn moves_of_chains(rt: HostRuntime) -> Result<(), Fail> {
    let alloc = rt.alloc();
    let job = job();
    let chains = two_chains(alloc)?;
    let moves = chain_moves(alloc, &job, &chains)?;
    let code = write_code(alloc, &job, &chains, &uncut(alloc, &[], 0, 16)?)?;
    assert!(rt; code.len() <= MOST);
    let read = text_of(alloc, read_code(alloc, job.units, &code))?;
    let made = text_of(alloc, Ok(moves))?;
    assert_eq!(rt; made.as_str(), read.as_str());
    assert_eq!(rt;
        made.as_str(),
        "7: 0 0 2000 > 0 0 0; 8: 0 0 0 > 20 20 -20; 9: 20 20 -20 > 40 0 0; 10: 40 0 0 > 40 0 2000; \
         11: 40 0 2000 > -50 30 2000; 12: -50 30 2000 > -50 30 -70; 13: -50 30 -70 > -50 30 2000; "
    );
    Ok(())
}
