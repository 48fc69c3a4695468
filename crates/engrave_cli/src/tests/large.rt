// A drawing of some thousand edges, and a G-code program of some thousand moves.

use super::{expect, plain_run};
use std::alloc::{AllocError, Global};
use std::test::Fail;

/// A plate with 32 times 32 square holes, each 10 grid units wide, around the points with coordinates from 600 to 19,200
/// in steps of 600. Its 4,100 edges are those of the plate, 0 to 3, and then four for each hole.
fn sieve(alloc: Global) -> Result<String, AllocError> {
    let mut drawing = String::from_str(alloc, "0,0 19800,0 19800,19800 0,19800\n")?;
    for row in 1..33u32 {
        for column in 1..33u32 {
            let (left, right) = (600 * column - 5, 600 * column + 5);
            let (low, high) = (600 * row - 5, 600 * row + 5);
            writeln!(
                drawing,
                "{left},{low} {right},{low} {right},{high} {left},{high}"
            )?;
        }
    }
    Ok(drawing)
}

/// Goes between the rows of holes, in 60 moves a row, at the surface and in the last row below it: 2,017 lines with 2,015
/// moves, and lines behind them.
fn furrows(alloc: Global, behind: &str) -> Result<String, AllocError> {
    let mut code = String::from_str(alloc, "G0 Z2\n")?;
    for row in 0..32u32 {
        let y = 6 * row + 3;
        let z = if row == 31 { "-0.1" } else { "0" };
        writeln!(code, "G0 X3 Y{y}\nG1 Z{z}")?;
        for step in 1..61u32 {
            let x = 3 + 3 * step;
            writeln!(code, "G1 X{x}")?;
        }
        code.push_str("G0 Z2\n")?;
    }
    code.push_str(behind)?;
    Ok(code)
}

/// Cuts into the last hole, of the edges 4,096 to 4,099.
const INTO_THE_LAST_HOLE: &str = "G0 X192 Y190\nG1 Z-0.1\nG1 Y192\n";

#[test]
fn thousands_of_moves_and_edges_are_checked_and_probed(rt: HostRuntime) -> Result<(), Fail> {
    let drawing = sieve(rt.alloc())?;
    let code = furrows(rt.alloc(), "")?;
    let gouging = furrows(rt.alloc(), INTO_THE_LAST_HOLE)?;
    let drawing = drawing.as_str();
    let check = "check --drawing=d --code=c --bit=1/1 --rmax=600";
    let gouge = (1, "line 2020 gouge edge 4096\n");
    let beside = "probe --drawing=d --at=19200,19100 --bit=1/1 --rmax=600";
    let hole = "probe --drawing=d --at=19200,19200 --bit=1/1 --rmax=600";
    let cases = [
        (check, (drawing, code.as_str()), (0, "clear 2015 moves\n")),
        (check, (drawing, gouging.as_str()), gouge),
        (beside, (drawing, ""), (0, "depth 95\n")),
        (hole, (drawing, ""), (0, "depth 0\n")),
    ];
    expect(&rt, rt.alloc(), "", &cases);
    Ok(())
}

#[test]
fn thousands_of_moves_are_listed(rt: HostRuntime) -> Result<(), Fail> {
    let code = furrows(rt.alloc(), "")?;
    let (status, text) = plain_run(rt.alloc(), &["moves --code=c"], ("", code.as_str()));
    assert_eq!(rt; (status, text.as_str().lines().count()), (0, 2016));
    let last = "2017 18300,18900,-10 18300,18900,200\nmoves 2015\n";
    assert!(rt; text.as_str().ends_with(last));
    Ok(())
}
