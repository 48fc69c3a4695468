// Strokes of a path, of a closed one, apart and at the end of the coordinates. The counts were made point by point by another program.
ghost use Rattle.plane_exact.specs.Cone.{IsFromOneTo};
ghost use Rattle.plane_exact.specs.declared.moves.TheConstants.{MOST_DEPTH};
ghost use Rattle.coverage_report.specs.declared.cover.TheConstants.{MOST_PITCH};

use coverage_report::MOST_PITCH;
use plane_exact::{Bit, Chain, MOST_DEPTH, Point, Seg};
use std::alloc::Global;
use std::test::Fail;
use stroke_engrave::{CutFault, stroke_chains, stroke_cut};

// The two ends of a stroke.
type Ends = ((i64, i64), (i64, i64));

const PATH: &[Ends] = &[
    ((0, 0), (100, 0)),
    ((100, 0), (100, 100)),
    ((100, 100), (0, 100)),
];

const CLOSED: &[Ends] = &[((0, 0), (4, 0)), ((4, 0), (0, 4)), ((0, 4), (0, 0))];

const APART: &[Ends] = &[((0, 0), (4, 0)), ((0, 0), (0, 4))];

fn stroke(ends: &Ends) -> Option<Seg> {
    Some(Seg {
        a: Point::new(ends.0.0, ends.0.1)?,
        b: Point::new(ends.1.0, ends.1.1)?,
    })
}

fn strokes_of(alloc: Global, ends: &[Ends]) -> Option<Vec<Seg>> {
    let mut strokes = Vec::new(alloc);
    for two in ends {
        strokes.push(stroke(two)?).ok()?;
    }
    Some(strokes)
}

// Whether the nodes of the chain lie over these points, at the depth 7.
fn is_chain(chain: &Chain, wanted: &[(i32, i32)]) -> bool {
    chain.nodes().len() == wanted.len()
        && chain.nodes().iter().zip(wanted).all(|(node, want)| (node.at.x(), node.at.y()) == *want
            && node.depth == 7)
}

// The two counts, cut and all, for a bit of the slope sn / sd, or why there are none.
fn counts(
    alloc: Global,
    ends: &[Ends],
    slope: (u32, u32),
    depth: u32,
    pitch: u32,
) -> Option<Result<(u64, u64), CutFault>>
    requires depth { IsFromOneTo MOST_DEPTH depth }
    requires pitch { IsFromOneTo MOST_PITCH pitch }
{
    let bit = Bit::new(slope.0, slope.1, 600)?;
    Some(stroke_cut(alloc, &strokes_of(alloc, ends)?, &bit, depth, pitch))
}

// The chains of the strokes at the depth 7.
fn chains(alloc: Global, ends: &[Ends]) -> Option<Vec<Chain>> {
    stroke_chains(alloc, &strokes_of(alloc, ends)?, 7).ok()
}

#[test]
fn a_chain_goes_on_where_strokes_follow_each_other(rt: HostRuntime) -> Result<(), Fail> {
    let path = chains(rt.alloc(), PATH).ok_or("a path")?;
    assert_eq!(rt; path.len(), 1);
    assert!(rt; is_chain(&path[0], &[(0, 0), (100, 0), (100, 100), (0, 100)]));
    Ok(())
}

#[test]
fn a_chain_may_come_back_to_where_it_began(rt: HostRuntime) -> Result<(), Fail> {
    let closed = chains(rt.alloc(), CLOSED).ok_or("a closed path")?;
    assert_eq!(rt; closed.len(), 1);
    assert!(rt; is_chain(&closed[0], &[(0, 0), (4, 0), (0, 4), (0, 0)]));
    Ok(())
}

#[test]
fn strokes_apart_are_chains_of_their_own(rt: HostRuntime) -> Result<(), Fail> {
    let apart = chains(rt.alloc(), APART).ok_or("two strokes")?;
    assert_eq!(rt; apart.len(), 2);
    assert!(rt; is_chain(&apart[1], &[(0, 0), (0, 4)]));
    let none = chains(rt.alloc(), &[]).ok_or("no strokes")?;
    assert_eq!(rt; none.len(), 0);
    Ok(())
}

#[test]
fn points_in_the_disc_are_counted(rt: HostRuntime) {
    let a = rt.alloc();
    assert_eq!(rt; counts(a, PATH, (1, 1), 10, 50), Some(Ok((7, 9))));
    assert_eq!(rt; counts(a, &[], (1, 1), 10, 50), Some(Ok((0, 0))));
    assert_eq!(rt;
        counts(a, &[((0, 0), (10, 0))], (1, 1), 1, 1),
        Some(Ok((11, 39)))
    );
    assert_eq!(rt;
        counts(a, &[((0, 0), (7, 4))], (2, 3), 10, 1),
        Some(Ok((244, 418)))
    );
    assert_eq!(rt;
        counts(a, &[((2, 2), (3, 3))], (1, 1), 1, 10),
        Some(Ok((0, 0)))
    );
}

#[test]
fn points_are_counted_up_to_the_ends_of_the_grid(rt: HostRuntime) {
    let a = rt.alloc();
    let end = counts(a, &[((32_760, 0), (32_767, 0))], (1, 1), 10, 1);
    assert_eq!(rt; end, Some(Ok((295, 378))));
    let grid = counts(a, &[((-32_768, -32_768), (32_767, 32_767))], (1, 1), 10, 1);
    assert_eq!(rt; grid, Some(Err(CutFault::TooManyPoints)));
}
