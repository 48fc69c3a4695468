// What snapping makes of segments that were worked by hand: each of them is written as its four numbers.
use loop_join::snap;
use plane_exact::{Point, Seg};
use std::alloc::{AllocError, Global};
use std::test::Fail;

type Numbers = [i64; 4];

// The tolerance, the segments, and what they become.
const CASES: [(u32, &[Numbers], &[Numbers]); 8] = [
    // No tolerance keeps all.
    (
        0,
        &[[0, 0, 1, 1], [1, 1, 2, 1]],
        &[[0, 0, 1, 1], [1, 1, 2, 1]],
    ),
    // The last end is near the first only by way of the middle one, and stays.
    (
        1,
        &[[0, 0, 9, 9], [1, 0, 2, 0]],
        &[[0, 0, 9, 9], [0, 0, 2, 0]],
    ),
    // Of two kept points that are near, the earlier one is taken: left, right, below and above.
    (
        2,
        &[[0, 0, 3, 0], [2, 0, 9, 9]],
        &[[0, 0, 3, 0], [0, 0, 9, 9]],
    ),
    (
        2,
        &[[3, 0, 0, 0], [2, 0, 9, 9]],
        &[[3, 0, 0, 0], [3, 0, 9, 9]],
    ),
    (
        2,
        &[[0, 3, 0, 0], [0, 1, 9, 9]],
        &[[0, 3, 0, 0], [0, 3, 9, 9]],
    ),
    // A segment whose ends become one point is dropped, and that point stays kept.
    (5, &[[0, 0, 3, 4], [5, 5, 6, 5]], &[[0, 0, 6, 5]]),
    // At the corners of the grid.
    (
        1,
        &[
            [-32768, -32768, 32767, 32767],
            [32766, 32766, -32767, -32768],
        ],
        &[
            [-32768, -32768, 32767, 32767],
            [32767, 32767, -32768, -32768],
        ],
    ),
    // The greatest tolerance makes one point of all.
    (
        u32::MAX,
        &[[-32768, -32768, 32767, 32767], [5, 5, 6, 6]],
        &[],
    ),
];

#[test]
fn snaps_as_worked_by_hand(rt: HostRuntime) -> Result<(), Fail> {
    for (tolerance, given, want) in CASES.iter() {
        let segs = segs_of(rt.alloc(), given)?;
        let moved = snap(rt.alloc(), &segs, *tolerance)?;
        let want = segs_of(rt.alloc(), want)?;
        assert_eq!(rt;
            moved.as_slice(),
            want.as_slice(),
            "{given:?} within {tolerance}"
        );
    }
    Ok(())
}

fn segs_of(alloc: Global, numbers: &[Numbers]) -> Result<Vec<Seg>, AllocError> {
    let mut segs = Vec::new(alloc);
    for [x, y, to_x, to_y] in numbers {
        if let (Some(a), Some(b)) = (Point::new(*x, *y), Point::new(*to_x, *to_y)) {
            segs.push(Seg { a, b })?;
        }
    }
    Ok(segs)
}

#[test]
fn snaps_131072_segments_at_once(rt: HostRuntime) -> Result<(), Fail> {
    let mut segs = Vec::new(rt.alloc());
    // Most of the ends are far from all others.
    let mut seed = 1u32;
    for _ in 0..131_072 {
        let a = next_point(&mut seed).expect(&rt, "a");
        let b = next_point(&mut seed).expect(&rt, "b");
        segs.push(Seg { a, b })?;
    }
    let moved = snap(rt.alloc(), &segs, 3)?;
    assert!(rt; moved.len() > 131_000);
    Ok(())
}

fn next_point(seed: &mut u32) -> Option<Point> {
    *seed = seed.wrapping_mul(1_664_525).wrapping_add(1_013_904_223);
    let x = i64::from(*seed >> 16) - 32_768;
    *seed = seed.wrapping_mul(1_664_525).wrapping_add(1_013_904_223);
    let y = i64::from(*seed >> 16) - 32_768;
    Point::new(x, y)
}
