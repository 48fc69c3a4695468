// Angles, directions, arcs and bulges, at the ends of their ranges too. The expected values were computed from the rules by another
// program, but for those that symmetry gives.
use arc_flatten::{Fine, MOST_ANGLE, TURN, arc, bulge, direction, to_grid, turn};
use std::test::Fail;

// A bulge of 1, half a circle.
const HALF_CIRCLE: i64 = 1 << 30;

// Whether these are the points, in turn.
fn are_at(points: &[Fine], want: &[(i64, i64)]) -> bool {
    points.len() == want.len() && points.iter().zip(want).all(|(p, at)| (p.x, p.y) == *at)
}

// Angles in millionths of a degree, with their directions.
const ANGLES: [(i64, u32); 14] = [
    (0, 0),
    (42, 0),
    (43, 1),
    (-42, 0),
    (-43, 4_194_303),
    (45_000_000, 524_288),
    (90_000_000, 1_048_576),
    (-90_000_000, 3_145_728),
    (180_000_000, 2_097_152),
    (359_999_957, 4_194_303),
    (359_999_958, 0),
    (360_000_000, 0),
    (100_000_000_000, 3_262_236),
    (-100_000_000_000, 932_068),
];

#[test]
fn angles(rt: HostRuntime) -> Result<(), Fail> {
    for (micro, want) in ANGLES.iter() {
        assert!(rt; micro.unsigned_abs() <= MOST_ANGLE);
        assert_eq!(rt; turn(*micro), *want, "{micro}");
    }
    Ok(())
}

// Directions, with how far they lead to the right and up.
const DIRECTIONS: [(u32, (i64, i64)); 12] = [
    (0, (1_073_741_824, 0)),
    (1, (1_073_741_823, 1608)),
    (262_144, (992_008_094, 410_903_206)),
    (524_288, (759_250_124, 759_250_124)),
    (786_432, (410_903_206, 992_008_094)),
    (1_048_576, (0, 1_073_741_824)),
    (1_572_864, (-759_250_124, 759_250_124)),
    (2_097_152, (-1_073_741_824, 0)),
    (2_621_440, (-759_250_124, -759_250_124)),
    (3_145_728, (0, -1_073_741_824)),
    (3_670_016, (759_250_124, -759_250_124)),
    (4_194_303, (1_073_741_823, -1608)),
];

#[test]
fn directions(rt: HostRuntime) -> Result<(), Fail> {
    for (u, want) in DIRECTIONS.iter() {
        assert!(rt; *u < TURN);
        assert_eq!(rt; direction(*u), *want, "{u}");
    }
    Ok(())
}

#[test]
fn full_turns(rt: HostRuntime) -> Result<(), Fail> {
    let c = Fine { x: 0, y: 0 };
    assert!(rt;
        are_at(
            &arc(rt.alloc(), c, 100_000, 0, TURN, 45)?,
            &[
                (100_000, 0),
                (70_711, 70_711),
                (0, 100_000),
                (-70_711, 70_711),
                (-100_000, 0),
                (-70_711, -70_711),
                (0, -100_000),
                (70_711, -70_711),
                (100_000, 0),
            ]
        )
    );
    let far = Fine {
        x: 100_000_000_000,
        y: -100_000_000_000,
    };
    assert!(rt;
        are_at(
            &arc(rt.alloc(), far, 100_000_000_000, 0, TURN, 90)?,
            &[
                (200_000_000_000, -100_000_000_000),
                (100_000_000_000, 0),
                (0, -100_000_000_000),
                (100_000_000_000, -200_000_000_000),
                (200_000_000_000, -100_000_000_000),
            ]
        )
    );
    assert_eq!(rt; arc(rt.alloc(), c, 100_000, 0, TURN, 1)?.len(), 362);
    Ok(())
}

#[test]
fn parts_of_a_turn(rt: HostRuntime) -> Result<(), Fail> {
    let c = Fine { x: 5, y: -7 };
    assert!(rt;
        are_at(
            &arc(rt.alloc(), c, 100_000, TURN - 1, 1, 90)?,
            &[(100_005, -7), (100_005, -7)]
        )
    );
    // An eighth turn before the x axis, and an eighth behind it.
    let o = Fine { x: 0, y: 0 };
    assert!(rt;
        are_at(
            &arc(rt.alloc(), o, 100_000, 3_670_016, 1_048_576, 45)?,
            &[(70_711, -70_711), (100_000, 0), (70_711, 70_711)]
        )
    );
    assert!(rt;
        are_at(
            &arc(rt.alloc(), c, 0, 0, 1_048_576, 45)?,
            &[(5, -7), (5, -7), (5, -7)]
        )
    );
    Ok(())
}

#[test]
fn half_circles(rt: HostRuntime) -> Result<(), Fail> {
    let p = Fine { x: 0, y: 0 };
    let q = Fine { x: 100_000, y: 0 };
    assert!(rt;
        are_at(
            &bulge(rt.alloc(), p, q, HALF_CIRCLE, 90)?,
            &[(0, 0), (50_000, -50_000), (100_000, 0)]
        )
    );
    assert!(rt;
        are_at(
            &bulge(rt.alloc(), p, q, HALF_CIRCLE, 45)?,
            &[
                (0, 0),
                (14_644, -35_356),
                (50_000, -50_000),
                (85_355, -35_356),
                (100_000, 0),
            ]
        )
    );
    assert!(rt;
        are_at(
            &bulge(rt.alloc(), p, q, -HALF_CIRCLE, 45)?,
            &[
                (0, 0),
                (14_644, 35_355),
                (50_000, 50_000),
                (85_355, 35_355),
                (100_000, 0),
            ]
        )
    );
    Ok(())
}

#[test]
fn straight_and_nearly_whole(rt: HostRuntime) -> Result<(), Fail> {
    let p = Fine {
        x: -100_000_000,
        y: 0,
    };
    let q = Fine {
        x: 100_000_000,
        y: 0,
    };
    assert!(rt;
        are_at(
            &bulge(rt.alloc(), p, q, 0, 1)?,
            &[(-100_000_000, 0), (100_000_000, 0)]
        )
    );
    // A quarter turn is one piece of 90 degrees.
    assert_eq!(rt; bulge(rt.alloc(), p, q, 444_758_426, 90)?.len(), 2);
    assert!(rt;
        are_at(
            &bulge(rt.alloc(), p, q, -10_737_418_240_000, 90)?,
            &[
                (-100_000_000, 0),
                (-500_000_002_414, 500_049_995_000),
                (0, 1_000_000_000_000),
                (500_000_002_413, 500_049_995_000),
                (100_000_000, 0),
            ]
        )
    );
    assert_eq!(rt; bulge(rt.alloc(), p, q, 10_737_418_240_000, 1)?.len(), 513);
    Ok(())
}

// Places in thousandths of a grid unit, with the nearest point of the grid.
const PLACES: [((i64, i64), Option<(i32, i32)>); 8] = [
    ((0, 0), Some((0, 0))),
    ((499, 500), Some((0, 1))),
    ((-500, -501), Some((0, -1))),
    ((1500, -1500), Some((2, -1))),
    ((32_767_499, -32_768_500), Some((32_767, -32_768))),
    ((32_767_500, 0), None),
    ((0, -32_768_501), None),
    ((2_000_000_000_000, -2_000_000_000_000), None),
];

#[test]
fn points_on_the_grid(rt: HostRuntime) -> Result<(), Fail> {
    for ((x, y), want) in PLACES.iter() {
        assert_eq!(rt; grid_place(fine(*x, *y)), *want, "{x},{y}");
    }
    Ok(())
}

// The greatest size of the numbers of a place.
const MOST: i64 = 2_000_000_000_000;

// The place itself, since no number here is greater than what a place may have.
fn fine(x: i64, y: i64) -> Fine {
    Fine {
        x: x.clamp(-MOST, MOST),
        y: y.clamp(-MOST, MOST),
    }
}

fn grid_place(f: Fine) -> Option<(i32, i32)> {
    let point = to_grid(f)?;
    Some((point.x(), point.y()))
}
