// `cover`: which points of a report a G-code program leaves, by the whole text. The expected points follow from the definitions by hand.

use super::carve::{CARVED, SMALL};
use super::{Case, expect};

/// A square of 60 grid units.
const PLATE: &str = "0,0 60,0 60,60 0,60";

const CASES: &[Case<'static>] = &[
    // A move through the surface removes what lies under its deep part. The disc is open, so (2,2) is on its rim at best; it holds (3,1)
    // from three quarters of the way on, that moment excluded.
    (
        "--bit=1/1 --rmax=2 --pitch=1",
        (SMALL, "G0 Z0.02\nG0 X0 Y0.02\nG1 X0.04 Z-0.02"),
        (
            0,
            "uncut y 1 x 1 to 2\nuncut y 2 x 1 to 2\nuncut y 3 x 1 to 2\nuncut 6 of 9\n",
        ),
    ),
    // A carved square is covered.
    (
        "--bit=1/1 --rmax=2 --pitch=1",
        (SMALL, CARVED),
        (0, "uncut 0 of 9\n"),
    ),
    // A point may be removed only between two nodes: (1,1) is at the distance of their depth from both ends of the last move.
    (
        "--bit=1/1 --rmax=1 --pitch=1",
        (
            SMALL,
            "G0 Z1\nG0 X0.02 Y0.01\nG1 Z-0.01\nG0 Z1\nG0 X0.01 Y0.02\nG1 Z-0.01",
        ),
        (
            0,
            "uncut y 1 x 1 to 1\nuncut y 1 x 3 to 3\nuncut y 2 x 2 to 3\nuncut y 3 x 1 to 3\nuncut 7 of 9\n",
        ),
    ),
    (
        "--bit=1/1 --rmax=1 --pitch=1",
        (SMALL, "G0 Z1\nG0 X0.02 Y0.01\nG1 Z-0.01\nG1 X0.01 Y0.02"),
        (
            0,
            "uncut y 1 x 3 to 3\nuncut y 2 x 3 to 3\nuncut y 3 x 1 to 3\nuncut 5 of 9\n",
        ),
    ),
    // Points on the rim of a disc are left.
    (
        "--bit=1/1 --rmax=1 --pitch=1",
        (SMALL, "G0 Z1\nG0 X0.02 Y0.02\nG1 Z-0.01"),
        (
            0,
            "uncut y 1 x 1 to 3\nuncut y 2 x 1 to 1\nuncut y 2 x 3 to 3\nuncut y 3 x 1 to 3\nuncut 8 of 9\n",
        ),
    ),
    // A row may be grazed, or ended on, or be where the surface is crossed.
    (
        "--bit=1/1 --rmax=2 --pitch=1",
        (SMALL, "G0 Z1\nG0 X0.01 Y0.01\nG1 Z-0.01\nG1 X0.03"),
        (0, "uncut y 2 x 1 to 3\nuncut y 3 x 1 to 3\nuncut 6 of 9\n"),
    ),
    (
        "--bit=1/1 --rmax=2 --pitch=1",
        (SMALL, "G0 Z1\nG0 X0.02 Y0.01\nG1 Z-0.01\nG1 Y0.02"),
        (
            0,
            "uncut y 1 x 1 to 1\nuncut y 1 x 3 to 3\nuncut y 2 x 1 to 1\nuncut y 2 x 3 to 3\nuncut y 3 x 1 to 3\n\
             uncut 7 of 9\n",
        ),
    ),
    (
        "--bit=1/1 --rmax=2 --pitch=1",
        (SMALL, "G0 Z0.02\nG0 X0.02 Y0\nG1 Y0.04 Z-0.02"),
        (0, "uncut y 1 x 1 to 3\nuncut y 2 x 1 to 3\nuncut 6 of 9\n"),
    ),
    // A move may be smaller than the pitch.
    (
        "--bit=1/1 --rmax=2 --pitch=30",
        (PLATE, "G0 Z1\nG0 X0.3 Y0.3\nG1 Z-0.02\nG1 X0.31"),
        (0, "uncut 0 of 1\n"),
    ),
    (
        "--bit=1/1 --rmax=2 --pitch=30",
        (PLATE, "G0 Z1\nG0 X0.33 Y0.33\nG1 Z-0.01\nG1 X0.35"),
        (0, "uncut y 30 x 30 to 30\nuncut 1 of 1\n"),
    ),
    // What is too deep for the bit removes as its cone does.
    (
        "--bit=1/1 --rmax=1 --pitch=1",
        (SMALL, "G0 Z1\nG0 X0.02 Y0.02\nG1 Z-0.05"),
        (0, "uncut 0 of 9\n"),
    ),
    // The points are multiples of the pitch within the box.
    (
        "--bit=1/1 --rmax=1 --pitch=1",
        ("", ""),
        (0, "uncut 0 of 0\n"),
    ),
    // All four points are corners, which aren't inside.
    (
        "--bit=1/1 --rmax=1 --pitch=4",
        (SMALL, ""),
        (0, "uncut 0 of 0\n"),
    ),
    (
        "--bit=1/1 --rmax=1 --pitch=2",
        (SMALL, ""),
        (0, "uncut y 2 x 2 to 2\nuncut 1 of 1\n"),
    ),
    (
        "--bit=1/1 --rmax=1 --pitch=10",
        ("1,1 9,1 9,9 1,9", ""),
        (0, "uncut 0 of 0\n"),
    ),
    (
        "--bit=1/1 --rmax=1 --pitch=2",
        ("1,1 3,1 3,3 1,3", ""),
        (0, "uncut y 2 x 2 to 2\nuncut 1 of 1\n"),
    ),
    (
        "--bit=1/1 --rmax=1 --pitch=10",
        ("-15,-15 15,-15 15,15 -15,15", ""),
        (
            0,
            "uncut y -10 x -10 to 10\nuncut y 0 x -10 to 10\nuncut y 10 x -10 to 10\nuncut 9 of 9\n",
        ),
    ),
    (
        "--bit=1/1 --rmax=1 --pitch=10",
        ("0,0 60,0 60,60 0,60\n20,20 40,20 40,40 20,40", ""),
        (
            0,
            "uncut y 10 x 10 to 50\nuncut y 20 x 10 to 10\nuncut y 20 x 50 to 50\nuncut y 30 x 10 to 10\n\
             uncut y 30 x 50 to 50\nuncut y 40 x 10 to 10\nuncut y 40 x 50 to 50\nuncut y 50 x 10 to 50\n\
             uncut 16 of 16\n",
        ),
    ),
    // They lie ten units apart where no pitch is given.
    (
        "--bit=1/1 --rmax=1",
        ("0,0 20,0 20,20 0,20", ""),
        (0, "uncut y 10 x 10 to 10\nuncut 1 of 1\n"),
    ),
];

#[test]
fn the_points_that_a_program_leaves_are_told(rt: HostRuntime) {
    expect(&rt, rt.alloc(), "cover --drawing=d --code=c", CASES);
}
