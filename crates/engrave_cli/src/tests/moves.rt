// `moves`: the list of the moves of a G-code program, or its fault.

use super::{Case, DOWN, expect};

const CASES: &[Case<'static>] = &[
    (
        "",
        ("", DOWN),
        (
            0,
            "4 100,300,200 100,300,-100\n5 100,300,-100 100,100,-100\nmoves 2\n",
        ),
    ),
    ("", ("", "Z-1"), (3, "input code line 1 unplaced\n")),
    (
        "",
        ("", "G0 Z2\nG0 X0.105 Y5\nG1 Z-0.105"),
        (0, "3 10.5,500,200 10.5,500,-10.5\nmoves 1\n"),
    ),
    (
        "",
        ("", "X-.001Y.01Z0\nX.009Y-0.1"),
        (0, "2 -0.1,1,0 0.9,-10,0\nmoves 1\n"),
    ),
    ("", ("", "X1.005"), (0, "moves 0\n")),
    ("", ("", "X1.0005"), (3, "input code line 1 off grid\n")),
    ("", ("", "G0 X1 X2"), (3, "input code line 1 twice\n")),
    ("", ("", "G2 X1"), (3, "input code line 1 word\n")),
    ("", ("", "G91"), (3, "input code line 1 incremental\n")),
    ("", ("", "G20"), (3, "input code line 1 units\n")),
    ("", ("", "(a"), (3, "input code line 1 open comment\n")),
    ("", ("", "X1."), (0, "moves 0\n")),
    ("", ("", ""), (0, "moves 0\n")),
];

#[test]
fn moves_are_listed_and_faults_named(rt: HostRuntime) {
    expect(&rt, rt.alloc(), "moves --code=c", CASES);
}
