// `carve` with clean-up pockets, over a small square: its whole program by rows, worked by hand, and what `check` says of it.

use super::{Case, expect, plain_run};

/// A square of 10 grid units.
const TEN: &str = "0,0 10,0 10,10 0,10";

/// Its program: five chains at the surface, one for each contact, and two rows at the deepest depth.
const BY_ROWS: &str = "(bit 1/1 rmax 2 limit 2 step 10)\nG21\nG90\nF500\nG0 Z2.00\n\
    G0 X0.00 Y0.00\nG1 Z0.00\nG0 Z2.00\nG0 X0.00 Y0.00\nG1 Z0.00\nG0 Z2.00\n\
    G0 X0.02 Y0.03\nG1 Z-0.02\nG1 X0.08 Y0.03 Z-0.02\nG0 Z2.00\n\
    G0 X0.10 Y0.00\nG1 Z0.00\nG0 Z2.00\nG0 X0.10 Y0.10\nG1 Z0.00\nG0 Z2.00\n\
    G0 X0.02 Y0.06\nG1 Z-0.02\nG1 X0.08 Y0.06 Z-0.02\nG0 Z2.00\n\
    G0 X0.00 Y0.10\nG1 Z0.00\nG0 Z2.00\n\
    (uncut y 1 x 1 to 9)\n(uncut y 8 x 1 to 9)\n(uncut y 9 x 1 to 9)\n(uncut 27 of 81)\nM2\n";

/// The rows and columns of a pocket: each of the five chains at the surface has three lines, and each of a pocket four. Before them stand
/// five lines, and behind them the report, of no point, and the end.
const LINES: &[(&str, usize)] = &[
    ("--pocket=none", 22),
    ("--pocket=x --over=3", 30),
    ("--pocket=y --over=3", 30),
    ("--pocket=both --over=3", 38),
    // One row through the middle, and with the greatest distance the row on the lower side, where nothing fits.
    ("--pocket=x --over=5", 26),
    ("--pocket=x --over=8191", 22),
    ("--pocket=both", 22),
];

const CASES: &[Case<'static>] = &[
    (
        "carve --drawing=d --bit=1/1 --rmax=2 --step=10 --limit=2 --pitch=1 --pocket=x --over=3",
        (TEN, ""),
        (0, BY_ROWS),
    ),
    (
        "check --drawing=d --code=c --bit=1/1 --rmax=2",
        (TEN, BY_ROWS),
        (0, "clear 22 moves\n"),
    ),
    (
        "cover --drawing=d --code=c --bit=1/1 --rmax=2 --pitch=1",
        (TEN, BY_ROWS),
        (
            0,
            "uncut y 1 x 1 to 9\nuncut y 8 x 1 to 9\nuncut y 9 x 1 to 9\nuncut 27 of 81\n",
        ),
    ),
];

#[test]
fn a_square_s_floor_is_milled_by_rows_columns_or_both(rt: HostRuntime) {
    expect(&rt, rt.alloc(), "", CASES);
    let job = "carve --drawing=d --bit=1/1 --rmax=2 --step=10 --limit=2 --pitch=11";
    for (pocket, want) in LINES {
        let (status, text) = plain_run(rt.alloc(), &[job, pocket], (TEN, ""));
        assert_eq!(rt;
            (status, text.as_str().lines().count()),
            (0, *want),
            "{pocket}"
        );
    }
}
