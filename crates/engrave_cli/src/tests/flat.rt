// `flat`: the floor of a square plate, by its whole text, and what is refused. The expected texts are written by hand: rows 300 and 600 keep
// 150 from the sides, the bit's 50 and the depth's 100, and a point that is 50 from the end of a row is left.

use super::{Case, GRID, SQUARE, expect};

const BY_ROWS: &str = "(flat 50)\nG21\nG90\nF500\nG0 Z2.00\n\
    G0 X1.50 Y3.00\nG1 Z-1.00\nG1 X8.50 Y3.00 Z-1.00\nG0 Z2.00\n\
    G0 X1.50 Y6.00\nG1 Z-1.00\nG1 X8.50 Y6.00 Z-1.00\nG0 Z2.00\n\
    (floor y 100 x 100 to 900)\n(floor y 200 x 100 to 900)\n(floor y 300 x 100 to 100)\n(floor y 300 x 900 to 900)\n\
    (floor y 400 x 100 to 900)\n(floor y 500 x 100 to 900)\n(floor y 600 x 100 to 100)\n(floor y 600 x 900 to 900)\n\
    (floor y 700 x 100 to 900)\n(floor y 800 x 100 to 900)\n(floor y 900 x 100 to 900)\n(floor 67 of 81)\nM2\n";

const NO_CHAIN: &str = "(flat 450)\nG21\nG90\nF500\nG0 Z2.00\n\
    (floor y 100 x 100 to 900)\n(floor y 200 x 100 to 900)\n(floor y 300 x 100 to 900)\n(floor y 400 x 100 to 900)\n\
    (floor y 500 x 100 to 900)\n(floor y 600 x 100 to 900)\n(floor y 700 x 100 to 900)\n(floor y 800 x 100 to 900)\n\
    (floor y 900 x 100 to 900)\n(floor 81 of 81)\nM2\n";

const CASES: &[Case<'static>] = &[
    (
        "--limit=100 --radius=50 --over=300 --pitch=100",
        (SQUARE, ""),
        (0, BY_ROWS),
    ),
    (
        "--limit=100 --radius=50 --over=300 --pitch=100 --pocket=x",
        (SQUARE, ""),
        (0, BY_ROWS),
    ),
    (
        "--limit=100 --radius=450 --over=300 --pitch=100",
        (SQUARE, ""),
        (0, NO_CHAIN),
    ),
    // Words and floors that are refused.
    ("", (SQUARE, ""), (2, "usage\n")),
    ("--radius=50 --pocket=none", (SQUARE, ""), (2, "usage\n")),
    ("--radius=50", ("0,0 9,0", ""), (3, "input cross 0,1\n")),
    (
        "--radius=50 --over=8191 --pitch=15",
        (GRID, ""),
        (3, "input too many points\n"),
    ),
];

#[test]
fn the_floor_of_a_square_is_milled_by_a_flat_bit_or_refused(rt: HostRuntime) {
    expect(
        &rt,
        rt.alloc(),
        "flat --drawing=d --bit=1/1 --rmax=600",
        CASES,
    );
}
