// `repair`: programs whose moves that aren't clear become lifts. The expected texts follow from the rule by hand.

use super::{ANGLE, Case, expect};

const REPAIR: &str = "repair --drawing=d --code=c --bit=1/1 --rmax=200";

const CHECK: &str = "check --drawing=d --code=c --bit=1/1 --rmax=200";

/// A cut from one arm of the L to the other, past the inner corner.
const ROUND: &str = "G21\nG0 Z2\nG0 X1 Y3\nG1 Z-1\nG1 X3 Y1\nM2\n";

const ROUND_REPAIRED: &str =
    "(repaired 1 of 2)\nG21\nG90\nF500\nG0 Z2.000\nG0 X1.000 Y3.000\nG0 X1.000 Y3.000 Z2.000\n\
    G1 X1.000 Y3.000 Z-1.000\nG0 X1.000 Y3.000 Z2.000\nG0 X3.000 Y1.000 Z2.000\nG1 X3.000 Y1.000 Z-1.000\n\
    G0 X3.000 Y1.000 Z2.000\nM2\n";

const EMPTY_REPAIRED: &str = "(repaired 0 of 0)\nG21\nG90\nF500\nG0 Z2.000\nM2\n";

/// A plunge outside, from which the bit goes on below the surface into the L: it stays up until the end of that.
const BEYOND: &str = "G0 Z2\nG0 X3 Y3\nG1 Z-0.1\nG1 X1\nG1 Y1\n";

const BEYOND_REPAIRED: &str =
    "(repaired 2 of 3)\nG21\nG90\nF500\nG0 Z2.000\nG0 X3.000 Y3.000\nG0 X3.000 Y3.000 Z2.000\n\
    G0 X3.000 Y3.000 Z2.000\nG0 X3.000 Y3.000 Z2.000\nG0 X1.000 Y3.000 Z2.000\nG1 X1.000 Y3.000 Z-0.100\n\
    G1 X1.000 Y1.000 Z-0.100\nG0 X1.000 Y1.000 Z2.000\nM2\n";

/// A clear plunge, a cut across the corner between its ends, a plunge into an edge, one that is too deep for the bit, one outside, a way
/// through an edge, and a clear cut.
const EACH_KIND: &str =
    "G0 Z2\nG0 X1 Y3\nG1 Z-1\nG1 X3 Y1\nG1 Z-1.5\nG0 Z2\nG0 X1 Y1\nG1 Z-3\nG0 Z2\nG0 X3 Y3\nG1 Z-0.5\n\
    G1 X1\nG1 Y1\n";

const EACH_KIND_REPAIRED: &str =
    "(repaired 7 of 11)\nG21\nG90\nF500\nG0 Z2.000\nG0 X1.000 Y3.000\nG0 X1.000 Y3.000 Z2.000\n\
    G1 X1.000 Y3.000 Z-1.000\nG0 X1.000 Y3.000 Z2.000\nG0 X3.000 Y1.000 Z2.000\nG1 X3.000 Y1.000 Z-1.000\n\
    G0 X3.000 Y1.000 Z2.000\nG0 X3.000 Y1.000 Z2.000\nG0 X3.000 Y1.000 Z2.000\nG0 X3.000 Y1.000 Z2.000\n\
    G0 X1.000 Y1.000 Z2.000\nG0 X1.000 Y1.000 Z2.000\nG0 X1.000 Y1.000 Z2.000\nG0 X1.000 Y1.000 Z2.000\n\
    G0 X1.000 Y1.000 Z2.000\nG0 X3.000 Y3.000 Z2.000\nG0 X3.000 Y3.000 Z2.000\nG0 X3.000 Y3.000 Z2.000\n\
    G0 X1.000 Y3.000 Z2.000\nG1 X1.000 Y3.000 Z-0.500\nG1 X1.000 Y1.000 Z-0.500\nG0 X1.000 Y1.000 Z2.000\nM2\n";

const COVER: &str = "cover --drawing=d --code=c --bit=1/1 --rmax=200 --pitch=50";

/// What the mended program leaves.
const LEFT: &str =
    "uncut y 50 x 50 to 200\nuncut y 100 x 50 to 50\nuncut y 100 x 150 to 200\nuncut y 150 x 50 to 50\n\
    uncut y 150 x 150 to 200\nuncut y 200 x 50 to 50\nuncut y 200 x 150 to 150\nuncut 12 of 33\n";

const CASES: &[Case<'static>] = &[
    // A repaired program is called clear.
    (REPAIR, (ANGLE, ROUND), (0, ROUND_REPAIRED)),
    (CHECK, (ANGLE, ROUND_REPAIRED), (0, "clear 6 moves\n")),
    (REPAIR, (ANGLE, BEYOND), (0, BEYOND_REPAIRED)),
    (CHECK, (ANGLE, BEYOND_REPAIRED), (0, "clear 7 moves\n")),
    (REPAIR, (ANGLE, ""), (0, EMPTY_REPAIRED)),
    (CHECK, (ANGLE, EMPTY_REPAIRED), (0, "clear 0 moves\n")),
    // Each kind of fault is mended, and no more is cut.
    (CHECK, (ANGLE, EACH_KIND), (1, "line 4 gouge edge 2\n")),
    (REPAIR, (ANGLE, EACH_KIND), (0, EACH_KIND_REPAIRED)),
    (CHECK, (ANGLE, EACH_KIND_REPAIRED), (0, "clear 21 moves\n")),
    (COVER, (ANGLE, EACH_KIND), (0, "uncut 0 of 33\n")),
    (COVER, (ANGLE, EACH_KIND_REPAIRED), (0, LEFT)),
    // A repair is in the units of the words.
    (
        "repair --drawing=d --code=c --bit=1/1 --rmax=200 --units=in1000 --safe=100 --feed=20",
        (ANGLE, "G20 G0 Z0.2\nG0 X.1 Y.3\nG1 Z-.0005"),
        (
            0,
            "(repaired 0 of 1)\nG20\nG90\nF20\nG0 Z0.1000\nG0 X0.1000 Y0.3000\nG0 X0.1000 Y0.3000 Z0.2000\n\
             G1 X0.1000 Y0.3000 Z-0.0005\nG0 X0.1000 Y0.3000 Z0.1000\nM2\n",
        ),
    ),
    // What the program or the drawing lacks is refused.
    (REPAIR, ("0,0 1", ""), (3, "input loops 4 syntax\n")),
    (REPAIR, (ANGLE, "G2 X1"), (3, "input code line 1 word\n")),
    (REPAIR, ("0,0 1", "G2 X1"), (3, "input loops 4 syntax\n")),
];

#[test]
fn each_kind_of_fault_is_mended_and_no_more_is_cut(rt: HostRuntime) {
    expect(&rt, rt.alloc(), "", CASES);
}
