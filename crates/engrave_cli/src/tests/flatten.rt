// `flatten`: drawings of each form in loops form, and drawings that are refused since they are open or cross themselves.

use super::{Case, SQUARE, expect};

/// A DXF file with a circle of a millimetre's radius.
const CIRCLE: &str =
    "0\nSECTION\n2\nENTITIES\n0\nCIRCLE\n8\n0\n10\n0.0\n20\n0.0\n40\n1.0\n0\nENDSEC\n0\nEOF\n";

/// One with a closed polyline whose first side is half a circle.
const HALF: &str = "0\nSECTION\n2\nENTITIES\n0\nPOLYLINE\n8\n0\n66\n1\n70\n1\n\
    0\nVERTEX\n10\n0.0\n20\n0.0\n42\n1.0\n0\nVERTEX\n10\n1.0\n20\n0.0\n0\nSEQEND\n0\nENDSEC\n0\nEOF\n";

/// One with three sides of a square.
pub const THREE_SIDES: &str = "0\nSECTION\n2\nENTITIES\n\
    0\nLINE\n10\n0\n20\n0\n11\n1\n21\n0\n\
    0\nLINE\n10\n1\n20\n0\n11\n1\n21\n1\n\
    0\nLINE\n10\n1\n20\n1\n11\n0\n21\n1\n\
    0\nENDSEC\n0\nEOF\n";

/// One with all four.
const FOUR_SIDES: &str = "0\nSECTION\n2\nENTITIES\n\
    0\nLINE\n10\n0\n20\n0\n11\n1\n21\n0\n\
    0\nLINE\n10\n1\n20\n0\n11\n1\n21\n1\n\
    0\nLINE\n10\n1\n20\n1\n11\n0\n21\n1\n\
    0\nLINE\n10\n0\n20\n1\n11\n0\n21\n0\n\
    0\nENDSEC\n0\nEOF\n";

/// The same with a text besides, and a side that begins a grid unit off.
const LABELLED: &str = "0\nSECTION\n2\nENTITIES\n\
    0\nLINE\n10\n0\n20\n0\n11\n1\n21\n0\n\
    0\nLINE\n10\n1.01\n20\n-0.01\n11\n1\n21\n1\n\
    0\nLINE\n10\n1\n20\n1\n11\n0\n21\n1\n\
    0\nLINE\n10\n0\n20\n1\n11\n0\n21\n0\n\
    0\nTEXT\n10\n0\n20\n0\n40\n2.5\n1\nHELLO\n\
    0\nENDSEC\n0\nEOF\n";

/// One with a line without its end.
const ENDLESS: &str = "0\nSECTION\n2\nENTITIES\n0\nLINE\n10\n0\n20\n0\n11\n1\n0\nENDSEC\n0\nEOF\n";

/// Two squares whose corners lie in each other.
const SQUARES: &str = "0,0 200,0 200,200 0,200\n100,100 300,100 300,300 100,300";

const CASES: &[Case<'static>] = &[
    ("flatten --drawing=d", ("", ""), (0, "")),
    (
        "flatten --drawing=d",
        ("# a comment\n  0,0   1000,0 1000,1000 0,1000", ""),
        (0, "0,0 1000,0 1000,1000 0,1000\n"),
    ),
    // The edges of these meet at an end of both alone.
    (
        "flatten --drawing=d",
        (
            "0,0 100,0 100,100 0,100\n100,100 200,100 200,200 100,200",
            "",
        ),
        (
            0,
            "0,0 100,0 100,100 0,100\n100,100 200,100 200,200 100,200\n",
        ),
    ),
    (
        "flatten --drawing=d --form=dxf --chord=45",
        (CIRCLE, ""),
        (
            0,
            "# skipped 0\n100,0 71,71 0,100 -71,71 -100,0 -71,-71 0,-100 71,-71\n",
        ),
    ),
    (
        "flatten --drawing=d --form=dxf --chord=90",
        (HALF, ""),
        (0, "# skipped 0\n0,0 50,-50 100,0\n"),
    ),
    (
        "flatten --drawing=d --form=dxf",
        (FOUR_SIDES, ""),
        (0, "# skipped 0\n0,0 100,0 100,100 0,100\n"),
    ),
    (
        "flatten --drawing=d --form=dxf --units=mm10",
        (FOUR_SIDES, ""),
        (0, "# skipped 0\n0,0 10,0 10,10 0,10\n"),
    ),
    (
        "flatten --drawing=d --form=dxf",
        (LABELLED, ""),
        (0, "# skipped 1\n0,0 100,0 100,100 0,100\n"),
    ),
    (
        "flatten --drawing=d --form=dxf --snap=0",
        (LABELLED, ""),
        (3, "input open 100,0\n"),
    ),
    (
        "flatten --drawing=d --form=dxf",
        (THREE_SIDES, ""),
        (3, "input open 0,0\n"),
    ),
    (
        "flatten --drawing=d --form=dxf",
        (ENDLESS, ""),
        (3, "input dxf pair 3 missing 21\n"),
    ),
    (
        "flatten --drawing=d --form=dxf",
        (SQUARE, ""),
        (3, "input dxf pair 1 bad code\n"),
    ),
    (
        "flatten --drawing=d --form=dxf",
        ("", ""),
        (3, "input dxf pair 1 unended\n"),
    ),
    (
        "flatten --drawing=d --form=pbm --pixel=100",
        ("P1\n2 2\n10\n01\n", ""),
        (
            0,
            "100,200 0,200 0,100 100,100 200,100 200,0 100,0 100,100\n",
        ),
    ),
    (
        "flatten --drawing=d --form=pbm",
        ("P4\n10 2\nabc", ""),
        (3, "input pbm short\n"),
    ),
    (
        "flatten --drawing=d --form=pbm",
        ("P5\n", ""),
        (3, "input pbm magic\n"),
    ),
    (
        "flatten --drawing=d --form=pbm --pixel=1000",
        ("P1 33 1 000000000000000000000000000000000", ""),
        (3, "input pixels out of range\n"),
    ),
    (
        "flatten --drawing=d",
        (CIRCLE, ""),
        (3, "input loops 0 syntax\n"),
    ),
    ("flatten --drawing=e", ("", ""), (4, "absent drawing\n")),
    // Each command refuses a drawing that crosses itself, and a loop of two points, which runs along one line twice.
    (
        "flatten --drawing=d",
        (SQUARES, ""),
        (3, "input cross 1,4\n"),
    ),
    (
        "flatten --drawing=d",
        ("0,0 1,0", ""),
        (3, "input cross 0,1\n"),
    ),
    (
        "probe --drawing=d --at=5,5 --bit=1/1 --rmax=600",
        (SQUARES, ""),
        (3, "input cross 1,4\n"),
    ),
    (
        "probe --drawing=d --at=5,5 --bit=1/1 --rmax=600",
        ("0,0 1,0", ""),
        (3, "input cross 0,1\n"),
    ),
    (
        "contacts --drawing=d --step=50 --rmax=600",
        (SQUARES, ""),
        (3, "input cross 1,4\n"),
    ),
    (
        "contacts --drawing=d --step=50 --rmax=600",
        ("0,0 1,0", ""),
        (3, "input cross 0,1\n"),
    ),
    (
        "carve --drawing=d --bit=1/1 --rmax=600 --step=50",
        (SQUARES, ""),
        (3, "input cross 1,4\n"),
    ),
    (
        "carve --drawing=d --bit=1/1 --rmax=600 --step=50",
        ("0,0 1,0", ""),
        (3, "input cross 0,1\n"),
    ),
    // Before the G-code program is asked for.
    (
        "check --drawing=d --code=e --bit=1/1 --rmax=600",
        (SQUARES, ""),
        (3, "input cross 1,4\n"),
    ),
    (
        "check --drawing=d --code=e --bit=1/1 --rmax=600",
        ("0,0 1,0", ""),
        (3, "input cross 0,1\n"),
    ),
    (
        "cover --drawing=d --code=e --bit=1/1 --rmax=600",
        (SQUARES, ""),
        (3, "input cross 1,4\n"),
    ),
    (
        "cover --drawing=d --code=e --bit=1/1 --rmax=600",
        ("0,0 1,0", ""),
        (3, "input cross 0,1\n"),
    ),
    // A drawing of another form is asked in the same way.
    (
        "probe --drawing=d --form=dxf --at=30,30 --bit=1/1 --rmax=600",
        (FOUR_SIDES, "G0 X2 Y2 Z1\nG0 Z-0.1"),
        (0, "depth 30\n"),
    ),
    (
        "check --drawing=d --form=dxf --code=c --bit=1/1 --rmax=600",
        (FOUR_SIDES, "G0 X2 Y2 Z1\nG0 Z-0.1"),
        (1, "line 2 outside\n"),
    ),
];

#[test]
fn drawings_of_each_form_are_written_in_loops_form_or_refused(rt: HostRuntime) {
    expect(&rt, rt.alloc(), "", CASES);
}
