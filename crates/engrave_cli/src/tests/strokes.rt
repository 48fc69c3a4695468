// `strokes`: programs along open lines of a DXF file and of letters, by their whole text, and what is refused. The expected texts come from
// the plain program of the definitions.

use super::flatten::THREE_SIDES;
use super::lettering::{FONT, run_text};
use super::{Case, expect};

/// A line along the end of the grid, and one up to it.
const CROSSING: &str = "0\nSECTION\n2\nENTITIES\n\
    0\nLINE\n10\n327.67\n20\n0\n11\n327.67\n21\n-0.2\n\
    0\nLINE\n10\n327.5\n20\n-0.1\n11\n327.67\n21\n-0.1\n\
    0\nENDSEC\n0\nEOF\n";

/// Three lines whose ends are close, the middle one too short.
const CLOSE: &str = "0\nSECTION\n2\nENTITIES\n\
    0\nLINE\n10\n0\n20\n0\n11\n0.5\n21\n0\n\
    0\nLINE\n10\n0.51\n20\n0.01\n11\n0.51\n21\n0\n\
    0\nLINE\n10\n0.51\n20\n0.01\n11\n0.5\n21\n0.5\n\
    0\nENDSEC\n0\nEOF\n";

const NO_LINES: &str = "0\nSECTION\n2\nENTITIES\n0\nENDSEC\n0\nEOF\n";

/// A line across most of the grid.
const ACROSS: &str = "0\nSECTION\n2\nENTITIES\n\
    0\nLINE\n10\n-300\n20\n-300\n11\n300\n21\n300\n\
    0\nENDSEC\n0\nEOF\n";

const CASES: &[Case<'static>] = &[
    // Lines that follow each other are one chain.
    (
        "strokes --drawing=d --form=dxf --rmax=600 --depth=10 --bit=1/1 --pitch=50",
        (THREE_SIDES, ""),
        (
            0,
            "(strokes 3 chains 1 depth 10)\nG21\nG90\nF500\nG0 Z2.00\nG0 X0.00 Y0.00\nG1 Z-0.10\nG1 X1.00 Y0.00 Z-0.10\n\
             G1 X1.00 Y1.00 Z-0.10\nG1 X0.00 Y1.00 Z-0.10\nG0 Z2.00\n(cut 7 of 9)\nM2\n",
        ),
    ),
    // The nearest chain comes first, and lines may cross; at the end of the grid the box is cut.
    (
        "strokes --drawing=d --form=dxf --rmax=600 --depth=10 --bit=1/1 --pitch=5",
        (CROSSING, ""),
        (
            0,
            "(strokes 2 chains 2 depth 10)\nG21\nG90\nF500\nG0 Z2.00\nG0 X327.50 Y-0.10\nG1 Z-0.10\nG1 X327.67 Y-0.10 Z-0.10\n\
             G0 Z2.00\nG0 X327.67 Y0.00\nG1 Z-0.10\nG1 X327.67 Y-0.20 Z-0.10\nG0 Z2.00\n(cut 23 of 54)\nM2\n",
        ),
    ),
    // Ends that are close are one, and a line that is too short is no stroke.
    (
        "strokes --drawing=d --form=dxf --rmax=600 --depth=10 --bit=1/2 --pitch=10",
        (CLOSE, ""),
        (
            0,
            "(strokes 2 chains 1 depth 10)\nG21\nG90\nF500\nG0 Z2.00\nG0 X0.00 Y0.00\nG1 Z-0.10\nG1 X0.50 Y0.00 Z-0.10\n\
             G1 X0.50 Y0.50 Z-0.10\nG0 Z2.00\n(cut 11 of 36)\nM2\n",
        ),
    ),
    (
        "strokes --drawing=d --form=dxf --rmax=600 --depth=10 --bit=1/1",
        (NO_LINES, ""),
        (
            0,
            "(strokes 0 chains 0 depth 10)\nG21\nG90\nF500\nG0 Z2.00\n(cut 0 of 0)\nM2\n",
        ),
    ),
    // What is refused.
    (
        "strokes --drawing=d --form=dxf --rmax=600 --depth=10 --bit=1/1 --pitch=1",
        (ACROSS, ""),
        (3, "input too many points\n"),
    ),
    (
        "strokes --drawing=d --form=dxf --bit=1/1 --rmax=600 --depth=601",
        ("", ""),
        (2, "usage\n"),
    ),
    (
        "strokes --drawing=d --form=dxf --bit=1/1 --rmax=600 --depth=600",
        ("", ""),
        (3, "input dxf pair 1 unended\n"),
    ),
    (
        "strokes --drawing=e --form=dxf --bit=1/1 --rmax=600 --depth=600",
        ("", ""),
        (4, "absent drawing\n"),
    ),
];

#[test]
fn programs_along_lines(rt: HostRuntime) {
    expect(&rt, rt.alloc(), "", CASES);
}

/// The program along the lines of a letter.
const LETTER: &str =
    "(strokes 4 chains 1 depth 10)\nG21\nG90\nF500\nG0 Z2.00\nG0 X0.00 Y0.00\nG1 Z-0.10\nG1 X2.00 Y0.00 Z-0.10\n\
             G1 X2.00 Y9.00 Z-0.10\nG1 X0.00 Y9.00 Z-0.10\nG1 X0.00 Y0.00 Z-0.10\nG0 Z2.00\n(cut 3 of 3)\nM2\n";

#[test]
fn a_letter_is_engraved_along_its_lines(rt: HostRuntime) {
    let words = "strokes --drawing=d --form=cxf --bit=1/1 --rmax=600 --depth=10";
    for (pitch, letters, want) in [
        ("", "I?", (3, "input lay no glyph 1\n")),
        ("--pitch=450", "I", (0, LETTER)),
    ] {
        let (status, text) = run_text(rt.alloc(), &[words, pitch], letters, (FONT, ""));
        assert_eq!(rt; (status, text.as_str()), want, "{letters}");
    }
}
