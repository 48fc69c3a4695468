// Drawings whose edges cross or overlap, by the even-odd rule: what is refused else, and depths, verdicts and programs where it is not.

use super::{Case, SQUARE, expect, plain_run};

/// Two squares whose corners lie in each other.
const CROSSING: &str = "0,0 200,0 200,200 0,200\n100,100 300,100 300,300 100,300";

/// A square that is given twice.
const TWICE: &str = "0,0 100,0 100,100 0,100\n0,0 100,0 100,100 0,100";

/// A DXF file of two squares of a millimetre that share a side.
const SHARED: &str = "0\nSECTION\n2\nENTITIES\n\
    0\nLINE\n10\n0\n20\n0\n11\n1\n21\n0\n0\nLINE\n10\n1\n20\n0\n11\n1\n21\n1\n\
    0\nLINE\n10\n1\n20\n1\n11\n0\n21\n1\n0\nLINE\n10\n0\n20\n1\n11\n0\n21\n0\n\
    0\nLINE\n10\n1\n20\n0\n11\n2\n21\n0\n0\nLINE\n10\n2\n20\n0\n11\n2\n21\n1\n\
    0\nLINE\n10\n2\n20\n1\n11\n1\n21\n1\n0\nLINE\n10\n1\n20\n1\n11\n1\n21\n0\n\
    0\nENDSEC\n0\nEOF\n";

/// A font whose one letter is a plus of two bars that cross.
const PLUS: &str = "[+] 8\nL 0,3,9,3\nL 9,3,9,6\nL 9,6,0,6\nL 0,6,0,3\n\
    L 3,0,6,0\nL 6,0,6,9\nL 6,9,3,9\nL 3,9,3,0\n";

/// A G-code program that plunges at (0.5, 1) and stays there.
const PLUNGE: &str = "G21\nG0 Z2\nG0 X0.5 Y1\nG1 Z-0.5\nM2\n";

/// The same, and on through the edge of the other square.
const THROUGH: &str = "G21\nG0 Z2\nG0 X0.5 Y1\nG1 Z-0.5\nG1 X1.5\nM2\n";

const CASES: &[Case<'static>] = &[
    (
        "flatten --drawing=d",
        (CROSSING, ""),
        (3, "input cross 1,4\n"),
    ),
    (
        "flatten --drawing=d --cross=refuse",
        (TWICE, ""),
        (3, "input cross 0,4\n"),
    ),
    (
        "flatten --drawing=d --cross=evenodd",
        (CROSSING, ""),
        (
            0,
            "0,0 200,0 200,200 0,200\n100,100 300,100 300,300 100,300\n",
        ),
    ),
    (
        "probe --drawing=d --cross=evenodd --at=150,150 --bit=1/1 --rmax=600",
        (CROSSING, ""),
        (0, "depth 0\n"),
    ),
    (
        "probe --drawing=d --cross=evenodd --at=50,100 --bit=1/1 --rmax=600",
        (CROSSING, ""),
        (0, "depth 50\n"),
    ),
    (
        "probe --drawing=d --cross=evenodd --at=50,50 --bit=1/1 --rmax=600",
        (TWICE, ""),
        (0, "depth 0\n"),
    ),
    // A drawing without a crossing is the same either way.
    (
        "probe --drawing=d --cross=evenodd --at=500,500 --bit=1/1 --rmax=600",
        (SQUARE, ""),
        (0, "depth 500\n"),
    ),
    // What is open is refused all the same.
    (
        "flatten --drawing=d --cross=evenodd --form=cxf --text=I",
        ("[I] 1\nL 0,0,0,9\n", ""),
        (3, "input open 0,0\n"),
    ),
    // A program over crossing squares is judged by parity.
    (
        "check --drawing=d --cross=evenodd --code=c --bit=1/1 --rmax=200",
        (CROSSING, PLUNGE),
        (0, "clear 1 moves\n"),
    ),
    (
        "check --drawing=d --cross=evenodd --code=c --bit=1/1 --rmax=200",
        (CROSSING, THROUGH),
        (1, "line 5 gouge edge 4\n"),
    ),
    // Sides that are shared, and strokes that overlap.
    (
        "carve --drawing=d --form=dxf --bit=1/1 --rmax=40 --step=20",
        (SHARED, ""),
        (3, "input cross 1,7\n"),
    ),
    (
        "carve --drawing=d --form=cxf --text=+ --height=90 --bit=1/1 --rmax=40 --step=20",
        (PLUS, ""),
        (3, "input cross 0,5\n"),
    ),
];

#[test]
fn a_drawing_that_crosses_is_taken_where_the_words_say_so(rt: HostRuntime) {
    expect(&rt, rt.alloc(), "", CASES);
}

#[test]
fn overlapping_strokes_and_shared_sides_are_carved_and_checked(rt: HostRuntime) {
    let alloc = rt.alloc();
    let options = "--cross=evenodd --bit=1/1 --rmax=40 --step=20";
    let checks = "--cross=evenodd --code=c --bit=1/1 --rmax=40";
    for (drawing, form) in [
        (SHARED, "--form=dxf"),
        (PLUS, "--form=cxf --text=+ --height=90"),
    ] {
        let (status, code) = plain_run(alloc, &["carve --drawing=d", form, options], (drawing, ""));
        assert_eq!(rt; status, 0, "carve {form}");
        for command in ["check --drawing=d", "cover --drawing=d"] {
            let files = (drawing, code.as_str());
            let (status, _) = plain_run(alloc, &[command, form, checks], files);
            assert_eq!(rt; status, 0, "{command} {form}");
        }
    }
}
