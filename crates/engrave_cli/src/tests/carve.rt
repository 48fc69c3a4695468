// `carve`: small programs by their whole text, what `check` says of them, and refusals. The expected nodes follow from the definitions by
// hand, or were computed in fractions by another program.

use super::{ANGLE, Case, GRID, NEVER, SQUARE, expect, plain_run, run};
use std::alloc::{AllocError, Global};
use std::test::Fail;

/// A square of 4 grid units.
pub const SMALL: &str = "0,0 4,0 4,4 0,4";

/// The square's program with a bit that fits into it, and its report of the points one grid unit apart.
pub const CARVED: &str =
    "(bit 1/1 rmax 2 limit 32767 step 2)\nG21\nG90\nF500\nG0 Z2.00\nG0 X0.00 Y0.00\nG1 Z0.00\n\
    G1 X0.02 Y0.02 Z-0.02\nG1 X0.04 Y0.00 Z0.00\nG1 X0.02 Y0.02 Z-0.02\nG1 X0.04 Y0.04 Z0.00\n\
    G1 X0.02 Y0.02 Z-0.02\nG1 X0.00 Y0.04 Z0.00\nG1 X0.02 Y0.02 Z-0.02\nG1 X0.00 Y0.00 Z0.00\nG0 Z2.00\n\
    (uncut 0 of 9)\nM2\n";

const CASES: &[Case<'static>] = &[
    (
        "carve --drawing=d --bit=1/1 --rmax=2 --step=2 --pitch=1",
        (SMALL, ""),
        (0, CARVED),
    ),
    // A bit that is too narrow for the middle goes round it, and leaves it.
    (
        "carve --drawing=d --bit=1/1 --rmax=1 --step=2 --units=in1000 --safe=5 --feed=10000 --limit=9 --pitch=1",
        (SMALL, ""),
        (
            0,
            "(bit 1/1 rmax 1 limit 9 step 2)\nG20\nG90\nF10000\nG0 Z0.005\nG0 X0.000 Y0.000\nG1 Z0.000\n\
             G1 X0.002 Y0.001 Z-0.001\nG1 X0.004 Y0.000 Z0.000\nG1 X0.003 Y0.002 Z-0.001\n\
             G1 X0.004 Y0.004 Z0.000\nG1 X0.002 Y0.003 Z-0.001\nG1 X0.000 Y0.004 Z0.000\n\
             G1 X0.001 Y0.002 Z-0.001\nG1 X0.000 Y0.000 Z0.000\nG0 Z0.005\n\
             (uncut y 2 x 2 to 2)\n(uncut 1 of 9)\nM2\n",
        ),
    ),
    // At the corners alone nothing is cut: five chains at the surface.
    (
        "carve --drawing=d --bit=1/1 --rmax=2 --step=4 --pitch=2",
        (SMALL, ""),
        (
            0,
            "(bit 1/1 rmax 2 limit 32767 step 4)\nG21\nG90\nF500\nG0 Z2.00\n\
             G0 X0.00 Y0.00\nG1 Z0.00\nG0 Z2.00\nG0 X0.00 Y0.00\nG1 Z0.00\nG0 Z2.00\n\
             G0 X0.04 Y0.00\nG1 Z0.00\nG0 Z2.00\nG0 X0.04 Y0.04\nG1 Z0.00\nG0 Z2.00\n\
             G0 X0.00 Y0.04\nG1 Z0.00\nG0 Z2.00\n\
             (uncut y 2 x 2 to 2)\n(uncut 1 of 1)\nM2\n",
        ),
    ),
    // A drawing without loops.
    (
        "carve --drawing=d --bit=1/1 --rmax=2 --step=2",
        ("", ""),
        (
            0,
            "(bit 1/1 rmax 2 limit 32767 step 2)\nG21\nG90\nF500\nG0 Z2.00\n(uncut 0 of 0)\nM2\n",
        ),
    ),
    // Carving is refused in its order.
    (
        "carve --drawing=d --bit=1/1 --rmax=1 --step=5",
        ("0,-9 9,-1 9,-9\n0,0 32767,32766 32767,32767 0,1", ""),
        (3, "input step too fine 3\n"),
    ),
    (
        "carve --drawing=e --bit=1/1 --rmax=1 --step=5",
        (SQUARE, ""),
        (4, "absent drawing\n"),
    ),
    (
        "carve --drawing=d --bit=1/1 --rmax=1 --step=5",
        ("5,5", ""),
        (3, "input loops 0 short\n"),
    ),
    (
        "carve --drawing=d --bit=1/1 --rmax=1 --step=5 --pitch=0",
        (ANGLE, ""),
        (2, "usage\n"),
    ),
    (
        "carve --drawing=d --bit=1/1 --rmax=1 --step=32767 --pitch=1",
        (GRID, ""),
        (3, "input too many points\n"),
    ),
    (
        "carve --drawing=d --bit=1/1 --rmax=1 --step=7 --pitch=1",
        (GRID, ""),
        (3, "input step too fine 0\n"),
    ),
];

#[test]
fn a_small_square_is_carved_line_by_line_or_refused(rt: HostRuntime) {
    expect(&rt, rt.alloc(), "", CASES);
}

#[test]
fn carved_programs_are_called_clear(rt: HostRuntime) {
    let alloc = rt.alloc();
    let carve = "carve --drawing=d --bit=1/1 --rmax=2";
    let check = "check --drawing=d --code=c --bit=1/1 --rmax=2";
    for (drawing, step, line) in [
        (SMALL, "--step=2", "clear 10 moves\n"),
        (SMALL, "--step=4", "clear 14 moves\n"),
        ("", "--step=2", "clear 0 moves\n"),
    ] {
        let (status, code) = plain_run(alloc, &[carve, step], (drawing, ""));
        assert_eq!(rt; status, 0, "{step} of {drawing}");
        let files = (drawing, code.as_str());
        expect(&rt, alloc, check, &[("", files, (0, line))]);
    }
}

/// Four squares of 8188 pieces a side, and so many small ones of one and small triangles of one. Where no depth fits, each node of a
/// loop is a chain, the first twice.
fn squares(alloc: Global, small: u32, triangles: u32) -> Result<String, AllocError> {
    let mut drawing = String::from_str(
        alloc,
        "-32768,-32768 -16,-32768 -16,-16 -32768,-16\n0,-32768 32752,-32768 32752,-16 0,-16\n\
         -32768,0 -16,0 -16,32752 -32768,32752\n0,0 32752,0 32752,32752 0,32752\n",
    )?;
    for number in 0..small {
        let low = 9 + 20 * u64::from(number);
        let high = low + 4;
        writeln!(drawing, "-10,{low} -6,{low} -6,{high} -10,{high}")?;
    }
    for number in 0..triangles {
        let low = 1009 + 20 * u64::from(number);
        let high = low + 2;
        writeln!(drawing, "-10,{low} -8,{low} -8,{high}")?;
    }
    Ok(drawing)
}

#[test]
fn there_may_be_so_many_chains_and_no_more(rt: HostRuntime) -> Result<(), Fail> {
    let words = "carve --drawing=d --bit=2/1 --rmax=1 --step=4 --pitch=32767";
    // 4 * 32,753 + 12 * 5 are 131,072 chains. Of the report's four points one is inside, and it is left.
    let most = squares(rt.alloc(), 12, 0)?;
    // A triangle has four: 4 * 32,753 + 9 * 5 + 4 * 4 are one chain more.
    let more = squares(rt.alloc(), 9, 4)?;
    let (status, text) = plain_run(rt.alloc(), &[words], (most.as_str(), ""));
    let lines = text.as_str().lines().count();
    assert_eq!(rt; (status, lines), (0, 5 + 3 * 131_072 + 3));
    let refused = (3, "input too many chains\n");
    expect(
        &rt,
        rt.alloc(),
        words,
        &[("", (more.as_str(), ""), refused)],
    );
    Ok(())
}

#[test]
fn a_failing_device_is_reported_in_place_of_a_program(rt: HostRuntime) {
    let words = "carve --drawing=d --bit=1/1 --rmax=2 --step=2";
    let files = (SMALL, "");
    for (per_call, failing, want) in [
        (10, (NEVER, 2), (6, "(bit 1/1 r")),
        (65_536, (1, NEVER), (5, "read fault\n")),
    ] {
        assert!(rt; 1 <= per_call);
        let (status, text) = run(rt.alloc(), &[words], files, per_call, failing);
        assert_eq!(rt; (status, text.as_str()), want, "{failing:?}");
    }
}
