// `check`: the verdict on a G-code program, over a drawing.
ghost use Rattle.std.specs.Prelude.{◌≤◌, None};

use super::{ANGLE, Case, DOWN, LENIENT, NEVER, SQUARE, expect, run, shelf};
use depth_rule::Scene;
use engrave_core::{StreamFault, check_stream};
use gcode_text::{CodeFault, CodeKind};
use gouge_checker::Verdict;
use grid_num::Units;
use loops_text::read_loops;
use plane_exact::Bit;
use shop_port::{Depot, Failed, Fetch, MemDepot};
use std::alloc::Global;

/// A square of four grid units.
const SMALL: &str = "0,0 4,0 4,4 0,4";

/// From the one arm of the L into the other, past its inner corner.
const ROUND: &str = "G21\nG0 Z2\nG0 X1 Y3\nG1 Z-1\nG1 X3 Y1\nM2\n";

/// A carved square: from the corners to the middle and back.
const CARVED: &str =
    "(bit 1/1 rmax 2 limit 32767 step 2)\nG21\nG90\nF500\nG0 Z2.00\nG0 X0.00 Y0.00\nG1 Z0.00\nG1 X0.02 Y0.02 Z-0.02\nG1 X0.04 Y0.00 Z0.00\n\
    G1 X0.02 Y0.02 Z-0.02\nG1 X0.04 Y0.04 Z0.00\nG1 X0.02 Y0.02 Z-0.02\nG1 X0.00 Y0.04 Z0.00\nG1 X0.02 Y0.02 Z-0.02\n\
    G1 X0.00 Y0.00 Z0.00\nG0 Z2.00\n(uncut 0 of 9)\nM2\n";

/// Down on a slope, through the surface over the corner of the L, a tenth of a grid unit before it and a tenth behind it.
const OVER_THE_CORNER: &str = "G0 Z1\nG0 X1 Y3\nG1 X3 Y1 Z-1";

const BEFORE_THE_CORNER: &str = "G0 Z0.999\nG0 X1 Y3\nG1 X3 Y1 Z-1";

const BEHIND_THE_CORNER: &str = "G0 Z1.001\nG0 X1 Y3\nG1 X3 Y1 Z-1";

/// The largest square.
const LARGEST: &str = "-32768,-32768 32767,-32768 32767,32767 -32768,32767";

const CASES: &[Case<'static>] = &[
    (
        "--bit=1/1 --rmax=200",
        (ANGLE, ROUND),
        (1, "line 5 gouge edge 2\n"),
    ),
    (
        "--bit=1/1 --rmax=50",
        (ANGLE, ROUND),
        (1, "line 4 too deep\n"),
    ),
    (
        "--bit=1/1 --rmax=200",
        (ANGLE, DOWN),
        (0, "clear 2 moves\n"),
    ),
    (
        "--bit=1/1 --rmax=200",
        (ANGLE, LENIENT),
        (0, "clear 3 moves\n"),
    ),
    (
        "--bit=1/1 --rmax=200",
        (ANGLE, "G0 Z2\nG0 X3 Y3\nG1 Z-0.1"),
        (1, "line 3 outside\n"),
    ),
    ("--bit=1/1 --rmax=200", (ANGLE, ""), (0, "clear 0 moves\n")),
    (
        "--bit=1/1 --rmax=200",
        ("", "G0 Z2\nG0 X1 Y3\nG1 Z-0.1"),
        (1, "line 3 outside\n"),
    ),
    (
        "--bit=1/1 --rmax=200",
        ("", "G0 Z2\nG0 X1 Y3\nG0 X9 Y9"),
        (0, "clear 1 moves\n"),
    ),
    (
        "--bit=1/1 --rmax=2",
        (SMALL, CARVED),
        (0, "clear 10 moves\n"),
    ),
    // A disc that touches an edge, and one that reaches over it.
    (
        "--bit=1/1 --rmax=600",
        (SQUARE, "G0 Z2\nG0 X1 Y5\nG1 Z-1"),
        (0, "clear 1 moves\n"),
    ),
    (
        "--bit=1/1 --rmax=600",
        (SQUARE, "G0 Z2\nG0 X1 Y5\nG1 Z-1.01"),
        (1, "line 3 gouge edge 3\n"),
    ),
    // Ends on the outline at the surface, runs along an edge at the surface, and rises in place.
    (
        "--bit=1/1 --rmax=600",
        (SQUARE, "G0 Z2\nG0 X1 Y5\nG1 Z0\nG1 X0 Y5"),
        (0, "clear 2 moves\n"),
    ),
    (
        "--bit=1/1 --rmax=600",
        (SQUARE, "G0 Z2\nG0 X0 Y0\nG1 Z0\nG1 X10 Y0"),
        (0, "clear 2 moves\n"),
    ),
    (
        "--bit=1/1 --rmax=600",
        (SQUARE, "G0 Z2\nG0 X1 Y5\nG1 Z-1\nG0 Z2"),
        (0, "clear 2 moves\n"),
    ),
    // A tip that stands on an edge gouges it.
    (
        "--bit=1/1 --rmax=600",
        ("0,0 9,0 0,9", "G0 Z2\nG0 X0.05 Y0\nG1 Z-0.01"),
        (1, "line 3 gouge edge 0\n"),
    ),
    // A rapid move below the surface is a move like any other.
    (
        "--bit=1/1 --rmax=600",
        (SQUARE, "G0 Z2\nG0 X1 Y5\nG1 Z-1\nG0 X11 Y5"),
        (1, "line 4 gouge edge 1\n"),
    ),
    (
        "--bit=1/1 --rmax=200",
        (ANGLE, "G2 X1"),
        (3, "input code line 1 word\n"),
    ),
    // A slope is judged by its part below the surface.
    (
        "--bit=1/1 --rmax=600",
        (ANGLE, "G0 Z2\nG0 X1 Y3\nG1 X1 Y1 Z-1"),
        (0, "clear 1 moves\n"),
    ),
    (
        "--bit=1/1 --rmax=600",
        (ANGLE, OVER_THE_CORNER),
        (0, "clear 1 moves\n"),
    ),
    (
        "--bit=1/1 --rmax=600",
        (ANGLE, BEHIND_THE_CORNER),
        (0, "clear 1 moves\n"),
    ),
    (
        "--bit=1/1 --rmax=600",
        (ANGLE, BEFORE_THE_CORNER),
        (1, "line 3 gouge edge 2\n"),
    ),
    (
        "--bit=1/1 --rmax=600",
        (ANGLE, "G0 Z0.5\nG0 X1 Y3\nG1 X3 Y1 Z-1"),
        (1, "line 3 gouge edge 2\n"),
    ),
    // Out of the plate on a slope, inside the drawing, and past its edge at the surface and below it.
    (
        "--bit=1/1 --rmax=600",
        (SQUARE, "G0 Z2\nG0 X1 Y5\nG1 Z-1\nG1 X5 Y5 Z1"),
        (0, "clear 2 moves\n"),
    ),
    (
        "--bit=1/1 --rmax=600",
        (SQUARE, "G0 Z2\nG0 X5 Y5\nG1 Z-1\nG1 X15 Y5 Z1"),
        (0, "clear 2 moves\n"),
    ),
    (
        "--bit=1/1 --rmax=600",
        (SQUARE, "G0 Z2\nG0 X5 Y5\nG1 Z-1\nG1 X15 Y5 Z0"),
        (1, "line 4 gouge edge 1\n"),
    ),
    // From surface to surface nothing is cut, wherever it goes.
    (
        "--bit=1/1 --rmax=600",
        (SQUARE, "G0 Z0\nG0 X1 Y5\nG1 X20 Y5"),
        (0, "clear 1 moves\n"),
    ),
    // Half a grid unit off the grid: the disc touches the edge, and a tenth deeper it reaches over it.
    (
        "--bit=1/1 --rmax=600",
        (SQUARE, "G0 Z2\nG0 X0.105 Y5\nG1 Z-0.105"),
        (0, "clear 1 moves\n"),
    ),
    (
        "--bit=1/1 --rmax=600",
        (SQUARE, "G0 Z2\nG0 X0.105 Y5\nG1 Z-0.106"),
        (1, "line 3 gouge edge 3\n"),
    ),
    // Moves at the ends of the ranges.
    // From a corner, a tenth above the surface, to where the widest disc just doesn't reach the right edge, and one unit on.
    (
        "--bit=2000/1999 --rmax=8191",
        (
            LARGEST,
            "G0 Z0.001\nG0 X-327.68 Y-327.68\nG1 X245.76 Y245.76 Z-81.86",
        ),
        (0, "clear 1 moves\n"),
    ),
    (
        "--bit=2000/1999 --rmax=8191",
        (
            LARGEST,
            "G0 Z0.001\nG0 X-327.68 Y-327.68\nG1 X245.77 Y245.76 Z-81.86",
        ),
        (1, "line 3 gouge edge 1\n"),
    ),
    // From the greatest height to the greatest depth.
    (
        "--bit=1/2000 --rmax=8191",
        (
            LARGEST,
            "G0 Z327.67\nG0 X-327.68 Y-327.68\nG1 X0 Y0 Z-327.67",
        ),
        (0, "clear 1 moves\n"),
    ),
    (
        "--bit=1/2000 --rmax=8191",
        (
            LARGEST,
            "G0 Z327.67\nG0 X-327.68 Y-327.68\nG1 X327.67 Y327.67 Z-327.67",
        ),
        (1, "line 3 gouge edge 1\n"),
    ),
];

#[test]
fn check_names_the_first_move_that_gouges(rt: HostRuntime) {
    expect(&rt, rt.alloc(), "check --drawing=d --code=c", CASES);
}

#[test]
fn a_program_read_in_pieces_is_the_same_program(rt: HostRuntime) {
    let words = "check --drawing=d --code=c --bit=1/1 --rmax=200";
    let files = (ANGLE, LENIENT);
    for per_call in [1, 7, 64] {
        assert!(rt; 1 <= per_call);
        let (status, text) = run(rt.alloc(), &[words], files, per_call, (NEVER, NEVER));
        assert_eq!(rt;
            (status, text.as_str()),
            (0, "clear 3 moves\n"),
            "{per_call}"
        );
    }
}

/// What the stored code is judged as over the L, with a bit of 90 degrees, read through a buffer of so many bytes.
fn judged_by<D: Depot>(
    alloc: Global,
    depot: &mut D,
    room: usize,
) -> Option<Result<(Verdict, u32), StreamFault>>
    requires { 1 ≤ room }
{
    let bit = Bit::new(1, 1, 200)?;
    let drawing = read_loops(alloc, ANGLE.as_bytes()).ok()?;
    let scene = Scene::new(alloc, drawing).ok()?;
    let mut buffer = vec![in alloc; 0; room].ok()?;
    Some(check_stream(&scene, &bit, Units::Mm100, depot, "c", &mut buffer))
}

/// The same of a code in memory, where the read of this number fails.
fn judged(
    alloc: Global,
    code: &str,
    room: usize,
    failing: u64,
) -> Option<Result<(Verdict, u32), StreamFault>>
    requires { 1 ≤ room }
{
    let failing = [failing].to_vec(alloc).ok()?;
    let files = shelf(alloc, ANGLE.as_bytes(), code.as_bytes()).ok()?;
    judged_by(alloc, &mut MemDepot::new(files, 65_536, failing), room)
}

/// What codes are judged as.
const JUDGED: &[(&str, Result<(Verdict, u32), StreamFault>)] = &[
    (LENIENT, Ok((Verdict::Clear, 3))),
    (DOWN, Ok((Verdict::Clear, 2))),
    (ROUND, Ok((Verdict::Gouge { line: 5, edge: 2 }, 2))),
    (
        "G0 Z2\nG0 X3 Y3\nG1 Z-0.1",
        Ok((Verdict::Outside { line: 3 }, 1)),
    ),
    (
        "G0 Z2\r\nG0 X1 Y3\r\nG1 Z-9\r\n",
        Ok((Verdict::TooDeep { line: 3 }, 1)),
    ),
    (
        "Z-1",
        Err(StreamFault::Code(CodeFault {
            line: 1,
            kind: CodeKind::Unplaced,
        })),
    ),
    (
        "G0 X1 X2",
        Err(StreamFault::Code(CodeFault {
            line: 1,
            kind: CodeKind::Twice,
        })),
    ),
    (
        "G90\n\nG91",
        Err(StreamFault::Code(CodeFault {
            line: 3,
            kind: CodeKind::Incremental,
        })),
    ),
    (
        "G20",
        Err(StreamFault::Code(CodeFault {
            line: 1,
            kind: CodeKind::Units,
        })),
    ),
    (
        "(a",
        Err(StreamFault::Code(CodeFault {
            line: 1,
            kind: CodeKind::OpenComment,
        })),
    ),
    ("", Ok((Verdict::Clear, 0))),
];

#[test]
fn the_buffer_may_have_any_room(rt: HostRuntime) {
    for room in [1, 2, 3, 65_536] {
        assert!(rt; 1 <= room);
        for (code, answer) in JUDGED {
            let judged = judged(rt.alloc(), code, room, NEVER);
            assert_eq!(rt; judged, Some(*answer), "{code} by {room} bytes");
        }
    }
}

#[test]
fn a_failing_read_is_answered_whatever_came_before_it(rt: HostRuntime) {
    // One read takes each of these codes whole, and a second one finds the file's end: behind a fault of the code, behind a move
    // that gouges, and behind the end word. The last comes in the middle of the line that has the fault.
    for (code, room) in [("G2", 65_536), (ROUND, 65_536), (DOWN, 65_536), ("G2", 1)] {
        assert!(rt; 1 <= room);
        let cut = judged(rt.alloc(), code, room, 2);
        assert_eq!(rt;
            cut,
            Some(Err(StreamFault::ReadFault)),
            "{code} by {room} bytes"
        );
    }
}

/// A file that begins with a text and goes on with blanks, of so many bytes in all.
#[derive(Drop)]
struct LongDepot {
    front: &'static str,
    length: u64,
}

impl Depot for LongDepot {
    ghost held = { λ _. None };

    ghost faults = { λ _. 0 };

    ghost misses = { λ _. 0 };

    fn read(&mut self, _name: &str, at: u64, into: &mut [u8]) -> Result<Fetch, Failed> {
        let room = into.len() as u64;
        into.fill(b' ');
        if at == 0 {
            for (place, byte) in into.iter_mut().zip(self.front.as_bytes()) {
                *place = *byte;
            }
        }
        Ok(Fetch::Got(room.min(self.length.saturating_sub(at)) as usize))
    }
}

#[test]
fn too_long_a_program_is_answered_whatever_came_before_its_end(rt: HostRuntime) {
    for (front, length, answer) in [
        ("G2\n", 536_870_913, Err(StreamFault::TooLong)),
        ("M2\n", 536_870_913, Err(StreamFault::TooLong)),
        (ROUND, 536_870_913, Err(StreamFault::TooLong)),
        (
            ROUND,
            536_870_912,
            Ok((Verdict::Gouge { line: 5, edge: 2 }, 2)),
        ),
    ] {
        let judged = judged_by(rt.alloc(), &mut LongDepot { front, length }, 65_536);
        assert_eq!(rt; judged, Some(answer), "{front} in {length} bytes");
    }
}
