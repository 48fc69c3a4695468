// Files in loops form with what docs/COMMANDS.md says of them, and each call of a drawing once.
ghost use Rattle.std.specs.Prelude.{◌≢◌, IfSome};

use crate::points::point;
use loops_text::{Drawing, LoopsFault, LoopsKind, PushFault, crosses, read_loops, write_loops};
use plane_exact::{Point, Seg};
use std::alloc::{AllocError, Global};
use std::process::Abort;
use std::test::Fail;

// Each text with its loops, a line each, or with the place and the kind of its first fault.
const TEXTS: [(&[u8], &str); 38] = [
    (b"", ""),
    (b"\n\r\n", ""),
    (b"0,0 30,0 0,40\n", "0,0 30,0 0,40\n"),
    (b"0,0 1,1", "0,0 1,1\n"),
    (b"0,0 1,1\r\n2,2 3,3\r\n", "0,0 1,1\n2,2 3,3\n"),
    (b"0,0 1,1\r", "0,0 1,1\n"),
    (b"\t 0,0\t1,1 \t\n", "0,0 1,1\n"),
    (b"# plate\n \t\n \t# 1,1 x\n0,0 1,1\n", "0,0 1,1\n"),
    (b"-0,0 -32768,32767\n", "0,0 -32768,32767\n"),
    (b"000000001,0 0,-00000002\n", "1,0 0,-2\n"),
    (b"0,0 1,1\n1,1 0,0\n", "0,0 1,1\n1,1 0,0\n"),
    (b"0,0 1,1 0,0 2,2\n", "0,0 1,1 0,0 2,2\n"),
    (b"0,0 -,1\n", "4 Syntax"),
    (b"0,0 --1,1\n", "4 Syntax"),
    (b"0000000001,0 1,1\n", "0 Syntax"),
    (b"-1234567890,0 1,1\n", "0 Syntax"),
    (b"+5,0 1,1\n", "0 Syntax"),
    (b"0,0 5 1,1\n", "4 Syntax"),
    (b"0,0 1,1,1\n", "4 Syntax"),
    (b"0,0 ,1\n", "4 Syntax"),
    (b"0,0 1,\n", "4 Syntax"),
    (b"0,0 , 1,1\n", "4 Syntax"),
    (b"0,0 1.5,1\n", "4 Syntax"),
    (b"0,0\r 1,1\n", "0 Syntax"),
    (b"0,0 1,1\r\r\n", "4 Syntax"),
    (b"0,0 1,\xB2\n", "4 Syntax"),
    (b"0,0\x00 1,1\n", "0 Syntax"),
    (b"0,0 1,1 #\n", "8 Syntax"),
    (b"0,0 32768,0\n", "4 OutOfRange"),
    (b"0,0 0,-32769\n", "4 OutOfRange"),
    (b"0,0 999999999,0\n", "4 OutOfRange"),
    (b"0,0 1,1 1,1 2,2\n", "8 SamePoint"),
    (b"0,0 -0,00 x\n", "4 SamePoint"),
    (b"0,0 1,1 0,0\n", "8 SamePoint"),
    (b"0,0 1,1 0,0 x\n", "12 Syntax"),
    (b"0,0 1,1\n  7,7\n", "10 Short"),
    (b"7,7\n0,0 x\n", "0 Short"),
    (b"0,0 1,1\n\n# x\n2,2 3;3", "17 Syntax"),
];

#[test]
fn reads_and_writes_as_the_manual_says(rt: HostRuntime) -> Result<(), Fail> {
    for (text, want) in TEXTS.iter() {
        expect(&rt, rt.alloc(), text, want)?;
    }
    Ok(())
}

// What is written of the text, or its fault, is the wanted one.
fn expect(rt: &impl Abort, alloc: Global, text: &[u8], want: &str) -> Result<(), AllocError> {
    assert!(rt; text.len() < 100);
    let answer = described(alloc, read_loops(alloc, text))?;
    assert_eq!(rt; answer.as_slice(), want.as_bytes(), "at {text:?}");
    Ok(())
}

// The drawing as it is written, or the fault.
fn described(alloc: Global, answer: Result<Drawing, LoopsFault>) -> Result<Vec<u8>, AllocError> {
    match answer {
        Ok(drawing) => write_loops(alloc, &drawing),
        Err(LoopsFault { at, kind }) => Ok(format!(in alloc; "{at} {kind:?}")?.into_bytes()),
    }
}

// What a text is up to each of its bytes.
const CUT_OFF: (&[u8], [&str; 13]) = (
    b"0,0 9,0 0,9\n",
    [
        "",
        "0 Syntax",
        "0 Syntax",
        "0 Short",
        "0 Short",
        "4 Syntax",
        "4 Syntax",
        "0,0 9,0\n",
        "0,0 9,0\n",
        "8 Syntax",
        "8 Syntax",
        "0,0 9,0 0,9\n",
        "0,0 9,0 0,9\n",
    ],
);

// Cut off at any byte, a text is what stands there, or its last point or its loop isn't whole.
#[test]
fn tells_what_stands_before_a_cut(rt: HostRuntime) -> Result<(), Fail> {
    let (text, wants) = CUT_OFF;
    for (cut, want) in wants.iter().enumerate() {
        assert!(rt; cut <= text.len());
        expect(&rt, rt.alloc(), &text[..cut], want)?;
    }
    Ok(())
}

// In loops of four; one point more is refused where it stands, in the last line as on one of its own.
#[test]
fn takes_131072_points(rt: HostRuntime) -> Result<(), Fail> {
    let mut text = Vec::new(rt.alloc());
    for _ in 0..32_768 {
        text.extend_from_slice(b"0,0 1,0 1,1 0,1\n")?;
    }
    assert!(rt; text.len() < 1_000_000);
    assert_eq!(rt; edges(read_loops(rt.alloc(), &text)), 131_072);
    let fault = LoopsFault {
        at: 524_288,
        kind: LoopsKind::TooMany,
    };
    for before in [b'\n', b' '] {
        text.truncate(524_287);
        text.push(before)?;
        text.extend_from_slice(b"5,5 6,6\n")?;
        assert!(rt; text.len() < 1_000_000);
        assert_eq!(rt; read_loops(rt.alloc(), &text).err(), Some(fault));
    }
    Ok(())
}

fn edges(answer: Result<Drawing, LoopsFault>) -> u32 {
    match answer {
        Ok(drawing) => drawing.edges(),
        Err(_) => 0,
    }
}

#[test]
fn keeps_loops_and_edges(rt: HostRuntime) {
    let (a, b, c) = (point(0, 0), point(7, 0), point(0, 9));
    let mut drawing = Drawing::empty(rt.alloc());
    assert_eq!(rt; drawing.push_loop(&[a, b]), Ok(()));
    assert_eq!(rt; drawing.push_loop(&[c, a, b]), Ok(()));
    assert_eq!(rt; drawing.push_loop(&[a]), Err(PushFault::Short));
    assert_eq!(rt; drawing.push_loop(&[a, b, a]), Err(PushFault::SamePoint));
    expect_loops(&rt, &drawing, a, b, c);
    expect_edges(&rt, &drawing, a, b, c);
}

// The loops are from a to b and from c by way of a to b.
fn expect_loops(rt: &impl Abort, drawing: &Drawing, a: Point, b: Point, c: Point) {
    assert_eq!(rt; drawing.loops(), 2);
    assert_eq!(rt; drawing.points(1), [c, a, b].as_slice());
}

fn expect_edges(rt: &impl Abort, drawing: &Drawing, a: Point, b: Point, c: Point) {
    assert_eq!(rt; drawing.edges(), 5);
    assert_eq!(rt; drawing.edge(1), Seg { a: b, b: a });
    assert_eq!(rt; (drawing.loop_of(1), drawing.loop_of(2)), (0, 1));
    assert_eq!(rt; drawing.all_edges().last(), Some(&Seg { a: b, b: c }));
}

// The ends of a segment with whether it crosses the one from 0,0 to 4,0: across, on from its middle, along a part of it, on from its
// end, and beside it.
const CROSSING: [([i64; 4], bool); 5] = [
    ([1, 1, 3, -1], true),
    ([2, 0, 2, 5], true),
    ([1, 0, 9, 0], true),
    ([4, 0, 4, 5], false),
    ([0, 1, 4, 1], false),
];

#[test]
fn tells_which_segments_cross(rt: HostRuntime) -> Result<(), Fail> {
    let first = segment(0, 0, 4, 0).expect(&rt, "a segment");
    for ([x, y, to_x, to_y], want) in CROSSING.iter() {
        let next = segment(*x, *y, *to_x, *to_y).expect(&rt, "a segment");
        assert_eq!(rt; crosses(&first, &next), *want, "from {x},{y}");
    }
    Ok(())
}

fn segment(x: i64, y: i64, to_x: i64, to_y: i64) -> Option<Seg>
    ensures { IfSome result (λ s. s.a ≢ s.b) }
{
    let a = Point::new(x, y)?;
    let b = Point::new(to_x, to_y)?;
    if a == b {
        return None;
    }
    Some(Seg { a, b })
}
