// Files with what the rules make of them, and each kind of fault with its pair.
ghost use Rattle.plane_exact.specs.Cone.{IsFromOneTo};

use arc_flatten::MOST_CHORD;
use dxf_outline::{DxfFault, DxfKind, MOST_DXF_BYTES, Outline, read_dxf};
use grid_num::Units;
use std::alloc::{AllocError, Global};
use std::process::Abort;
use std::test::Fail;

const CIRCLE: &str = "0 SECTION 2 ENTITIES 0 CIRCLE 8 0 10 0.0 20 0.0 40 1.0 0 ENDSEC 0 EOF";

const SQUARE: &str =
    "0 LINE 10 0 20 0 11 1 21 0 0 LINE 10 1 20 0 11 1 21 1 0 LINE 10 1 20 1 11 0 21 1 0 LINE 10 0 20 1 11 0 21 0";

const SQUARE_AND_TEXT: &str =
    "0 LINE 10 0 20 0 11 1 21 0 0 LINE 10 1 20 0 11 1 21 1 0 LINE 10 1 20 1 11 0 21 1 0 LINE 10 0 20 1 11 0 21 0 0 TEXT 10 0 20 0 40 2.5 1 HELLO";

const BEGIN: &str = "0 SECTION 2 ENTITIES ";

const END: &str = " 0 ENDSEC 0 EOF";

// What stands between the begin and the end of the section, with the outline of pieces no wider than 90 degrees, or its fault.
const ENTITIES: [(&str, &str); 41] = [
    (
        SQUARE,
        "0: 0,0 100,0; 100,0 100,100; 100,100 0,100; 0,100 0,0;",
    ),
    (
        SQUARE_AND_TEXT,
        "1: 0,0 100,0; 100,0 100,100; 100,100 0,100; 0,100 0,0;",
    ),
    (
        "0 TEXT 1 A 0 LINE 10 0 20 0 11 1 21 0 0 TEXT 1 B",
        "2: 0,0 100,0;",
    ),
    ("0 VERTEX 10 0 0 SEQEND", "2:"),
    ("0 LINE 10 5 20 0 11 1 21 0 10 2", "0: 200,0 100,0;"),
    ("0 LINE 10 x 20 0 11 1 21 0 10 2", "4 Number"),
    ("0 LINE 10 1e-2 20 +.5 11 1.E0 21 -0", "0: 1,50 100,0;"),
    ("0 LINE 10 1 20 1 11 1.004 21 1", "0:"),
    ("0 LINE 10 0 20 0", "3 Missing(11)"),
    ("0 LINE 11 0 21 0", "3 Missing(10)"),
    ("0 LINE 10 0 20 0 11 400 21 0", "3 OutOfRange"),
    ("0 LINE 10 0 20 0 11 1000.001 21 0", "3 OutOfRange"),
    ("0 LINE 10 0 20 0 11 1e300 21 0", "3 OutOfRange"),
    ("0 LINE 10 0 20 1e999x 11 400", "5 Number"),
    (
        "0 CIRCLE 10 0 20 0 40 1",
        "0: 100,0 0,100; 0,100 -100,0; -100,0 0,-100; 0,-100 100,0;",
    ),
    ("0 CIRCLE 10 0 20 0 40 0", "0:"),
    ("0 CIRCLE 10 0 20 0 40 -1", "3 OutOfRange"),
    ("0 CIRCLE 10 0 20 0", "3 Missing(40)"),
    (
        "0 CIRCLE 10 0 20 0 40 1 50 x",
        "0: 100,0 0,100; 0,100 -100,0; -100,0 0,-100; 0,-100 100,0;",
    ),
    ("0 ARC 10 0 20 0 40 1 50 0 51 90", "0: 100,0 0,100;"),
    ("0 ARC 10 0 20 0 40 1 50 -90 51 0", "0: 0,-100 100,0;"),
    ("0 ARC 10 0 20 0 40 1 51 0", "3 Missing(50)"),
    ("0 ARC 10 0 20 0 40 1 50 0 51 100001", "3 OutOfRange"),
    (
        "0 POLYLINE 70 1 0 VERTEX 10 0 20 0 42 1 0 VERTEX 10 1 20 0 0 SEQEND",
        "0: 0,0 50,-50; 50,-50 100,0; 100,0 0,0;",
    ),
    (
        "0 POLYLINE 70 1 0 VERTEX 10 0 20 0 42 1 0 VERTEX 10 1 20 0 42 1 0 SEQEND",
        "0: 0,0 50,-50; 50,-50 100,0; 100,0 50,50; 50,50 0,0;",
    ),
    (
        "0 POLYLINE 0 VERTEX 10 0 20 0 42 1 0 VERTEX 10 1 20 0 42 1 0 SEQEND",
        "0: 0,0 50,-50; 50,-50 100,0;",
    ),
    ("0 POLYLINE 70 1 0 VERTEX 10 0 20 0 0 SEQEND", "0:"),
    ("0 POLYLINE 70 1 0 VERTEX 10 900 20 0 0 SEQEND", "0:"),
    (
        "0 POLYLINE 0 VERTEX 10 0 20 0 0 VERTEX 70 16 10 x 0 VERTEX 10 1 20 0 0 SEQEND",
        "0: 0,0 100,0;",
    ),
    ("0 POLYLINE 0 VERTEX 70 x 70 16 0 SEQEND", "5 Number"),
    ("0 POLYLINE 70 16 0 VERTEX 10 x 0 SEQEND", "1:"),
    ("0 POLYLINE 70 64 0 VERTEX 0 SEQEND", "1:"),
    ("0 POLYLINE 70 -1 0 SEQEND", "4 Number"),
    (
        "0 POLYLINE 0 VERTEX 10 0 0 VERTEX 10 x 0 SEQEND",
        "7 Number",
    ),
    (
        "0 POLYLINE 0 VERTEX 10 0 0 VERTEX 10 1e9 20 0 0 SEQEND",
        "4 Missing(20)",
    ),
    (
        "0 POLYLINE 0 VERTEX 10 0 20 0 42 10001 0 SEQEND",
        "3 OutOfRange",
    ),
    ("0 POLYLINE 0 VERTEX 10 0 20 0 0 LINE 10 0", "3 Unended"),
    ("0 POLYLINE 0 VERTEX 10 0 20 0", "3 Unended"),
    ("0 LINE 10 x x 0", "5 BadCode"),
    ("0 LINE 12345 0", "4 BadCode"),
    (
        "0 SECTION 2 BLOCKS 0 LINE 10 0 20 0 11 1 21 0 00 TEXT",
        "1: 0,0 100,0;",
    ),
];

#[test]
fn reads_each_entity(rt: HostRuntime) -> Result<(), Fail> {
    for (entities, want) in ENTITIES.iter() {
        let words = format!(in rt.alloc(); "{BEGIN}{entities}{END}")?;
        expect(&rt, rt.alloc(), words.as_str(), b"\n", want)?;
    }
    Ok(())
}

// The outline of the words, or the fault, is the wanted one.
fn expect(
    rt: &impl Abort,
    alloc: Global,
    words: &str,
    line_end: &[u8],
    want: &str,
) -> Result<(), AllocError> {
    let file = file_of(alloc, words.as_bytes(), line_end)?;
    let answer = described(alloc, &file, 90)?;
    assert_eq!(rt; answer.as_str(), want, "at {words}");
    Ok(())
}

// Whole files.
const FILES: [(&str, &str); 8] = [
    ("0 EOF 0 LINE x", "0:"),
    ("-0 EOF", "0:"),
    ("0 LINE 10 x 0 EOF", "0:"),
    ("0 SECTION 2 HEADER 0 LINE 10 x 0 ENDSEC 0 EOF", "0:"),
    ("0 SECTION 9 ENTITIES 2 ENTITIES 0 LINE 0 EOF", "0:"),
    ("0 SECTION 2 ENTITIES 0 TEXT 0 EOF", "1:"),
    ("0 SECTION 2 ENTITIES 0 LINE 10 x", "5 Unended"),
    ("+0 EOF", "1 BadCode"),
];

#[test]
fn reads_whole_files(rt: HostRuntime) -> Result<(), Fail> {
    for (words, want) in FILES.iter() {
        expect(&rt, rt.alloc(), words, b" \r\n\t", want)?;
    }
    assert_eq!(rt; described(rt.alloc(), b"", 90)?.as_str(), "1 Unended");
    assert_eq!(rt; described(rt.alloc(), b"\n", 90)?.as_str(), "1 BadCode");
    Ok(())
}

// Cut off at any byte, the file is unended behind its last whole pair.
#[test]
fn tells_where_a_file_breaks_off(rt: HostRuntime) -> Result<(), Fail> {
    let file = file_of(rt.alloc(), CIRCLE.as_bytes(), b"\n")?;
    assert!(rt; file.len() <= 70);
    for cut in 0..file.len() {
        let answer = read_dxf(rt.alloc(), &file[..cut], Units::Mm100, 45);
        let want = if cut < 69 {
            Some(unended(&file[..cut]))
        } else {
            None
        };
        assert_eq!(rt; answer.err(), want, "at {cut}");
    }
    let answer = described(rt.alloc(), &file, 45)?;
    assert_eq!(rt;
        answer.as_str(),
        "0: 100,0 71,71; 71,71 0,100; 0,100 -71,71; -71,71 -100,0; -100,0 -71,-71; -71,-71 0,-100; 0,-100 71,-71; 71,-71 100,0;"
    );
    Ok(())
}

// What is wrong with a file that breaks off behind this piece: two lines are a pair, and a line that is begun counts.
fn unended(piece: &[u8]) -> DxfFault {
    let mut lines = 0u32;
    let mut before = b'\n';
    for byte in piece {
        if before == b'\n' {
            lines = lines.saturating_add(1);
        }
        before = *byte;
    }
    DxfFault {
        pair: lines / 2 + 1,
        kind: DxfKind::Unended,
    }
}

#[test]
fn takes_131072_segments(rt: HostRuntime) -> Result<(), Fail> {
    let mut words = Vec::new(rt.alloc());
    words.extend_from_slice(b"0\nSECTION\n2\nENTITIES\n")?;
    for _ in 0..131_072 {
        words.extend_from_slice(b"0\nLINE\n10\n0\n20\n0\n11\n1\n21\n0\n")?;
    }
    let whole = words.len();
    words.extend_from_slice(b"0\nLINE\n10\n1\n20\n0\n11\n1\n21\n0\n0\nEOF\n")?;
    assert!(rt; words.len() < 10_000_000);
    assert_eq!(rt;
        count(read_dxf(rt.alloc(), &words, Units::Mm10, 1)),
        131_072
    );
    words.truncate(whole);
    words.extend_from_slice(b"0\nLINE\n10\n0\n20\n0\n11\n1\n21\n0\n0\nEOF\n")?;
    assert!(rt; words.len() < 10_000_000);
    let fault = DxfFault {
        pair: 655_363,
        kind: DxfKind::TooMany,
    };
    assert_eq!(rt;
        read_dxf(rt.alloc(), &words, Units::Mm10, 1).err(),
        Some(fault)
    );
    Ok(())
}

// 300 nearly whole circles have more segments than are taken; but a point that leaves the grid is the fault, also behind them.
#[test]
fn a_later_point_off_the_grid_comes_first(rt: HostRuntime) -> Result<(), Fail> {
    for (last, kind) in [
        (&b"1"[..], DxfKind::TooMany),
        (&b"400"[..], DxfKind::OutOfRange),
    ] {
        let mut words = Vec::new(rt.alloc());
        words.extend_from_slice(b"0\nSECTION\n2\nENTITIES\n0\nPOLYLINE\n")?;
        for _ in 0..150 {
            words.extend_from_slice(b"0\nVERTEX\n10\n0\n20\n0\n42\n10\n")?;
            words.extend_from_slice(b"0\nVERTEX\n10\n1\n20\n0\n42\n10\n")?;
        }
        words.extend_from_slice(b"0\nVERTEX\n20\n0\n10\n")?;
        words.extend_from_slice(last)?;
        words.extend_from_slice(b"\n0\nSEQEND\n0\nENDSEC\n0\nEOF\n")?;
        assert!(rt; words.len() < 100_000);
        let answer = read_dxf(rt.alloc(), &words, Units::Mm100, 1);
        assert_eq!(rt; answer.err(), Some(DxfFault { pair: 3, kind }));
    }
    Ok(())
}

fn count(answer: Result<Outline, DxfFault>) -> usize {
    match answer {
        Ok(outline) => outline.segs.len(),
        Err(_) => 0,
    }
}

// A line for each word.
fn file_of(alloc: Global, words: &[u8], line_end: &[u8]) -> Result<Vec<u8>, AllocError> {
    let mut file = Vec::new(alloc);
    for byte in words {
        if *byte == b' ' {
            file.extend_from_slice(line_end)?;
        } else {
            file.push(*byte)?;
        }
    }
    file.push(b'\n')?;
    Ok(file)
}

// How many are skipped and the segments of the outline of a file, or the fault.
fn described(alloc: Global, file: &[u8], chord: u32) -> Result<String, AllocError>
    requires { IsFromOneTo MOST_CHORD chord }
{
    if file.len() > MOST_DXF_BYTES {
        return String::from_str(alloc, "too long");
    }
    match read_dxf(alloc, file, Units::Mm100, chord) {
        Ok(outline) => listed(alloc, &outline),
        Err(DxfFault { pair, kind }) => format!(in alloc; "{pair} {kind:?}"),
    }
}

fn listed(alloc: Global, outline: &Outline) -> Result<String, AllocError> {
    let skipped = outline.skipped;
    let mut text = format!(in alloc; "{skipped}:")?;
    for seg in &outline.segs {
        let (x0, y0, x1, y1) = (seg.a.x(), seg.a.y(), seg.b.x(), seg.b.y());
        write!(text, " {x0},{y0} {x1},{y1};")?;
    }
    Ok(text)
}
