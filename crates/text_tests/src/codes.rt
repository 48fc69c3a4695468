// The reader against docs/GCODE.md: letters, G and M numbers, and whole programs, each read whole and however it is cut. The
// expected answers are written by hand from what stands there.
mod visits;
mod written;

ghost use Rattle.std.specs.Prelude.{◌≤◌, length};

use gcode_text::{FinishFault, Reader};
use grid_num::Units;
use plane_exact::{LineMove, Spot};
use std::alloc::{AllocError, Global};
use std::process::Abort;
use std::test::Fail;

type Answer = Result<Vec<LineMove>, FinishFault>;

const MOST: usize = 65_536;

// Read in two pieces, cut at a place.
fn read_cut(
    rt: &impl Abort,
    alloc: Global,
    units: Units,
    code: &[u8],
    cut: usize,
) -> Result<Answer, AllocError> {
    assert!(rt; cut <= code.len());
    let (first, last) = code.split_at(cut);
    assert!(rt; first.len() <= MOST);
    assert!(rt; last.len() <= MOST);
    read_two(alloc, units, first, last)
}

fn read_two(alloc: Global, units: Units, first: &[u8], last: &[u8]) -> Result<Answer, AllocError>
    requires first { length first.now ≤ MOST }
    requires last { length last.now ≤ MOST }
{
    let mut reader = Reader::new(alloc, units);
    reader.feed(first)?;
    reader.feed(last)?;
    Ok(reader.finish())
}

// Read a byte at a time.
fn read_by_bytes(
    rt: &impl Abort,
    alloc: Global,
    units: Units,
    code: &[u8],
) -> Result<Answer, AllocError> {
    assert!(rt; code.len() <= MOST);
    let mut reader = Reader::new(alloc, units);
    for i in 0..code.len() {
        reader.feed(&code[i..i + 1])?;
    }
    Ok(reader.finish())
}

// The moves as text: `LINE: X Y Z > X Y Z; ` a move, in tenths of a grid unit, or the fault.
fn text_of(alloc: Global, answer: Answer) -> Result<String, AllocError> {
    match answer {
        Ok(moves) => text_of_moves(alloc, &moves),
        Err(FinishFault::Code(fault)) => {
            format!(in alloc; "line {} {:?}", fault.line, fault.kind)
        }
        Err(FinishFault::Memory) => Err(AllocError),
    }
}

fn text_of_moves(alloc: Global, moves: &[LineMove]) -> Result<String, AllocError> {
    let mut text = String::new(alloc);
    for LineMove { line, mv } in moves {
        write!(text, "{line}: ")?;
        write_spot(&mut text, &mv.from)?;
        text.push_str(" > ")?;
        write_spot(&mut text, &mv.to)?;
        text.push_str("; ")?;
    }
    Ok(text)
}

fn write_spot(text: &mut String, spot: &Spot) -> Result<(), AllocError> {
    let (x, y, h) = (spot.x, spot.y, spot.h);
    write!(text, "{x} {y} {h}")
}

// With a carriage return before each line feed.
fn with_returns(alloc: Global, code: &[u8]) -> Result<Vec<u8>, AllocError> {
    let mut returned = Vec::new(alloc);
    for byte in code {
        if *byte == b'\n' {
            returned.push(b'\r')?;
        }
        returned.push(*byte)?;
    }
    Ok(returned)
}

// The answer is the wanted one, at every cut into two from this place on, and byte by byte.
fn expect_at_cuts(
    rt: &impl Abort,
    alloc: Global,
    units: Units,
    code: &[u8],
    first: usize,
    want: &str,
) -> Result<(), AllocError> {
    for cut in first..=code.len() {
        let got = text_of(alloc, read_cut(rt, alloc, units, code, cut)?)?;
        assert_eq!(rt; got.as_str(), want, "cut at {cut}");
    }
    let got = text_of(alloc, read_by_bytes(rt, alloc, units, code)?)?;
    assert_eq!(rt; got.as_str(), want, "byte by byte");
    Ok(())
}

// With line feeds alone, and with carriage returns before them.
fn expect(
    rt: &impl Abort,
    alloc: Global,
    units: Units,
    code: &str,
    want: &str,
) -> Result<(), AllocError> {
    expect_at_cuts(rt, alloc, units, code.as_bytes(), 0, want)?;
    let returned = with_returns(alloc, code.as_bytes())?;
    expect_at_cuts(rt, alloc, units, returned.as_slice(), 0, want)
}

// Programs, with their moves.
const MOVES: [(&str, &str); 15] = [
    ("", ""),
    ("X0 Y0 Z5\nX1\n", "2: 0 0 5000 > 1000 0 5000; "),
    ("x 1 . 2 5 y0z\t1\nZ.5", "2: 1250 0 1000 > 1250 0 500; "),
    (
        "G0X0Y0Z1\nG1Z-1F100\nX+2.",
        "2: 0 0 1000 > 0 0 -1000; 3: 0 0 -1000 > 2000 0 -1000; ",
    ),
    ("G0X0Y0Z1\nG1Z-1\nM2\n?!\n", "2: 0 0 1000 > 0 0 -1000; "),
    ("X0Y0Z0\nM30 X1\nQ\n", "2: 0 0 0 > 1000 0 0; "),
    ("X0Y0Z0\nM02X1\n(\n", "2: 0 0 0 > 1000 0 0; "),
    (
        "N10 G21 G90 G17 (mm; absolute)\nN20 G00 X1 Y1 Z1\nN30 G01 X2 ; across (\nN40 M30",
        "3: 1000 1000 1000 > 2000 1000 1000; ",
    ),
    ("%\nX0Y0Z0\n%(end)\nX1\n % ", "4: 0 0 0 > 1000 0 0; "),
    ("X0Y0Z0\n\n \t \n()\n;\nX0\nG1\nF9", "6: 0 0 0 > 0 0 0; "),
    ("Z0X1\nY1\nZ-1", "3: 1000 1000 0 > 1000 1000 -1000; "),
    (
        "X327.67Y-327.68Z327.67\nX-327.68Y327.67Z-327.67",
        "2: 327670 -327680 327670 > -327680 327670 -327670; ",
    ),
    (
        "X1.00500Y.001Z-0.0000\nX-.001Z.0010",
        "2: 1005 1 0 > -1 1 1; ",
    ),
    ("X0(a)1(b)Y0Z-0\nX1", "2: 1000 0 0 > 1000 0 0; "),
    (
        "M3M5M7M8M9M4G17G40G49G54G61G64G80G90G91.1G94\nS-1F0P+.5N3",
        "",
    ),
];

#[test]
fn moves_of_programs(rt: HostRuntime) -> Result<(), Fail> {
    for (code, want) in MOVES.iter() {
        expect(&rt, rt.alloc(), Units::Mm100, code, want)?;
    }
    Ok(())
}

#[test]
fn moves_of_a_lenient_program(rt: HostRuntime) -> Result<(), Fail> {
    let code =
        "( Code generated by a V-carve program )\nG21\nG90\nG17 G64 P0.001 M3 S3000\nG0 Z5.00\nG0 X1.00 Y3.00\nG1 Z-1.00 F300\ng1 x 1.00 y 1 . 0 0 ; lower case\nG0 Z5.00\nM5\nM2\n";
    let want =
        "7: 1000 3000 5000 > 1000 3000 -1000; 8: 1000 3000 -1000 > 1000 1000 -1000; 9: 1000 1000 -1000 > 1000 1000 5000; ";
    expect(&rt, rt.alloc(), Units::Mm100, code, want)?;
    Ok(())
}

// Programs, with their first fault.
const FAULTS: [(&str, &str); 57] = [
    ("(X1\nY1)", "line 1 OpenComment"),
    ("(all (of) it)", "line 1 Word"),
    ("%%", "line 1 Word"),
    ("X0\nY0)", "line 2 Word"),
    ("G0 G1", "line 1 Twice"),
    ("G1 X1\nG1 G1", "line 2 Twice"),
    ("X1 X1", "line 1 Twice"),
    ("Y1 Z1 Y1", "line 1 Twice"),
    ("Z1Z1", "line 1 Twice"),
    ("N1N2", "line 1 Twice"),
    ("F1 S1 P1 F1", "line 1 Twice"),
    ("S1 s2", "line 1 Twice"),
    ("P1 P.", "line 1 Number"),
    ("P1 P1", "line 1 Twice"),
    ("Q X1 X1", "line 1 Word"),
    ("X1 Q X1", "line 1 Word"),
    ("G91 X", "line 1 Incremental"),
    ("X G91", "line 1 Number"),
    ("X1.0005", "line 1 OffGrid"),
    ("X-.0001", "line 1 OffGrid"),
    (
        "X0.00000000000000000000000000000000000000001",
        "line 1 OffGrid",
    ),
    ("X999999999999999999999999999", "line 1 OutOfRange"),
    ("X327.68", "line 1 OutOfRange"),
    ("X327.671", "line 1 OutOfRange"),
    ("Y-327.681", "line 1 OutOfRange"),
    ("Z-327.671", "line 1 OutOfRange"),
    ("X-327.69", "line 1 OutOfRange"),
    ("Y327.68", "line 1 OutOfRange"),
    ("Z327.68", "line 1 OutOfRange"),
    ("Z-327.68", "line 1 OutOfRange"),
    ("X1Y1Z-1", "line 1 Unplaced"),
    ("Z-.01", "line 1 Unplaced"),
    ("Z1\n\nZ-1\nX0", "line 3 Unplaced"),
    ("X1Z1\nY1Z-1", "line 2 Unplaced"),
    ("X", "line 1 Number"),
    ("X.", "line 1 Number"),
    ("X+", "line 1 Number"),
    ("X1-2", "line 1 Number"),
    ("X1.2.3", "line 1 Number"),
    ("X--1", "line 1 Number"),
    ("X1E2", "line 1 Word"),
    ("1X", "line 1 Word"),
    ("-X1", "line 1 Word"),
    ("/G0", "line 1 Word"),
    ("#1=2", "line 1 Word"),
    ("X[1]", "line 1 Number"),
    ("O100", "line 1 Word"),
    ("M6 T1", "line 1 Word"),
    ("G2 X1 I1", "line 1 Word"),
    ("G20", "line 1 Units"),
    ("G91.2", "line 1 Word"),
    ("G-1", "line 1 Word"),
    ("M2 Q", "line 1 Word"),
    ("é", "line 1 Word"),
    ("X1\rY1", "line 1 Word"),
    ("X1\r\r\nX1", "line 1 Word"),
    ("F9999999999999999999999999990", "line 1 Number"),
];

#[test]
fn faults_of_programs(rt: HostRuntime) -> Result<(), Fail> {
    for (code, want) in FAULTS.iter() {
        expect(&rt, rt.alloc(), Units::Mm100, code, want)?;
    }
    Ok(())
}

// Programs of jobs in these units, with their moves or their first fault.
const IN_UNITS: [(Units, &str, &str); 14] = [
    (Units::Mm10, "G21X.1Y0Z0\nX-1.0", "2: 10 0 0 > -100 0 0; "),
    (Units::Mm10, "X.001", "line 1 OffGrid"),
    (
        Units::Mm1000,
        "X1.005Y0Z0\nZ32.767",
        "2: 10050 0 0 > 10050 0 327670; ",
    ),
    (Units::In100, "G20X.01Y0Z0\nX1", "2: 10 0 0 > 1000 0 0; "),
    (Units::In1000, "G20X.001Y0Z0\nX1", "2: 10 0 0 > 10000 0 0; "),
    (Units::In100, "G21", "line 1 Units"),
    (Units::In1000, "G21", "line 1 Units"),
    (Units::Mm1000, "G20", "line 1 Units"),
    (Units::Mm100, "F000999999999999999999999999999", ""),
    (Units::Mm100, "F0.0999999999999999999999999999", ""),
    (
        Units::Mm100,
        "F9999999999999999999999999999",
        "line 1 Number",
    ),
    (Units::Mm100, "F.00000000000000000000000000001", ""),
    (Units::Mm100, "F111111111111111111111111111", ""),
    (
        Units::Mm100,
        "F1111111111111111111111111111",
        "line 1 Number",
    ),
];

#[test]
fn units_of_programs(rt: HostRuntime) -> Result<(), Fail> {
    for (units, code, want) in IN_UNITS.iter() {
        expect(&rt, rt.alloc(), *units, code, want)?;
    }
    Ok(())
}

// The answer to a program that is read whole is the wanted one.
fn expect_whole(rt: &impl Abort, alloc: Global, code: &[u8], want: &str) -> Result<(), AllocError> {
    let got = text_of(alloc, read_cut(rt, alloc, Units::Mm100, code, 0)?)?;
    assert_eq!(rt; got.as_str(), want, "at {code:?}");
    Ok(())
}

// The answer to a word with this number, between each pair of texts, is the wanted one.
fn expect_each(
    rt: &impl Abort,
    alloc: Global,
    ways: &[(&str, &str)],
    number: u8,
    want: &str,
) -> Result<(), AllocError> {
    for (before, behind) in ways {
        let code = format!(in alloc; "{before}{number}{behind}")?;
        expect_whole(rt, alloc, code.as_bytes(), want)?;
    }
    Ok(())
}

#[test]
fn letters_with_one(rt: HostRuntime) -> Result<(), Fail> {
    let alloc = rt.alloc();
    for letter in 'A'..='Z' {
        let want = match letter {
            'F' | 'G' | 'N' | 'P' | 'S' | 'X' | 'Y' | 'Z' => "",
            _ => "line 1 Word",
        };
        let small = letter.to_ascii_lowercase();
        expect_whole(&rt, alloc, format!(in alloc; "{letter}1")?.as_bytes(), want)?;
        expect_whole(&rt, alloc, format!(in alloc; "{small} 1")?.as_bytes(), want)?;
    }
    Ok(())
}

// How a G word is written whose number is whole; with a tenth; with a hundredth; and with a minus.
const WHOLE: [(&str, &str); 5] = [("G", ""), ("G0", ""), ("G+", ""), ("g", "."), ("G ", ".00")];

const TENTH: [(&str, &str); 2] = [("G", ".1"), ("G", ".10")];

const HUNDREDTH: [(&str, &str); 1] = [("G", ".01")];

const MINUS: [(&str, &str); 1] = [("G-", "")];

#[test]
fn g_numbers(rt: HostRuntime) -> Result<(), Fail> {
    for n in 0..100u8 {
        let want = match n {
            0 | 1 | 17 | 21 | 40 | 49 | 54 | 61 | 64 | 80 | 90 | 94 => "",
            20 => "line 1 Units",
            91 => "line 1 Incremental",
            _ => "line 1 Word",
        };
        let tenth = if n == 91 { "" } else { "line 1 Word" };
        let minus = if n == 0 { "" } else { "line 1 Word" };
        expect_each(&rt, rt.alloc(), &WHOLE, n, want)?;
        expect_each(&rt, rt.alloc(), &TENTH, n, tenth)?;
        expect_each(&rt, rt.alloc(), &HUNDREDTH, n, "line 1 Word")?;
        expect_each(&rt, rt.alloc(), &MINUS, n, minus)?;
    }
    Ok(())
}

// How an M word is written whose number is whole, and with a tenth, before a line that is refused.
const WHOLE_M: [(&str, &str); 3] = [("M", "\nQ"), ("m0", "\nQ"), ("M+", ".0\nQ")];

const TENTH_M: [(&str, &str); 1] = [("M", ".1\nQ")];

#[test]
fn m_numbers(rt: HostRuntime) -> Result<(), Fail> {
    for n in 0..100u8 {
        let want = match n {
            2 | 30 => "",
            3 | 4 | 5 | 7 | 8 | 9 => "line 2 Word",
            _ => "line 1 Word",
        };
        expect_each(&rt, rt.alloc(), &WHOLE_M, n, want)?;
        expect_each(&rt, rt.alloc(), &TENTH_M, n, "line 1 Word")?;
    }
    Ok(())
}

const DOWN: &str = "2: 1000 2000 0 > 1000 2000 -1000; ";

// What a program is up to each of its bytes.
const BROKEN_OFF: (&[u8], [&str; 17]) = (
    b"X1Y2Z0\nG1Z-1(a)\n",
    [
        "",
        "line 1 Number",
        "",
        "line 1 Number",
        "",
        "line 1 Number",
        "",
        "",
        "line 2 Number",
        "",
        "line 2 Number",
        "line 2 Number",
        DOWN,
        "line 2 OpenComment",
        "line 2 OpenComment",
        DOWN,
        DOWN,
    ],
);

// Cut off at any byte, a program is what stands there, or its last word or comment isn't whole.
#[test]
fn programs_that_break_off(rt: HostRuntime) -> Result<(), Fail> {
    let (code, wants) = BROKEN_OFF;
    for (cut, want) in wants.iter().enumerate() {
        assert!(rt; cut <= code.len());
        expect_whole(&rt, rt.alloc(), &code[..cut], want)?;
    }
    Ok(())
}

// A line that begins so, has this byte up to its length, and ends with another one.
fn line_of(
    alloc: Global,
    head: &str,
    byte: u8,
    len: usize,
    last: u8,
) -> Result<Vec<u8>, AllocError> {
    let mut line = Vec::new(alloc);
    line.extend_from_slice(head.as_bytes())?;
    for _ in head.len() + 1..len {
        line.push(byte)?;
    }
    line.push(last)?;
    Ok(line)
}

// Lines as `line_of` makes them, with their fault where they have one.
const LONG_LINES: [(&str, u8, usize, u8, &str); 11] = [
    ("X1", b' ', 1024, b' ', ""),
    ("X1", b' ', 1025, b' ', "line 1 LongLine"),
    ("(", b'a', 1024, b')', ""),
    ("(", b'a', 1025, b')', "line 1 LongLine"),
    ("(", b'a', 1024, b'a', "line 1 OpenComment"),
    ("(", b'a', 1025, b'a', "line 1 LongLine"),
    ("Q", b'Q', 1025, b'Q', "line 1 LongLine"),
    ("X0;", b'(', 1024, b'(', ""),
    ("F0", b'0', 1024, b'0', ""),
    ("F.", b'0', 1024, b'0', ""),
    ("X.", b'0', 1024, b'0', ""),
];

#[test]
fn long_lines(rt: HostRuntime) -> Result<(), Fail> {
    let alloc = rt.alloc();
    for (head, byte, len, last, want) in LONG_LINES.iter() {
        let mut line = line_of(alloc, head, *byte, *len, *last)?;
        expect_at_cuts(&rt, alloc, Units::Mm100, line.as_slice(), 1020, want)?;
        line.push(b'\r')?;
        expect_at_cuts(&rt, alloc, Units::Mm100, line.as_slice(), 1020, want)?;
    }
    Ok(())
}
