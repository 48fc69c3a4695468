// Fonts in CXF form, with what the form says of them.
use cxf_font::{CxfFault, Element, Font, read_font};
use std::alloc::{AllocError, Global};
use std::process::Abort;
use std::test::Fail;

// Texts with the elements of a character, or their first fault.
const GLYPHS: [(&[u8], char, &str); 12] = [
    (b"", 'a', "none"),
    (b"\n# a\nL x\n[a]", 'a', ""),
    (b"[a]\n[b]\nL 0,0,1,0", 'a', ""),
    (b"[a]\n[b]\nL 0,0,1,0", 'b', "0,0 1000000,0;"),
    (
        b"[a] 2\n\n# x\n \t# x\n\t L  0 ,0,\t1,-1.5 \r\n[b]",
        'a',
        "0,0 1000000,-1500000;",
    ),
    (b"[a]\r\nL 0,0,1,0\r", 'a', "0,0 1000000,0;"),
    (b"[a]\nL 0,0,1,0\n[a]\nL 0,0,2,0\n", 'a', "0,0 1000000,0;"),
    (b"[a]\nL 0,0,1,0\n[a]\nL 0,0,2,x\n", 'a', "4 Number"),
    (
        b"[a]\nA 1,2,3,-90,360.5",
        'a',
        "1000000,2000000 3000000 -90000000..360500000;",
    ),
    (
        b"[a]\nAR\t1,2,0,10,-10",
        'a',
        "1000000,2000000 0 10000000..-10000000 clockwise;",
    ),
    (
        b"[a]\nL 1000,-1000,1e-6,.0000005\nL +1.,-0,1E2,0000001e-7",
        'a',
        "1000000000,-1000000000 1,1; 1000000,0 100000000,0;",
    ),
    (
        b"[a]\nA 0,0,1000,100000,-100000",
        'a',
        "0,0 1000000000 100000000000..-100000000000;",
    ),
];

// Lines that begin a glyph, each with a character that it is for, or its fault.
const KEYS: [(&[u8], char, &str); 34] = [
    (b"[I] 4", 'I', ""),
    (b"[#]", '#', ""),
    (b"[]]", ']', ""),
    (b"[[]", '[', ""),
    (b"[ ]", ' ', ""),
    (b"[#0061] x", 'a', ""),
    (b"[#00e4]", '\u{E4}', ""),
    (b"[#E4]", '\u{E4}', ""),
    (b"[#0]", '\0', ""),
    (b"[#10FFFF]", '\u{10FFFF}', ""),
    (b"[#110000]", 'a', "1 Syntax"),
    (b"[#d7ff]", '\u{D7FF}', ""),
    (b"[#D800]", 'a', "1 Syntax"),
    (b"[#dfff]", 'a', "1 Syntax"),
    (b"[#e000]", '\u{E000}', ""),
    (b"[#000061]", 'a', ""),
    (b"[#0000061]", 'a', "1 Syntax"),
    (b"[#61", 'a', "1 Syntax"),
    (b"[#g]", 'a', "1 Syntax"),
    (b"[#+1]", 'a', "1 Syntax"),
    (b"[", 'a', "1 Syntax"),
    (b"[]", 'a', "1 Syntax"),
    (b"[a", 'a', "1 Syntax"),
    (b"[ab]", 'a', "1 Syntax"),
    (b"[\xC3\xA4] 8", '\u{E4}', ""),
    (b"[\xE2\x82\xAC]", '\u{20AC}', ""),
    (b"[\xF0\x9F\x98\x80]", '\u{1F600}', ""),
    (b"[\xE4]", '\u{E4}', ""),
    (b"[\xFF]", '\u{FF}', ""),
    (b"[\xC3]", '\u{C3}', ""),
    (b"[\x80]", '\u{80}', ""),
    (b"[\xC0\x80]", 'a', "1 Syntax"),
    (b"[\xED\xA0\x80]", 'a', "1 Syntax"),
    (b"[\xE2\x82]", 'a', "1 Syntax"),
];

// Lines that are no element, with their fault.
const FAULTS: [(&str, &str); 22] = [
    ("L", "3 Syntax"),
    ("L1,2,3,4", "3 Syntax"),
    ("L 1,2,3", "3 Syntax"),
    ("L 1,2,3,4,5", "3 Syntax"),
    ("L x,2,3", "3 Syntax"),
    ("l 1,2,3,4", "3 Syntax"),
    ("LR 1,2,3,4", "3 Syntax"),
    ("A 1,2,3,4", "3 Syntax"),
    ("AR 1,2,3,4", "3 Syntax"),
    ("A 1,2,3,4,5,6", "3 Syntax"),
    ("a]", "3 Syntax"),
    ("L 1,2,3,", "3 Number"),
    ("L 1,2 2,3,4", "3 Number"),
    ("L 1,2,3,4 # x", "3 Number"),
    ("L 1,x,3,4", "3 Number"),
    ("L 1000.000001,0,0,0", "3 Number"),
    ("L 0,0,0,-1000.000001", "3 Number"),
    ("L 0,0,0,1e99", "3 Number"),
    ("A 0,0,-0.000001,0,0", "3 Number"),
    ("A 0,0,1000.000001,0,0", "3 Number"),
    ("A 0,0,1,100000.000001,0", "3 Number"),
    ("AR 0,0,1,0,-100000.000001", "3 Number"),
];

#[test]
fn reads_what_the_form_says(rt: HostRuntime) -> Result<(), Fail> {
    for (text, character, want) in GLYPHS.iter() {
        expect(&rt, rt.alloc(), text, *character, want)?;
    }
    for (text, character, want) in KEYS.iter() {
        expect(&rt, rt.alloc(), text, *character, want)?;
    }
    Ok(())
}

#[test]
fn tells_the_first_faulty_line(rt: HostRuntime) -> Result<(), Fail> {
    for (line, want) in FAULTS.iter() {
        let text = format!(in rt.alloc(); "# x\n[a]\n{line}\n[\nL 1\n")?;
        expect(&rt, rt.alloc(), text.as_bytes(), 'a', want)?;
    }
    Ok(())
}

// The elements of the character in the font, or the fault, are the wanted ones.
fn expect(
    rt: &impl Abort,
    alloc: Global,
    text: &[u8],
    character: char,
    want: &str,
) -> Result<(), AllocError> {
    assert!(rt; text.len() < 200);
    let answer = described(alloc, read_font(alloc, text), character)?;
    assert_eq!(rt; answer.as_str(), want, "at {text:?}");
    Ok(())
}

// What a font is up to each of its bytes.
const CUT_OFF: (&[u8], [&str; 15]) = (
    b"[a]\nL 1,2,3,4\n",
    [
        "none",
        "1 Syntax",
        "1 Syntax",
        "",
        "",
        "2 Syntax",
        "2 Syntax",
        "2 Syntax",
        "2 Syntax",
        "2 Syntax",
        "2 Syntax",
        "2 Syntax",
        "2 Number",
        "1000000,2000000 3000000,4000000;",
        "1000000,2000000 3000000,4000000;",
    ],
);

// Cut off at any byte, a font is what stands there, or its last line isn't whole.
#[test]
fn tells_what_stands_before_a_cut(rt: HostRuntime) -> Result<(), Fail> {
    let (text, wants) = CUT_OFF;
    for (cut, want) in wants.iter().enumerate() {
        assert!(rt; cut <= text.len());
        expect(&rt, rt.alloc(), &text[..cut], 'a', want)?;
    }
    Ok(())
}

// A straight letter and a round one.
const SMALL: &[u8] = b"# a small font
[I] 4
L 0,0,2,0
L 2,0,2,9
L 2,9,0,9
L 0,9,0,0

[O] 2
A 4.5,4.5,4.5,0,360
A 4.5,4.5,2.5,0,360
";

#[test]
fn reads_a_small_font(rt: HostRuntime) -> Result<(), Fail> {
    let straight =
        "0,0 2000000,0; 2000000,0 2000000,9000000; 2000000,9000000 0,9000000; 0,9000000 0,0;";
    let round = "4500000,4500000 4500000 0..360000000; 4500000,4500000 2500000 0..360000000;";
    expect(&rt, rt.alloc(), SMALL, 'I', straight)?;
    expect(&rt, rt.alloc(), SMALL, 'O', round)?;
    Ok(())
}

// The elements of the character in the font, or the fault.
fn described(
    alloc: Global,
    answer: Result<Font, CxfFault>,
    character: char,
) -> Result<String, AllocError> {
    match answer {
        Ok(font) => match font.elements(u32::from(character)) {
            Some(elements) => listed(alloc, elements),
            None => String::from_str(alloc, "none"),
        },
        Err(CxfFault { line, kind }) => format!(in alloc; "{line} {kind:?}"),
    }
}

fn listed(alloc: Global, elements: &[Element]) -> Result<String, AllocError> {
    let mut text = String::new(alloc);
    let mut before = "";
    for element in elements {
        text.push_str(before)?;
        write_element(&mut text, element)?;
        before = " ";
    }
    Ok(text)
}

fn write_element(text: &mut String, element: &Element) -> Result<(), AllocError> {
    match element {
        Element::Line { x1, y1, x2, y2 } => write!(text, "{x1},{y1} {x2},{y2};"),
        Element::Arc {
            cx,
            cy,
            r,
            a1,
            a2,
            clockwise,
        } => {
            let way = if *clockwise { " clockwise" } else { "" };
            write!(text, "{cx},{cy} {r} {a1}..{a2}{way};")
        }
    }
}
