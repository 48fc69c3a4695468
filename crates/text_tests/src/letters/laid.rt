// Texts laid out in small fonts. The expected segments were worked out by hand.
ghost use Rattle.std.specs.Prelude.{◌≡◌, chars, length};
ghost use Rattle.plane_exact.specs.Cone.{IsFromOneTo};
ghost use Rattle.cxf_font.specs.Layouts.{IsLayout};

use arc_flatten::MOST_CHORD;
use cxf_font::{
    Font, Justify, LEAST_PERCENT, LayFault, Layout, MOST_CHARACTERS, MOST_FONT_BYTES, MOST_HEIGHT,
    MOST_LETTERING, MOST_PERCENT, lay, read_font,
};
use plane_exact::Seg;
use std::alloc::{AllocError, Global};
use std::test::Fail;

// A straight letter; quarters of a circle, one of them clockwise; three quarters, clockwise; a letter with no element; and one left of
// its pen.
const FONT: &[u8] = b"[I] 4
L 0,0,2,0
L 2,0,2,9
L 2,9,0,9
L 0,9,0,0
[q]
A 1,1,1,0,90
[p]
AR 1,1,1,90,0
[t]
AR 1,1,1,0,90
[n]
[l]
L -2,0,-1,0
";

// A grid unit is a hundredth of a font unit, and a letter stands 2.25 of these behind the right of the one before.
const PLAIN: Layout = Layout {
    height: 900,
    width: 100,
    charspace: 25,
    wordspace: 100,
    linespace: 150,
    justify: Justify::Left,
    mirror: false,
    flip: false,
};

const RIGHT: Layout = Layout {
    justify: Justify::Right,
    ..PLAIN
};

const CENTER: Layout = Layout {
    justify: Justify::Center,
    ..PLAIN
};

const MIRROR: Layout = Layout {
    mirror: true,
    ..PLAIN
};

const FLIP: Layout = Layout {
    flip: true,
    ..PLAIN
};

const TIGHT: Layout = Layout {
    width: 200,
    charspace: 0,
    ..PLAIN
};

const HIGH: Layout = Layout {
    height: 32_767,
    ..PLAIN
};

// Texts with their layouts and segments, or the fault and its place.
const TEXTS: [(&str, Layout, &str); 18] = [
    ("", PLAIN, ""),
    (" n\n", PLAIN, ""),
    (
        "I I",
        PLAIN,
        "0,0 200,0; 200,0 200,900; 200,900 0,900; 0,900 0,0; 1325,0 1525,0; 1525,0 1525,900; 1525,900 1325,900; 1325,900 1325,0;",
    ),
    (
        "I",
        RIGHT,
        "-200,0 0,0; 0,0 0,900; 0,900 -200,900; -200,900 -200,0;",
    ),
    (
        "I",
        MIRROR,
        "0,0 -200,0; -200,0 -200,900; -200,900 0,900; 0,900 0,0;",
    ),
    (
        "I",
        FLIP,
        "0,0 200,0; 200,0 200,-900; 200,-900 0,-900; 0,-900 0,0;",
    ),
    (
        "II",
        TIGHT,
        "0,0 400,0; 400,0 400,900; 400,900 0,900; 0,900 0,0; 400,0 800,0; 800,0 800,900; 800,900 400,900; 400,900 400,0;",
    ),
    (
        "I\nII",
        CENTER,
        "-100,0 100,0; 100,0 100,900; 100,900 -100,900; -100,900 -100,0; -312,-1350 -112,-1350; -112,-1350 -112,-450; -112,-450 -312,-450; -312,-450 -312,-1350; 113,-1350 313,-1350; 313,-1350 313,-450; 313,-450 113,-450; 113,-450 113,-1350;",
    ),
    ("q\n\nq", PLAIN, "200,100 100,200; 200,-2600 100,-2500;"),
    ("p", PLAIN, "100,200 200,100;"),
    ("t", PLAIN, "200,100 100,0; 100,0 0,100; 0,100 100,200;"),
    ("q", RIGHT, "0,100 -100,200;"),
    ("lq", PLAIN, "-200,0 -100,0; 425,100 325,200;"),
    ("l", RIGHT, "-200,0 -100,0;"),
    ("I?", PLAIN, "no glyph 1"),
    (" \n\u{E4}?", PLAIN, "no glyph 2"),
    ("I I", HIGH, "out of range"),
    ("I I?", HIGH, "no glyph 3"),
];

#[test]
fn stands_where_the_layout_says(rt: HostRuntime) -> Result<(), Fail> {
    let font = font_of(rt.alloc(), FONT).expect(&rt, "a font");
    for (text, layout, want) in TEXTS.iter() {
        let answer = described(rt.alloc(), laid(rt.alloc(), &font, text, layout, 90))?;
        assert!(rt; answer.as_str() == *want, "{answer} of {text:?}");
    }
    Ok(())
}

const LOW: Layout = Layout {
    height: 254,
    charspace: 0,
    ..PLAIN
};

const HIGHER: Layout = Layout { height: 255, ..LOW };

#[test]
fn counts_segments_but_looks_at_every_point(rt: HostRuntime) -> Result<(), Fail> {
    // Letters of 1024 segments each, of which 128 have as many as a text may have.
    let font = font_of(rt.alloc(), &dense_font(rt.alloc())?).expect(&rt, "a font");
    let mut text = String::new(rt.alloc());
    for _ in 0..128 {
        text.push_str("O")?;
    }
    assert_eq!(rt;
        count(laid(rt.alloc(), &font, text.as_str(), &HIGHER, 1)),
        MOST_LETTERING
    );
    text.push_str("O")?;
    let far = described(
        rt.alloc(),
        laid(rt.alloc(), &font, text.as_str(), &HIGHER, 1),
    )?;
    assert_eq!(rt; far.as_str(), "out of range");
    let over = described(rt.alloc(), laid(rt.alloc(), &font, text.as_str(), &LOW, 1))?;
    assert_eq!(rt; over.as_str(), "too many");
    Ok(())
}

// A font with one letter of 1024 segments.
fn dense_font(alloc: Global) -> Result<Vec<u8>, AllocError> {
    let mut file = Vec::new(alloc);
    file.extend_from_slice(b"[O]\n")?;
    for _ in 0..1024 {
        file.extend_from_slice(b"L 0,0,9,9\n")?;
    }
    Ok(file)
}

fn count(answer: Result<Vec<Seg>, LayFault>) -> usize {
    match answer {
        Ok(segs) => segs.len(),
        Err(_) => 0,
    }
}

fn font_of(alloc: Global, bytes: &[u8]) -> Option<Font> {
    if bytes.len() > MOST_FONT_BYTES {
        return None;
    }
    read_font(alloc, bytes).ok()
}

// The text in the font. `Memory` stands for a text that is longer than what is taken, too.
fn laid(
    alloc: Global,
    font: &Font,
    text: &str,
    layout: &Layout,
    chord: u32,
) -> Result<Vec<Seg>, LayFault>
    requires { IsFromOneTo MOST_CHORD chord }
{
    if count_characters(text) > MOST_CHARACTERS {
        return Err(LayFault::Memory);
    }
    lay(alloc, font, text, &within(layout), chord)
}

// The layout itself, since no number here is out of its range.
fn within(layout: &Layout) -> Layout
    ensures { IsLayout result }
{
    Layout {
        height: layout.height.clamp(1, MOST_HEIGHT),
        width: layout.width.clamp(LEAST_PERCENT, MOST_PERCENT),
        charspace: layout.charspace.min(MOST_PERCENT),
        wordspace: layout.wordspace.min(MOST_PERCENT),
        linespace: layout.linespace.clamp(LEAST_PERCENT, MOST_PERCENT),
        ..*layout
    }
}

fn count_characters(text: &str) -> usize
    ensures { result ≡ length (chars text.now) }
{
    text.chars().count()
}

// The segments, or the words of the fault and the place.
fn described(alloc: Global, answer: Result<Vec<Seg>, LayFault>) -> Result<String, AllocError> {
    match answer {
        Ok(segs) => listed(alloc, &segs),
        Err(LayFault::NoGlyph(place)) => {
            format!(in alloc; "{} {place}", LayFault::NoGlyph(place).words())
        }
        Err(fault) => String::from_str(alloc, fault.words()),
    }
}

fn listed(alloc: Global, segs: &[Seg]) -> Result<String, AllocError> {
    let mut text = String::new(alloc);
    let mut before = "";
    for Seg { a, b } in segs {
        write!(text, "{before}{},{} {},{};", a.x(), a.y(), b.x(), b.y())?;
        before = " ";
    }
    Ok(text)
}
