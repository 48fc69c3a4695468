// Texts in the letters of a font: `flatten` of them, and a name plate that is carved and checked.

use super::{NEVER, NOT_RUN, expect, listed_with, run_words};
use std::alloc::{AllocError, Global};
use std::test::Fail;

/// A font of two letters.
pub const FONT: &str = "# a small font\n[I] 4\nL 0,0,2,0\nL 2,0,2,9\nL 2,9,0,9\nL 0,9,0,0\n\n\
    [O] 2\nA 4.5,4.5,4.5,0,360\nA 4.5,4.5,2.5,0,360\n";

/// What a run of the words of these parts, with this text besides, comes to over the font and a G-code program.
pub fn run_text(alloc: Global, parts: &[&str], text: &str, files: (&str, &str)) -> (u8, String) {
    let told = match listed_with(alloc, parts, ("--text=", text)) {
        Ok(words) => run_words(alloc, &words, files, 65_536, (NEVER, NEVER)),
        Err(_) => None,
    };
    told.unwrap_or((NOT_RUN, String::new(alloc)))
}

/// Options, letters, and what comes of them.
const TEXTS: &[(&str, &str, (u8, &str))] = &[
    (
        "",
        "I I",
        (
            0,
            "0,0 200,0 200,900 0,900\n1325,0 1525,0 1525,900 1325,900\n",
        ),
    ),
    ("--justify=right", "I", (0, "-200,0 0,0 0,900 -200,900\n")),
    ("--mirror=yes", "I", (0, "0,0 -200,0 -200,900 0,900\n")),
    ("--flip=yes", "I", (0, "0,0 200,0 200,-900 0,-900\n")),
    (
        "--height=90 --width=200 --justify=center",
        "I\nI",
        (
            0,
            "-20,0 20,0 20,90 -20,90\n-20,-135 20,-135 20,-45 -20,-45\n",
        ),
    ),
    ("", "I?", (3, "input lay no glyph 1\n")),
    ("--height=32767", "I I", (3, "input lay out of range\n")),
    ("", "\n ", (0, "")),
    ("", "", (2, "usage\n")),
];

#[test]
fn texts_are_written_in_loops_form(rt: HostRuntime) {
    let words = "flatten --drawing=d --form=cxf";
    for (options, letters, want) in TEXTS {
        let (status, text) = run_text(rt.alloc(), &[words, options], letters, (FONT, ""));
        assert_eq!(rt; (status, text.as_str()), *want, "{options} {letters}");
    }
    expect(&rt, rt.alloc(), words, &[("", (FONT, ""), (2, "usage\n"))]);
}

/// 200 characters of two, three and four bytes, and more behind them.
fn letters(alloc: Global, behind: &str) -> Result<String, AllocError> {
    let mut letters = String::from_str(alloc, "\u{e4}\u{20ac}")?;
    for _ in 0..66 {
        letters.push_str("\u{1f600}\u{20ac}\u{e4}")?;
    }
    letters.push_str(behind)?;
    Ok(letters)
}

#[test]
fn a_text_may_have_200_characters(rt: HostRuntime) -> Result<(), Fail> {
    // A font whose glyphs draw nothing.
    let font = "[\u{e4}] 0\n[\u{20ac}] 0\n[\u{1f600}] 0\n";
    let words = "flatten --drawing=d --form=cxf";
    for (behind, want) in [("", (0, "")), ("\u{e4}", (2, "usage\n"))] {
        let letters = letters(rt.alloc(), behind)?;
        let (status, text) = run_text(rt.alloc(), &[words], letters.as_str(), (font, ""));
        assert_eq!(rt; (status, text.as_str()), want, "{behind}");
    }
    Ok(())
}

#[test]
fn a_name_plate_is_carved_and_called_clear(rt: HostRuntime) {
    let letters = "IO OI\nOIO";
    let form = "--drawing=d --form=cxf --height=800 --bit=577/1000 --rmax=400";
    let carve = ["carve", form, "--limit=150 --step=20 --pitch=10"];
    let (status, code) = run_text(rt.alloc(), &carve, letters, (FONT, ""));
    assert_eq!(rt; status, 0);
    let files = (FONT, code.as_str());
    let (status, verdict) = run_text(rt.alloc(), &["check", form, "--code=c"], letters, files);
    assert_eq!(rt; status, 0);
    assert!(rt; verdict.as_str().starts_with("clear "));
    let (_, again) = run_text(rt.alloc(), &carve, letters, (FONT, ""));
    assert!(rt; again.as_str() == code.as_str());
}
