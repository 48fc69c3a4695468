// The words of `probe`.

use super::text_of_line;
use std::alloc::{AllocError, Global};
use std::test::Fail;

/// Lines of words, and what they ask for.
pub static LINES: [(&str, &str); 15] = [
    (
        "probe --drawing=d --at=5,500 --bit=1/2 --rmax=100",
        "d Loops Mm100 5,500 1/2 100 32767",
    ),
    (
        "probe --limit 7 --rmax 100 --units in100 --bit 1/2 --form loops --at 5,500 --drawing d",
        "d Loops In100 5,500 1/2 100 7",
    ),
    ("probe --at=5,500 --bit=1/2 --rmax=100", "usage"),
    ("probe --drawing=d --bit=1/2 --rmax=100", "usage"),
    ("probe --drawing=d --at=5,500 --rmax=100", "usage"),
    ("probe --drawing=d --at=5,500 --bit=1/2", "usage"),
    (
        "probe --drawing=a=b --at=5,500 --bit=1/2 --rmax=100",
        "a=b Loops Mm100 5,500 1/2 100 32767",
    ),
    (
        "probe --drawing=--help --at=5,500 --bit=1/2 --rmax=100",
        "--help Loops Mm100 5,500 1/2 100 32767",
    ),
    (
        "probe --drawing= --at=5,500 --bit=1/2 --rmax=100",
        " Loops Mm100 5,500 1/2 100 32767",
    ),
    (
        "probe --drawing - --at=5,500 --bit=1/2 --rmax=100",
        "- Loops Mm100 5,500 1/2 100 32767",
    ),
    ("probe --at=5,500 --bit=1/2 --rmax=100 --drawing", "usage"),
    (
        "probe --at=5,500 --bit=1/2 --rmax=100 --drawing --",
        "usage",
    ),
    (
        "probe --at=5,500 --bit=1/2 --rmax=100 --drawing = d",
        "usage",
    ),
    ("probe --at=5,500 --bit=1/2 --rmax=100 -drawing=d", "usage"),
    ("probe --at=5,500 --bit=1/2 --rmax=100 --draw=d", "usage"),
];

/// Values of the options, and the numbers that they write; nothing where they aren't in their forms and ranges.
static VALUES: [(&str, &str); 32] = [
    (
        "--at=-5,500 --bit=1/2 --rmax=100",
        "Mm100 -5,500 1/2 100 32767",
    ),
    (
        "--at=-32768,32767 --bit=1/2 --rmax=100",
        "Mm100 -32768,32767 1/2 100 32767",
    ),
    ("--at=32768,0 --bit=1/2 --rmax=100", ""),
    ("--at=0,-32769 --bit=1/2 --rmax=100", ""),
    (
        "--at=-0,007 --bit=1/2 --rmax=100",
        "Mm100 0,7 1/2 100 32767",
    ),
    ("--at=5 --bit=1/2 --rmax=100", ""),
    ("--at=5, --bit=1/2 --rmax=100", ""),
    ("--at=,5 --bit=1/2 --rmax=100", ""),
    ("--at=5,5,5 --bit=1/2 --rmax=100", ""),
    ("--at=5/5 --bit=1/2 --rmax=100", ""),
    ("--at=+5,5 --bit=1/2 --rmax=100", ""),
    ("--at= --bit=1/2 --rmax=100", ""),
    ("--at -5,500 --bit=1/2 --rmax=100", ""),
    (
        "--at=5,500 --bit=2000/1 --rmax=100",
        "Mm100 5,500 2000/1 100 32767",
    ),
    (
        "--at=5,500 --bit=1/2000 --rmax=100",
        "Mm100 5,500 1/2000 100 32767",
    ),
    ("--at=5,500 --bit=2001/1 --rmax=100", ""),
    ("--at=5,500 --bit=1/2001 --rmax=100", ""),
    ("--at=5,500 --bit=0/1 --rmax=100", ""),
    ("--at=5,500 --bit=1/0 --rmax=100", ""),
    ("--at=5,500 --bit=1,2 --rmax=100", ""),
    ("--at=5,500 --bit=1/2 --rmax=1", "Mm100 5,500 1/2 1 32767"),
    (
        "--at=5,500 --bit=1/2 --rmax=8191",
        "Mm100 5,500 1/2 8191 32767",
    ),
    ("--at=5,500 --bit=1/2 --rmax=8192", ""),
    ("--at=5,500 --bit=1/2 --rmax=0", ""),
    ("--at=5,500 --bit=1/2 --rmax=-0", ""),
    ("--at=5,500 --bit=1/2 --rmax=-7", ""),
    ("--at=5,500 --bit=1/2 --rmax=007", "Mm100 5,500 1/2 7 32767"),
    ("--at=5,500 --bit=1/2 --rmax=+7", ""),
    (
        "--at=5,500 --bit=1/2 --rmax=000000100",
        "Mm100 5,500 1/2 100 32767",
    ),
    ("--at=5,500 --bit=1/2 --rmax=0000000100", ""),
    ("--at=5,500 --bit=1/2 --rmax=7x", ""),
    ("--at=5,500 --bit=1/2 --rmax=", ""),
];

/// What may follow a whole line, and the values that it has then; nothing where it isn't accepted.
static MORE_WORDS: [(&str, &str); 26] = [
    ("--", "Mm100 5,500 1/2 100 32767"),
    ("-- d", ""),
    ("--limit=1", "Mm100 5,500 1/2 100 1"),
    ("--limit=32767", "Mm100 5,500 1/2 100 32767"),
    ("--limit=32768", ""),
    ("--limit=0", ""),
    ("--limit=", ""),
    ("--limit", ""),
    ("--form=loops", "Mm100 5,500 1/2 100 32767"),
    ("--form=svg", ""),
    ("--form=", ""),
    ("--units=mm10", "Mm10 5,500 1/2 100 32767"),
    ("--limit=1 --limit=1", ""),
    ("--form=loops --form=loops", ""),
    ("--units=mm10 --units=mm10", ""),
    ("--drawing=d", ""),
    ("--at=5,500", ""),
    ("--bit=1/2", ""),
    ("--rmax=100", ""),
    ("--step=5", ""),
    ("--help", ""),
    ("--version", ""),
    ("-h", ""),
    ("-V", ""),
    ("plate", ""),
    ("", ""),
];

/// The expected text: `usage` where no values are expected.
fn want(alloc: Global, values: &str) -> Result<String, AllocError> {
    if values.is_empty() {
        String::from_str(alloc, "usage")
    } else {
        format!(in alloc; "d Loops {values}")
    }
}

#[test]
fn values_are_read_in_their_forms_and_ranges(rt: HostRuntime) -> Result<(), Fail> {
    for (options, values) in &VALUES {
        let line = format!(in rt.alloc(); "probe --drawing=d {options}")?;
        let text = text_of_line(rt.alloc(), line.as_str())?;
        assert!(rt; text == want(rt.alloc(), values)?, "{options}: {text}");
    }
    Ok(())
}

#[test]
fn further_words_are_options_or_refused(rt: HostRuntime) -> Result<(), Fail> {
    for (words, values) in &MORE_WORDS {
        let line = format!(in rt.alloc();
            "probe --drawing=d --at=5,500 --bit=1/2 --rmax=100 {words}"
        )?;
        let text = text_of_line(rt.alloc(), line.as_str())?;
        assert!(rt; text == want(rt.alloc(), values)?, "{words}: {text}");
    }
    Ok(())
}
