// `trial`: the lines of a small field, from a plain program of the definitions, what a larger one begins with, and words that are refused.

use super::{Case, NEVER, expect, plain_run, run};

/// What the smallest field comes to.
const SMALLEST: &str =
    "trial 1 loops 1 edges 8 contacts 64\nnodes 69 chains 7\nclear 82 moves\nuncut 0 of 1341\n";

/// A second run writes the same, and a count is all that there is to say.
const CASES: &[Case<'static>] = &[
    ("--count=1", ("", ""), (0, SMALLEST)),
    ("", ("", ""), (2, "usage\n")),
    ("--count=0", ("", ""), (2, "usage\n")),
    ("--count=81", ("", ""), (2, "usage\n")),
    ("--count=1 --drawing=d", ("", ""), (2, "usage\n")),
];

#[test]
fn a_field_is_carved_read_back_and_reported_on(rt: HostRuntime) {
    // No file is asked for: the first call of the depot would fail.
    let (status, text) = run(
        rt.alloc(),
        &["trial --count=1"],
        ("", ""),
        65_536,
        (1, NEVER),
    );
    assert_eq!(rt; (status, text.as_str()), (0, SMALLEST));
    expect(&rt, rt.alloc(), "trial", CASES);
}

#[test]
fn larger_fields_are_clear(rt: HostRuntime) {
    for (words, first) in [
        ("trial --count=2", "trial 2 loops 3 edges 16 contacts 176"),
        ("trial --count=8", "trial 8 loops 12 edges 64 contacts 748"),
    ] {
        let (status, text) = plain_run(rt.alloc(), &[words], ("", ""));
        let mut lines = text.as_str().lines();
        assert_eq!(rt; (status, lines.next()), (0, Some(first)), "{words}");
        let third = lines.nth(1).unwrap_or("");
        assert!(rt; third.starts_with("clear "), "{words}");
        assert_eq!(rt; lines.count(), 1, "{words}");
    }
}
