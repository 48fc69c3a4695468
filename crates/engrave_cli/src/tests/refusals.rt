// Refusals: each by its line and status, and in their order.

use super::{Case, FIRST, GRID, expect};

const CASES: &[Case<'static>] = &[
    (
        FIRST,
        ("0,0 9,0\n# a\n1,1 1,1", ""),
        (3, "input loops 16 same point\n"),
    ),
    (FIRST, ("0,0 9;0", ""), (3, "input loops 4 syntax\n")),
    (
        "probe --drawing= --at=5,5 --bit=1/1 --rmax=600",
        ("", ""),
        (4, "absent drawing\n"),
    ),
    ("moves --code=e", ("", ""), (4, "absent code\n")),
    (
        "check --drawing=e --code=f --bit=1/1 --rmax=1",
        ("", ""),
        (4, "absent drawing\n"),
    ),
    (
        "check --drawing=d --code=f --bit=1/1 --rmax=1",
        ("5,5", ""),
        (3, "input loops 0 short\n"),
    ),
    (
        "check --drawing=d --code=f --bit=1/1 --rmax=1",
        ("", ""),
        (4, "absent code\n"),
    ),
    (
        "cover --drawing=e --code=f --bit=1/1 --rmax=1",
        ("", ""),
        (4, "absent drawing\n"),
    ),
    (
        "cover --drawing=d --code=f --bit=1/1 --rmax=1 --pitch=1",
        (GRID, ""),
        (4, "absent code\n"),
    ),
    (
        "cover --drawing=d --code=c --bit=1/1 --rmax=1 --pitch=1",
        (GRID, ""),
        (3, "input too many points\n"),
    ),
    (
        "cover --drawing=d --code=c --bit=1/1 --rmax=1 --pitch=32768",
        ("", ""),
        (2, "usage\n"),
    ),
    (
        "probe --drawing=d --at=5,5 --bit=1/1 --rmax=1 --limit=0",
        ("", ""),
        (2, "usage\n"),
    ),
    ("carve", ("", ""), (2, "usage\n")),
    (
        "probe --drawing=d --at=5,5 --bit=1/1 --rmax=8192",
        ("", ""),
        (2, "usage\n"),
    ),
    (
        "probe --drawing=d --at=5,5 --bit=1/2001 --rmax=1",
        ("", ""),
        (2, "usage\n"),
    ),
    (
        "probe --drawing=d --at=5,5 --bit=0/1 --rmax=1",
        ("", ""),
        (2, "usage\n"),
    ),
    (
        "probe --drawing=d --at=5,32768 --bit=1/1 --rmax=1",
        ("", ""),
        (2, "usage\n"),
    ),
];

#[test]
fn refusals_are_reported_by_their_line_and_status(rt: HostRuntime) {
    expect(&rt, rt.alloc(), "", CASES);
}
