// The words of `check`.

/// Lines of words, and what they ask for.
pub static LINES: [(&str, &str); 8] = [
    (
        "check --drawing=d --code=c --bit=1/2 --rmax=100",
        "d Loops Mm100 c 1/2 100",
    ),
    (
        "check --rmax 100 --code c --units mm10 --form loops --bit 3/4 --drawing d",
        "d Loops Mm10 c 3/4 100",
    ),
    (
        "check --drawing=d --code=c --bit=1/2 --rmax=100 --limit=5",
        "usage",
    ),
    (
        "check --drawing=d --code=c --bit=1/2 --rmax=100 --at=5,500",
        "usage",
    ),
    ("check --code=c --bit=1/2 --rmax=100", "usage"),
    ("check --drawing=d --bit=1/2 --rmax=100", "usage"),
    ("check --drawing=d --code=c --rmax=100", "usage"),
    ("check --drawing=d --code=c --bit=1/2", "usage"),
];
