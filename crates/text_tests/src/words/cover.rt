// The words of `cover`.

/// Lines of words, and what they ask for.
pub static LINES: [(&str, &str); 13] = [
    (
        "cover --drawing=d --code=c --bit=1/2 --rmax=100",
        "d Loops Mm100 c 1/2 100 10",
    ),
    (
        "cover --pitch 1 --rmax 100 --code c --units mm10 --form loops --bit 3/4 --drawing d",
        "d Loops Mm10 c 3/4 100 1",
    ),
    (
        "cover --drawing=d --code=c --bit=1/2 --rmax=8191 --pitch=32767",
        "d Loops Mm100 c 1/2 8191 32767",
    ),
    (
        "cover --drawing=d --code=c --bit=1/2 --rmax=100 --pitch=0",
        "usage",
    ),
    (
        "cover --drawing=d --code=c --bit=1/2 --rmax=100 --pitch=32768",
        "usage",
    ),
    (
        "cover --drawing=d --code=c --bit=1/2 --rmax=100 --pitch=5 --pitch=5",
        "usage",
    ),
    ("cover --drawing=d --code=c --bit=1/2 --rmax=8192", "usage"),
    ("cover --code=c --bit=1/2 --rmax=100", "usage"),
    ("cover --drawing=d --bit=1/2 --rmax=100", "usage"),
    ("cover --drawing=d --code=c --rmax=100", "usage"),
    ("cover --drawing=d --code=c --bit=1/2", "usage"),
    (
        "cover --drawing=d --code=c --bit=1/2 --rmax=100 --step=20",
        "usage",
    ),
    (
        "cover --drawing=d --code=c --bit=1/2 --rmax=100 --limit=5",
        "usage",
    ),
];
