// The words of `repair`.

/// Lines of words, and what they ask for.
pub static LINES: [(&str, &str); 6] = [
    (
        "repair --drawing=d --code=c --bit=1/2 --rmax=100",
        "d Loops Mm100 c 1/2 100 200 500",
    ),
    (
        "repair --feed 1 --safe 1 --rmax 1 --code c --units mm10 --form dxf --bit 3/4 --drawing d",
        "d Dxf Mm10 c 3/4 1 1 1",
    ),
    (
        "repair --drawing=d --code=c --bit=1/2 --rmax=8191 --safe=32767 --feed=10000",
        "d Loops Mm100 c 1/2 8191 32767 10000",
    ),
    ("repair --drawing=d --bit=1/2 --rmax=100", "usage"),
    (
        "repair --drawing=d --code=c --bit=1/2 --rmax=100 --safe=0",
        "usage",
    ),
    (
        "repair --drawing=d --code=c --bit=1/2 --rmax=100 --pitch=5",
        "usage",
    ),
];
