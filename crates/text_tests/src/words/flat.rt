// The words of `flat`.

/// Lines of words, and what they ask for.
pub static LINES: [(&str, &str); 12] = [
    (
        "flat --drawing=d --bit=1/2 --rmax=300 --radius=50",
        "d Loops Mm100 1/2 300 50 32767 50 200 500 10 X",
    ),
    (
        "flat --over 1 --pocket y --pitch 1 --feed 1 --safe 1 --limit 1 --radius 1 --rmax 1 --units in1000 --bit 2000/1 --form loops --drawing d",
        "d Loops In1000 2000/1 1 1 1 1 1 1 1 Y",
    ),
    (
        "flat --drawing=d --bit=1/2 --rmax=300 --radius=8191 --limit=32767 --over=8191 --safe=32767 --feed=10000 --pitch=32767 --pocket=both",
        "d Loops Mm100 1/2 300 8191 32767 8191 32767 10000 32767 Both",
    ),
    (
        "flat --drawing=d --bit=1/2 --rmax=300 --radius=50 --pocket=x",
        "d Loops Mm100 1/2 300 50 32767 50 200 500 10 X",
    ),
    (
        "flat --drawing=d --bit=1/2 --rmax=300 --radius=50 --pocket=none",
        "usage",
    ),
    (
        "flat --drawing=d --bit=1/2 --rmax=300 --radius=50 --pocket=",
        "usage",
    ),
    ("flat --drawing=d --bit=1/2 --rmax=300", "usage"),
    ("flat --drawing=d --bit=1/2 --radius=50", "usage"),
    ("flat --bit=1/2 --rmax=300 --radius=50", "usage"),
    ("flat --drawing=d --bit=1/2 --rmax=300 --radius=0", "usage"),
    (
        "flat --drawing=d --bit=1/2 --rmax=300 --radius=8192",
        "usage",
    ),
    (
        "flat --drawing=d --bit=1/2 --rmax=300 --radius=50 --step=20",
        "usage",
    ),
];
