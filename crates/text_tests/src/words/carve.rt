// The words of `carve`.

/// Lines of words, and what they ask for.
pub static LINES: [(&str, &str); 22] = [
    (
        "carve --drawing=d --bit=1/2 --rmax=300 --step=20",
        "d Loops Mm100 1/2 300 20 32767 200 500 10 NoPocket 50",
    ),
    (
        "carve --over 1 --pocket x --pitch 1 --feed 1 --safe 1 --limit 1 --step 1 --rmax 1 --units in1000 --bit 2000/1 --form loops --drawing d",
        "d Loops In1000 2000/1 1 1 1 1 1 1 X 1",
    ),
    (
        "carve --drawing=d --bit=1/2 --rmax=300 --step=32767 --limit=32767 --safe=32767 --feed=10000 --pitch=32767 --pocket=y --over=8191",
        "d Loops Mm100 1/2 300 32767 32767 32767 10000 32767 Y 8191",
    ),
    ("carve --bit=1/2 --rmax=300 --step=20", "usage"),
    ("carve --drawing=d --rmax=300 --step=20", "usage"),
    ("carve --drawing=d --bit=1/2 --step=20", "usage"),
    ("carve --drawing=d --bit=1/2 --rmax=300", "usage"),
    (
        "carve --drawing=d --bit=1/2 --rmax=300 --step=20 --safe=0",
        "usage",
    ),
    (
        "carve --drawing=d --bit=1/2 --rmax=300 --step=20 --safe=32768",
        "usage",
    ),
    (
        "carve --drawing=d --bit=1/2 --rmax=300 --step=20 --feed=0",
        "usage",
    ),
    (
        "carve --drawing=d --bit=1/2 --rmax=300 --step=20 --feed=10001",
        "usage",
    ),
    (
        "carve --drawing=d --bit=1/2 --rmax=300 --step=20 --pitch=0",
        "usage",
    ),
    (
        "carve --drawing=d --bit=1/2 --rmax=300 --step=20 --pitch=32768",
        "usage",
    ),
    (
        "carve --drawing=d --bit=1/2 --rmax=300 --step=20 --pitch=",
        "usage",
    ),
    (
        "carve --drawing=d --bit=1/2 --rmax=300 --step=20 --pitch=5 --pitch=5",
        "usage",
    ),
    (
        "carve --drawing=d --bit=1/2 --rmax=300 --step=20 --pocket=none",
        "d Loops Mm100 1/2 300 20 32767 200 500 10 NoPocket 50",
    ),
    (
        "carve --drawing=d --bit=1/2 --rmax=300 --step=20 --pocket=both",
        "d Loops Mm100 1/2 300 20 32767 200 500 10 Both 50",
    ),
    (
        "carve --drawing=d --bit=1/2 --rmax=300 --step=20 --pocket=",
        "usage",
    ),
    (
        "carve --drawing=d --bit=1/2 --rmax=300 --step=20 --pocket=xy",
        "usage",
    ),
    (
        "carve --drawing=d --bit=1/2 --rmax=300 --step=20 --over=0",
        "usage",
    ),
    (
        "carve --drawing=d --bit=1/2 --rmax=300 --step=20 --over=8192",
        "usage",
    ),
    (
        "carve --drawing=d --bit=1/2 --rmax=300 --step=20 --code=c",
        "usage",
    ),
];
