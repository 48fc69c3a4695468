// The words of `strokes`.

/// Lines of words, and what they ask for.
pub static LINES: [(&str, &str); 13] = [
    (
        "strokes --drawing=d --form=dxf --bit=1/2 --rmax=300 --depth=10",
        "d Dxf Mm100 1/2 300 10 200 500 10",
    ),
    (
        "strokes --pitch 1 --feed 1 --safe 1 --depth 1 --rmax 1 --bit 1/1 --text I --form cxf --drawing d --units mm10",
        "d Cxf Mm10 1/1 1 1 1 1 1",
    ),
    (
        "strokes --drawing=d --form=dxf --bit=1/2 --rmax=300 --depth=600 --safe=32767 --feed=10000 --pitch=32767",
        "d Dxf Mm100 1/2 300 600 32767 10000 32767",
    ),
    (
        "strokes --drawing=d --form=dxf --bit=1/2 --rmax=300 --depth=601",
        "usage",
    ),
    (
        "strokes --drawing=d --form=dxf --bit=1/4 --rmax=8191 --depth=32764",
        "d Dxf Mm100 1/4 8191 32764 200 500 10",
    ),
    (
        "strokes --drawing=d --form=dxf --bit=1/4 --rmax=8191 --depth=32765",
        "usage",
    ),
    (
        "strokes --drawing=d --form=dxf --bit=1/2000 --rmax=8191 --depth=32768",
        "usage",
    ),
    (
        "strokes --drawing=d --form=dxf --bit=1/2 --rmax=300 --depth=0",
        "usage",
    ),
    (
        "strokes --drawing=d --form=dxf --bit=1/2 --rmax=300",
        "usage",
    ),
    (
        "strokes --drawing=d --bit=1/2 --rmax=300 --depth=10",
        "usage",
    ),
    (
        "strokes --drawing=d --form=loops --bit=1/2 --rmax=300 --depth=10",
        "usage",
    ),
    (
        "strokes --drawing=d --form=pbm --bit=1/2 --rmax=300 --depth=10",
        "usage",
    ),
    (
        "strokes --drawing=d --form=cxf --bit=1/2 --rmax=300 --depth=10",
        "usage",
    ),
];
