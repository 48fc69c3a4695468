// The words of `flatten`, which are those that say which drawing a command is about.

/// Lines of words, and what they ask for.
pub static LINES: [(&str, &str); 33] = [
    (
        "flatten --drawing=d",
        "d Loops Mm100 10 1 10  900 100 25 100 150 Left No No Refuse",
    ),
    (
        "flatten --snap=-0 --chord=90 --form=dxf --units=in1000 --drawing=d",
        "d Dxf In1000 90 0 10  900 100 25 100 150 Left No No Refuse",
    ),
    (
        "flatten --snap 16 --chord 1 --form loops --drawing d",
        "d Loops Mm100 1 16 10  900 100 25 100 150 Left No No Refuse",
    ),
    (
        "flatten --drawing=d --form=cxf --text=AB --height=100 --width=50 --charspace=0 --wordspace=0 --linespace=200",
        "d Cxf Mm100 10 1 10 AB 100 50 0 0 200 Left No No Refuse",
    ),
    (
        "flatten --drawing=d --form=pbm --pixel=1000 --justify=right --mirror=yes --flip=no --cross=refuse",
        "d Pbm Mm100 10 1 1000  900 100 25 100 150 Right Yes No Refuse",
    ),
    (
        "flatten --drawing=d --text=\u{e4}\u{20ac}\u{1f600} --justify=center --flip=yes",
        "d Loops Mm100 10 1 10 \u{e4}\u{20ac}\u{1f600} 900 100 25 100 150 Center No Yes Refuse",
    ),
    (
        "flatten --drawing=d --cross=evenodd",
        "d Loops Mm100 10 1 10  900 100 25 100 150 Left No No Evenodd",
    ),
    ("flatten --drawing=d --cross=", "usage"),
    ("flatten --drawing=d --cross=odd", "usage"),
    ("flatten --drawing=d --form=cxf", "usage"),
    ("flatten --drawing=d --text=", "usage"),
    ("flatten --drawing=d --pixel=0", "usage"),
    ("flatten --drawing=d --pixel=1001", "usage"),
    ("flatten --drawing=d --height=0", "usage"),
    ("flatten --drawing=d --height=32768", "usage"),
    ("flatten --drawing=d --width=9", "usage"),
    ("flatten --drawing=d --width=501", "usage"),
    ("flatten --drawing=d --charspace=501", "usage"),
    ("flatten --drawing=d --wordspace=501", "usage"),
    ("flatten --drawing=d --linespace=9", "usage"),
    ("flatten --drawing=d --linespace=501", "usage"),
    ("flatten --drawing=d --justify=middle", "usage"),
    ("flatten --drawing=d --mirror=Yes", "usage"),
    ("flatten --drawing=d --flip=1", "usage"),
    ("flatten", "usage"),
    ("flatten --form=dxf", "usage"),
    ("flatten --drawing=d --chord=0", "usage"),
    ("flatten --drawing=d --chord=91", "usage"),
    ("flatten --drawing=d --snap=17", "usage"),
    ("flatten --drawing=d --snap=-1", "usage"),
    ("flatten --drawing=d --form=DXF", "usage"),
    ("flatten --drawing=d --rmax=5", "usage"),
    ("flatten --drawing=d --chord=5 --chord=5", "usage"),
];
