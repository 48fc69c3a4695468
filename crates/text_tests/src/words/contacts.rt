// The words of `contacts`.

/// Lines of words, and what they ask for.
pub static LINES: [(&str, &str); 11] = [
    (
        "contacts --drawing=d --step=20 --rmax=300",
        "d Loops Mm100 20 300",
    ),
    (
        "contacts --rmax 8191 --units in100 --form loops --step 32767 --drawing d",
        "d Loops In100 32767 8191",
    ),
    (
        "contacts --drawing=d --step=1 --rmax=1",
        "d Loops Mm100 1 1",
    ),
    ("contacts --drawing=d --step=0 --rmax=300", "usage"),
    ("contacts --drawing=d --step=32768 --rmax=300", "usage"),
    ("contacts --drawing=d --step= --rmax=300", "usage"),
    ("contacts --drawing=d --rmax=300", "usage"),
    ("contacts --drawing=d --step=20", "usage"),
    ("contacts --step=20 --rmax=300", "usage"),
    (
        "contacts --drawing=d --step=20 --rmax=300 --bit=1/1",
        "usage",
    ),
    (
        "contacts --drawing=d --step=20 --step=20 --rmax=300",
        "usage",
    ),
];
