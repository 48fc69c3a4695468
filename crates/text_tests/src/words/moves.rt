// The words of `moves`.

/// Lines of words, and what they ask for.
pub static LINES: [(&str, &str); 13] = [
    ("moves --code=c", "c Mm100"),
    ("moves --units mm10 --code c", "c Mm10"),
    ("moves --code=c --units=mm100", "c Mm100"),
    ("moves --code=c --units=mm1000", "c Mm1000"),
    ("moves --code=c --units=in100", "c In100"),
    ("moves --code=c --units=in1000", "c In1000"),
    ("moves --code=c --units=in10", "usage"),
    ("moves --code=c --units=MM10", "usage"),
    ("moves --code=c --units=", "usage"),
    ("moves --code=c --units=in100 --units=in100", "usage"),
    ("moves --code=c --code=c", "usage"),
    ("moves --code=c --rmax=100", "usage"),
    ("moves", "usage"),
];
