// The words of `trial`.

/// Lines of words, and what they ask for.
pub static LINES: [(&str, &str); 9] = [
    ("trial --count=1", "1"),
    ("trial --count 80", "80"),
    ("trial --count=0", "usage"),
    ("trial --count=81", "usage"),
    ("trial --count=", "usage"),
    ("trial --count=1 --count=1", "usage"),
    ("trial --drawing=a --count=1", "usage"),
    ("trial --count=1 --cross=refuse", "usage"),
    ("trial", "usage"),
];
