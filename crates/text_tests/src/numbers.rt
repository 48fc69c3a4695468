// Numbers in text, at the scales of the units and at the ends of what is read, and square roots. The expected answers are written by hand.
use grid_num::{NumFault, isqrt, read_decimal, read_real, write_decimal};
use std::str;
use std::test::Fail;

// Texts without an exponent, each with a scale and what it is in parts of one.
const DECIMALS: [(&str, u32, Result<i64, NumFault>); 22] = [
    ("-0.02", 100, Ok(-2)),
    ("0.00", 100, Ok(0)),
    ("-32.768", 1000, Ok(-32_768)),
    ("0.5", 10, Ok(5)),
    ("+.25", 1 << 30, Ok(1 << 28)),
    ("-0", 1, Ok(0)),
    ("00000000000000000000000000000000000007.", 1, Ok(7)),
    ("9007199254740992", 1, Ok(9_007_199_254_740_992)),
    ("-9007199254740992", 1, Ok(-9_007_199_254_740_992)),
    ("9007199254740993", 1, Err(NumFault::OutOfRange)),
    (
        "999999999999999999999999999",
        1 << 30,
        Err(NumFault::OutOfRange),
    ),
    (
        "1000000000000000000000000000",
        1,
        Err(NumFault::TooManyDigits),
    ),
    (
        "0.1000000000000000000000000000",
        1,
        Err(NumFault::TooManyDigits),
    ),
    ("0.01", 10, Err(NumFault::OffGrid)),
    ("0.000000000000000000000000000000000000000000", 1, Ok(0)),
    ("", 1, Err(NumFault::NotNumber)),
    ("-", 1, Err(NumFault::NotNumber)),
    (".", 1, Err(NumFault::NotNumber)),
    ("1 ", 1, Err(NumFault::NotNumber)),
    ("1e2", 1, Err(NumFault::NotNumber)),
    ("1..2", 1, Err(NumFault::NotNumber)),
    ("9999999999999999999999999999x", 1, Err(NumFault::NotNumber)),
];

#[test]
fn numbers_at_scales(rt: HostRuntime) -> Result<(), Fail> {
    for (text, scale, want) in DECIMALS.iter() {
        assert!(rt; 1 <= *scale);
        assert!(rt; *scale <= 1 << 30);
        assert_eq!(rt;
            read_decimal(text.as_bytes(), *scale),
            *want,
            "{text} at {scale}"
        );
    }
    Ok(())
}

// Texts that may have an exponent, each with a scale and the nearest number of parts of one.
const REALS: [(&str, u32, Result<i64, NumFault>); 28] = [
    ("1e3", 1, Ok(1000)),
    ("1E+3", 1, Ok(1000)),
    ("1e-3", 1000, Ok(1)),
    (".5e1", 1, Ok(5)),
    ("25.4", 1000, Ok(25_400)),
    ("0.0005", 1000, Ok(1)),
    ("-0.0005", 1000, Ok(0)),
    ("-0.00051", 1000, Ok(-1)),
    ("-0.0015", 1000, Ok(-1)),
    ("0.00001e20", 1, Ok(1_000_000_000_000_000)),
    ("0e999", 1, Ok(0)),
    ("1e999", 1, Err(NumFault::OutOfRange)),
    ("1e-999", 1, Ok(0)),
    ("-1e-999", 1, Ok(0)),
    ("9007199254740992.4", 1, Ok(9_007_199_254_740_992)),
    ("9007199254740992.5", 1, Err(NumFault::OutOfRange)),
    ("-9007199254740992.5", 1, Ok(-9_007_199_254_740_992)),
    ("999999999999999999999999999e-27", 1, Ok(1)),
    ("499999999999999999999999999e-27", 1, Ok(0)),
    ("123456789012345678901234567e-27", 1 << 30, Ok(132_560_718)),
    (
        "1000000000000000000000000000",
        1,
        Err(NumFault::TooManyDigits),
    ),
    ("1000000000000000000000000000e", 1, Err(NumFault::NotNumber)),
    ("1e0001", 1, Err(NumFault::NotNumber)),
    ("1e", 1, Err(NumFault::NotNumber)),
    ("1e+", 1, Err(NumFault::NotNumber)),
    ("e5", 1, Err(NumFault::NotNumber)),
    ("1e5e5", 1, Err(NumFault::NotNumber)),
    ("1e1.5", 1, Err(NumFault::NotNumber)),
];

#[test]
fn reals_at_scales(rt: HostRuntime) -> Result<(), Fail> {
    for (text, scale, want) in REALS.iter() {
        assert!(rt; 1 <= *scale);
        assert!(rt; *scale <= 1 << 30);
        assert_eq!(rt;
            read_real(text.as_bytes(), *scale),
            *want,
            "{text} at {scale}"
        );
    }
    Ok(())
}

// Numbers of parts of one, each with the parts of one and its text behind an X.
const WRITTEN: [(i64, u32, &str); 12] = [
    (-2, 100, "X-0.02"),
    (0, 100, "X0.00"),
    (-32_768, 1000, "X-32.768"),
    (5, 10, "X0.5"),
    (0, 1, "X0"),
    (-7, 1, "X-7"),
    (1005, 1000, "X1.005"),
    (90_001, 10_000, "X9.0001"),
    (-10, 10_000, "X-0.0010"),
    (999, 10, "X99.9"),
    (i64::MAX, 10_000, "X922337203685477.5807"),
    (i64::MIN, 1, "X-9223372036854775808"),
];

#[test]
fn numbers_are_written(rt: HostRuntime) -> Result<(), Fail> {
    for (value, per_unit, want) in WRITTEN.iter() {
        assert!(rt; matches!(*per_unit, 1 | 10 | 100 | 1000 | 10_000));
        let mut text = Vec::from_slice(rt.alloc(), b"X")?;
        write_decimal(*value, *per_unit, &mut text)?;
        assert_eq!(rt;
            str::from_utf8(&text).ok(),
            Some(*want),
            "{value} at {per_unit}"
        );
    }
    Ok(())
}

// Numbers with their roots.
const ROOTS: [(u128, u64); 14] = [
    (0, 0),
    (1, 1),
    (3, 1),
    (4, 2),
    (8_589_672_450, 92_680),
    ((1 << 64) - 1, (1 << 32) - 1),
    (1 << 64, 1 << 32),
    ((1 << 96) - 1, (1 << 48) - 1),
    (1 << 96, 1 << 48),
    (
        340_282_366_920_938_463_426_481_119_284_349_108_224,
        u64::MAX - 1,
    ),
    (
        340_282_366_920_938_463_426_481_119_284_349_108_225,
        u64::MAX,
    ),
    (
        340_282_366_920_938_463_426_481_119_284_349_108_226,
        u64::MAX,
    ),
    (u128::MAX - 1, u64::MAX),
    (u128::MAX, u64::MAX),
];

#[test]
fn roots_around_squares(rt: HostRuntime) -> Result<(), Fail> {
    for (v, want) in ROOTS.iter() {
        assert_eq!(rt; isqrt(*v), *want, "the root of {v}");
    }
    Ok(())
}
