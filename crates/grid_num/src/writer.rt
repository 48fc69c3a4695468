// Writes a number of grid units as a plain decimal.
ghost use Rattle.std.specs.Prelude.{◌≡◌, ◌≤◌, ◌^◌, ◌++◌, OnErr, OnOk, Ok, drop, length, unsigned_abs};
ghost use Rattle.grid_num.specs.Decimal.{decimal_times};
ghost use Rattle.grid_num.specs.Written.{IsPowerOfTen, decimal_text, fraction_text, size_text, zeros_of};

use itoa::write_digits;
use std::alloc::AllocError;

// Room for a sign, the digits of any number, and a point.
const ROOM: usize = 32;

/// Appends `value / per_unit` to the text, with as many digits behind the point as `per_unit`, which is 1, 10, 100, 1000 or
/// 10,000, has zeros, and with no point for 1. A negative number begins with a `-`; zero has no sign. `read_decimal` gives the
/// number back. On an error the text is as before.
pub fn write_decimal(value: i64, per_unit: u32, out: &mut Vec<u8>) -> Result<(), AllocError>
    requires { IsPowerOfTen per_unit }
    ensures text { OnOk result (out.new.items ≡ out.old.items ++ decimal_text (zeros_of per_unit) value) }
    ensures unchanged { OnErr result (out.new.items ≡ out.old.items) }
    ensures read_back { unsigned_abs value ≤ 2 ^ 53 → decimal_times per_unit (decimal_text (zeros_of per_unit) value) ≡ Ok value }
{
    let mut text = [0u8; ROOM];
    let mut start = write_size(value.unsigned_abs(), per_unit, &mut text);
    if value < 0 {
        start -= 1;
        text[start] = b'-';
    }
    out.extend_from_slice(&text[start..])
}

// Writes `size / per_unit` at the end of the text, and says where it begins.
fn write_size(size: u64, per_unit: u32, text: &mut [u8]) -> usize
    requires scale { IsPowerOfTen per_unit }
    requires room { length text.old ≡ ROOM }
    ensures place { (1 ≤ result) × (result ≤ ROOM) }
    ensures text { drop result text.new ≡ size_text (zeros_of per_unit) size }
{
    let point = write_fraction(size, per_unit, text);
    write_digits(size / u64::from(per_unit), text, point)
}

// Writes the point and what stands behind it at the end of the text, and says where that begins.
fn write_fraction(size: u64, per_unit: u32, text: &mut [u8]) -> usize
    requires scale { IsPowerOfTen per_unit }
    requires room { length text.old ≡ ROOM }
    ensures place { (24 ≤ result) × (result ≤ ROOM) }
    ensures text { drop result text.new ≡ fraction_text (zeros_of per_unit) size }
{
    if per_unit == 1 {
        return text.len();
    }
    // Behind a 1 the rest has all its digits, and the point takes the place of the 1.
    let scale = u64::from(per_unit);
    let point = write_digits(scale + size % scale, text, text.len());
    text[point] = b'.';
    point
}
