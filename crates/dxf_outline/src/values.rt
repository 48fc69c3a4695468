// What the value of a pair reads as.
ghost use Rattle.std.specs.Prelude.{◌≡◌, ◌≤◌, ◌^◌};
ghost use Rattle.grid_num.specs.Units.{per_unit_of};
ghost use Rattle.grid_num.specs.Real.{real_times};
ghost use Rattle.grid_num.specs.Whole.{digits_of};
ghost use Rattle.dxf_outline.specs.Values.{flags_reading, reading, reading_of, scale_of};

use grid_num::{NumFault, Units, read_real, read_whole};

/// What a value reads as.
#[derive(Clone, Copy)]
pub(crate) enum Reading {
    /// No number.
    Unreadable,
    /// A number above 2^53 parts of its unit in size.
    TooLarge,
    /// The number, in the parts of its unit.
    Number(i64),
}

impl Reading {
    ghost use Rattle.dxf_outline.specs.Values.{is_unreadable};

    /// Whether it is no number.
    pub(crate) fn is_unreadable(self) -> bool
        ensures { result ≡ is_unreadable self }
    {
        matches!(self, Reading::Unreadable)
    }
}

/// What the value of a pair of this code reads as.
pub(crate) fn read_value(units: Units, code: i32, text: &[u8]) -> Reading
    ensures { result ≡ reading (per_unit_of units) code text.now }
{
    if code == 70 {
        read_flags(text)
    } else {
        read_scaled(text, scale(units, code))
    }
}

// How many parts the unit of a code's values has.
fn scale(units: Units, code: i32) -> u32
    ensures value { result ≡ scale_of (per_unit_of units) code }
    ensures some { 1 ≤ result }
    ensures few { result ≤ 2 ^ 30 }
{
    match code {
        42 => 1 << 30,
        50 | 51 => 1_000_000,
        _ => 1000 * units.per_unit(),
    }
}

fn read_scaled(text: &[u8], scale: u32) -> Reading
    requires some { 1 ≤ scale }
    requires few { scale ≤ 2 ^ 30 }
    ensures { result ≡ reading_of (real_times scale text.now) }
{
    match read_real(text, scale) {
        Ok(number) => Reading::Number(number),
        Err(NumFault::OutOfRange) => Reading::TooLarge,
        Err(_) => Reading::Unreadable,
    }
}

fn read_flags(text: &[u8]) -> Reading
    ensures { result ≡ flags_reading (digits_of text.now) }
{
    match text {
        [b'-', ..] => Reading::Unreadable,
        _ => match read_whole(text) {
            Some(flags) => Reading::Number(flags as i64),
            None => Reading::Unreadable,
        },
    }
}
