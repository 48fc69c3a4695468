// Plain decimal numbers in text, exactly, and what they are as whole numbers of a scale.
ghost use Rattle.std.specs.Prelude.{◌≡◌, ◌<◌, ◌≤◌, ◌^◌, ◌%◌, ◌/◌, ◌++◌, ◌*◌, ◌==◌, ◌&&◌, if◌then◌else◌, length, nat_le};
ghost use Rattle.std.specs.Str.{all_ascii_digits};
ghost use Rattle.std.specs.List.{after_first, before_first};
ghost use Rattle.grid_num.specs.Decimal.{counted_digits, decimal_times};

use crate::numeral::{
    counted, digits_at_front, is_all_digits, power_of_ten, short_power_of_ten, value_after,
};
use crate::split::split_at_byte;
use std::marker::Model;

/// Why a text isn't a whole number of the scale.
#[derive(Clone, Copy, Debug, PartialEq, Eq)]
pub enum NumFault {
    /// The text isn't an optional sign and digits with at most one point among, before or after them, then, where that is
    /// taken, an exponent.
    NotNumber,
    /// More than 27 digits, counted from the first that isn't 0.
    TooManyDigits,
    /// The number times the scale isn't whole.
    OffGrid,
    /// The number times the scale, rounded where that is said, is above 2^53 in size.
    OutOfRange,
}

/// The most digits of a number, from the first that isn't 0 on.
pub const MOST_DIGITS: usize = 27;

// The greatest power of ten in 64 bits is `10^19`.
const MOST_SHORT_PLACES: usize = 19;

/// A plain decimal number of at most 27 digits, exactly: `digits / 10^places`, or minus that.
#[derive(Clone, Copy, Debug, PartialEq, Eq)]
pub struct Decimal {
    pub(crate) negative: bool,
    pub(crate) digits: u128,
    pub(crate) places: usize,
}

impl Model for Decimal {
    ghost use Rattle.std.specs.Prelude.{◌<◌, ◌^◌};
    ghost use Rattle.grid_num.specs.Decimal.{PlainNumber};

    ghost Value = { PlainNumber };

    ghost view = { λ d. record { negative = d.negative; digits = d.digits; places = d.places } };

    ghost invariant = { λ d. d.digits < 10 ^ 27 };

    ghost inverse = { λ n. record { negative = n.negative; digits = n.digits; places = n.places } };
}

impl Decimal {
    ghost use Rattle.std.specs.Prelude.{true, take, IfSome};
    ghost use Rattle.std.specs.List.{list_all};
    ghost use Rattle.grid_num.specs.Front.{is_number_byte};
    ghost use Rattle.grid_num.specs.Decimal.{decimal_by, decimal_number, is_tenths, times_scale, unsigned_decimal};

    /// The number that the text writes. `NotNumber` where it isn't an optional `+` or `-` and digits with at most
    /// one point among, before or after them; else `TooManyDigits` where it has more than 27 digits from the first
    /// that isn't 0 on.
    pub fn read(text: &[u8]) -> Result<Decimal, NumFault>
        ensures { result ≡ decimal_number text.now }
    {
        match text {
            [b'+', rest @ ..] => Decimal::unsigned(false, rest),
            [b'-', rest @ ..] => Decimal::unsigned(true, rest),
            _ => Decimal::unsigned(false, text),
        }
    }

    /// The number that the text begins with, and how many bytes write it. None where there is no number, and also where there is
    /// one that `read` may yet take: with a `+`, with more digits than 27, or with a value of 19 digits or more.
    // One pass over the bytes, in 64 bits, for what nearly all numbers are.
    pub fn at_front(text: &[u8]) -> Option<(Decimal, usize)>
        ensures value { IfSome result (λ front. decimal_number (take front.1 text.now) ≡ Ok front.0) }
        ensures within { IfSome result (λ front. front.1 ≤ length text.now) }
        ensures bytes { IfSome result (λ front. list_all is_number_byte (take front.1 text.now) ≡ true) }
    {
        match text {
            [b'+', ..] => None,
            [b'-', rest @ ..] => {
                let (number, len) = Decimal::unsigned_at_front(true, rest)?;
                Some((number, len + 1))
            }
            _ => Decimal::unsigned_at_front(false, text),
        }
    }

    fn unsigned_at_front(negative: bool, text: &[u8]) -> Option<(Decimal, usize)>
        ensures value { IfSome result (λ front. unsigned_decimal negative (take front.1 text.now) ≡ Ok front.0) }
        ensures within { IfSome result (λ front. front.1 ≤ length text.now) }
        ensures bytes { IfSome result (λ front. list_all is_number_byte (take front.1 text.now) ≡ true) }
    {
        let (whole, len) = digits_at_front(0, text);
        if len == text.len() || text[len] != b'.' {
            let number = Decimal::short(negative, whole, len, 0)?;
            return Some((number, len));
        }
        let (digits, places) = digits_at_front(whole, &text[len + 1..]);
        let number = Decimal::short(negative, digits, len + places, places)?;
        Some((number, len + 1 + places))
    }

    // The number of so many digits, where it has some and not too many.
    fn short(negative: bool, digits: u64, count: usize, places: usize) -> Option<Decimal>
        ensures value { IfSome result (λ number. number ≡ record { negative = negative; digits = digits; places = places }) }
        ensures some { IfSome result (λ _. 1 ≤ count) }
        ensures few { IfSome result (λ _. count ≤ MOST_DIGITS) }
    {
        if count == 0 || count > MOST_DIGITS {
            return None;
        }
        Some(Decimal {
            negative,
            digits: u128::from(digits),
            places,
        })
    }

    fn unsigned(negative: bool, text: &[u8]) -> Result<Decimal, NumFault>
        ensures { result ≡ unsigned_decimal negative text.now }
    {
        let (whole, fraction) = split_at_point(text);
        Decimal::from_digits(negative, whole, fraction)
    }

    fn from_digits(negative: bool, whole: &[u8], fraction: &[u8]) -> Result<Decimal, NumFault>
        ensures { result ≡ decimal_by negative whole.now fraction.now }
    {
        if !have_digits_alone(whole, fraction) {
            return Err(NumFault::NotNumber);
        }
        if counted_in_both(whole, fraction) > MOST_DIGITS {
            return Err(NumFault::TooManyDigits);
        }
        Ok(Decimal {
            negative,
            digits: value_after(value_after(0, whole), fraction),
            places: fraction.len(),
        })
    }

    /// The number times the scale, or `OffGrid` where that isn't whole.
    pub fn times_scale(&self, scale: u32) -> Result<i128, NumFault>
        requires { scale ≤ 2 ^ 30 }
        ensures { result ≡ times_scale scale self.now }
    {
        let product = self.digits * u128::from(scale);
        let size = divided_by_power(product, self.places).ok_or(NumFault::OffGrid)? as i128;
        Ok(if self.negative { -size } else { size })
    }

    /// Whether the number is `tenths / 10`.
    pub fn is_tenths(&self, tenths: u32) -> bool
        ensures { result ≡ is_tenths self.now tenths }
    {
        let is_below_zero = self.negative && self.digits != 0;
        is_times_power(self.digits * 10, tenths, self.places) && !is_below_zero
    }
}

/// The number that the text writes, times the scale, which is from 1 to 2^30. Exact, or the first fault in the order
/// of `NumFault` that applies.
pub fn read_decimal(text: &[u8], scale: u32) -> Result<i64, NumFault>
    requires low { 1 ≤ scale }
    requires high { scale ≤ 2 ^ 30 }
    ensures { result ≡ decimal_times scale text.now }
{
    let number = Decimal::read(text)?.times_scale(scale)?;
    if number.unsigned_abs() <= 1 << 53 {
        Ok(number as i64)
    } else {
        Err(NumFault::OutOfRange)
    }
}

// What stands before the first point, and what stands behind it.
fn split_at_point(text: &[u8]) -> (&[u8], &[u8])
    ensures whole { result.0.now ≡ before_first (λ byte. byte == 46) text.now }
    ensures fraction { result.1.now ≡ after_first (λ byte. byte == 46) text.now }
{
    match split_at_byte(text, b'.') {
        Some(sides) => sides,
        None => (text, &[]),
    }
}

// Whether the two have no byte but digits, and at least one.
fn have_digits_alone(whole: &[u8], fraction: &[u8]) -> bool
    ensures { let digits = whole.now ++ fraction.now in result ≡ (nat_le 1 (length digits) && all_ascii_digits digits) }
{
    (!whole.is_empty() || !fraction.is_empty()) && is_all_digits(whole) && is_all_digits(fraction)
}

// How many digits the two have together from the first that isn't 0 on.
fn counted_in_both(whole: &[u8], fraction: &[u8]) -> usize
    ensures { result ≡ counted_digits (whole.now ++ fraction.now) }
{
    match counted(whole) {
        0 => counted(fraction),
        some => some + fraction.len(),
    }
}

// The number by `10^places`, where that is whole.
fn divided_by_power(number: u128, places: usize) -> Option<u128>
    requires { number < 10 ^ 38 }
    ensures { result ≡ (if number % 10 ^ places == 0 then Some (number / 10 ^ places) else None) }
{
    if let Ok(short) = u64::try_from(number)
        && places <= MOST_SHORT_PLACES
    {
        return Some(u128::from(short_divided_by_power(short, places)?));
    }
    if places > 38 {
        return if number == 0 { Some(0) } else { None };
    }
    let power = power_of_ten(places);
    if number % power == 0 {
        Some(number / power)
    } else {
        None
    }
}

// The same in 64 bits, where the power fits them too.
fn short_divided_by_power(number: u64, places: usize) -> Option<u64>
    requires { places ≤ MOST_SHORT_PLACES }
    ensures { result ≡ (if number % 10 ^ places == 0 then Some (number / 10 ^ places) else None) }
{
    let divisor = short_power_of_ten(places);
    if number % divisor == 0 {
        Some(number / divisor)
    } else {
        None
    }
}

// Whether the number is `factor * 10^places`.
fn is_times_power(number: u128, factor: u32, places: usize) -> bool
    requires { number < 10 ^ 28 }
    ensures { result ≡ (number == factor * 10 ^ places) }
{
    if places > MOST_DIGITS {
        return number == 0 && factor == 0;
    }
    number == u128::from(factor) * power_of_ten(places)
}
