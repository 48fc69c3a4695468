// Numbers in text that may have an exponent, rounded to whole numbers of a scale.
ghost use Rattle.std.specs.Prelude.{◌≡◌, ◌<◌, ◌≤◌, ◌^◌, ◌*◌, IfNone, IfSome, false, true};
ghost use Rattle.std.specs.List.{after_first, before_first, list_any};
ghost use Rattle.grid_num.specs.Decimal.{in_size};
ghost use Rattle.grid_num.specs.Real.{digits_exponent, exponent_of, is_exponent_mark, real_times, scaled_real, signed};
ghost use Rattle.grid_num.specs.Rounding.{nearest};

use crate::decimal::{Decimal, NumFault};
use crate::numeral::{is_all_digits, power_of_ten, value_after};

/// The most digits of an exponent.
pub const MOST_EXPONENT_DIGITS: usize = 3;

// The greatest size of what is read.
const MOST_SIZE: u128 = 1 << 53;

// Any number but 0 times more tens than these is above that size.
const MOST_TENS: u128 = 15;

// Any number times the scale, by more tens than these, is below one half.
const MOST_TENTHS: u128 = 36;

// The power of ten that a number is multiplied by, and the one that it is divided by. One of them is `10^0`.
#[derive(Clone, Copy)]
struct Exponent {
    up: u32,
    down: u32,
}

/// The number that the text writes, times the scale, which is from 1 to 2^30, rounded to the nearest whole number, halves
/// upwards. The text is as `read_decimal` takes it, and may go on with `e` or `E`, an optional sign and one to three digits.
/// The first fault in the order of `NumFault` that applies, and never `OffGrid`.
pub fn read_real(text: &[u8], scale: u32) -> Result<i64, NumFault>
    requires low { 1 ≤ scale }
    requires high { scale ≤ 2 ^ 30 }
    ensures { result ≡ real_times scale text.now }
{
    match split_at_mark(text) {
        Some((plain, behind)) => {
            let exponent = read_exponent(behind)?;
            rounded(&Decimal::read(plain)?, scale, exponent)
        }
        None => rounded(&Decimal::read(text)?, scale, Exponent { up: 0, down: 0 }),
    }
}

// What stands before the first mark of an exponent, and what stands behind it; None where there is none.
fn split_at_mark(text: &[u8]) -> Option<(&[u8], &[u8])>
    ensures none { IfNone result (list_any is_exponent_mark text.now ≡ false) }
    ensures found { IfSome result (λ _. list_any is_exponent_mark text.now ≡ true) }
    ensures before { IfSome result (λ sides. sides.0.now ≡ before_first is_exponent_mark text.now) }
    ensures behind { IfSome result (λ sides. sides.1.now ≡ after_first is_exponent_mark text.now) }
{
    let place = text.iter().position(|byte| *byte == b'e' || *byte == b'E')?;
    Some((&text[..place], &text[place + 1..]))
}

fn read_exponent(text: &[u8]) -> Result<Exponent, NumFault>
    ensures { result ≡ exponent_of text.now }
{
    match text {
        [b'+', rest @ ..] => exponent_from_digits(false, rest),
        [b'-', rest @ ..] => exponent_from_digits(true, rest),
        _ => exponent_from_digits(false, text),
    }
}

fn exponent_from_digits(negative: bool, digits: &[u8]) -> Result<Exponent, NumFault>
    ensures { result ≡ digits_exponent negative digits.now }
{
    if digits.is_empty() || digits.len() > MOST_EXPONENT_DIGITS || !is_all_digits(digits) {
        return Err(NumFault::NotNumber);
    }
    let size = value_after(0, digits) as u32;
    Ok(if negative {
        Exponent { up: 0, down: size }
    } else {
        Exponent { up: size, down: 0 }
    })
}

// The number times the scale and the power of ten, rounded.
fn rounded(number: &Decimal, scale: u32, exponent: Exponent) -> Result<i64, NumFault>
    requires { scale ≤ 2 ^ 30 }
    ensures { result ≡ in_size (scaled_real scale number.now exponent) }
{
    let product = number.digits * u128::from(scale);
    let up = u128::from(exponent.up);
    let down = number.places as u128 + u128::from(exponent.down);
    if up >= down {
        raised(number.negative, product, up - down)
    } else {
        lowered(number.negative, product, down - up)
    }
}

// The product times `10^tens`, or minus that.
fn raised(negative: bool, product: u128, tens: u128) -> Result<i64, NumFault>
    ensures { result ≡ in_size (signed negative (product * 10 ^ tens)) }
{
    if product == 0 {
        return Ok(0);
    }
    if tens > MOST_TENS || product > MOST_SIZE {
        return Err(NumFault::OutOfRange);
    }
    by_sign(negative, product * power_of_ten(tens as usize))
}

// The whole number nearest to the product by `10^tenths`, or to minus that.
fn lowered(negative: bool, product: u128, tenths: u128) -> Result<i64, NumFault>
    requires { 2 * product < 10 ^ 37 }
    ensures { result ≡ in_size (nearest (signed negative product) (10 ^ tenths)) }
{
    if tenths > MOST_TENTHS {
        return Ok(0);
    }
    let power = power_of_ten(tenths as usize);
    // Of two equally near numbers the greater is the one less in size, where they are negative.
    let size = (2 * product + power - u128::from(negative)) / (2 * power);
    by_sign(negative, size)
}

// The number by its sign and its size, where that isn't above what is read.
fn by_sign(negative: bool, size: u128) -> Result<i64, NumFault>
    ensures { result ≡ in_size (signed negative size) }
{
    if size > MOST_SIZE {
        return Err(NumFault::OutOfRange);
    }
    let number = size as i64;
    Ok(if negative { -number } else { number })
}
