// Whole numbers in text: an optional minus and one to nine digits, as words of a command and of an outline write them.
ghost use Rattle.std.specs.Prelude.{◌≡◌, ◌<◌, ◌^◌, IfSome};
ghost use Rattle.grid_num.specs.Whole.{IsOfNineDigits, digits_of, pair_of, whole_of};

use crate::split::split_at_byte;

/// The most digits of a whole number, zeros in front among them.
pub const MOST_WHOLE_DIGITS: usize = 9;

/// The number that an optional minus and one to nine digits write, or None for any other text.
pub fn read_whole(text: &[u8]) -> Option<i32>
    ensures value { result ≡ whole_of text.now }
    ensures range { IfSome result (λ n. IsOfNineDigits n) }
{
    match text {
        [b'-', digits @ ..] => Some(-(read_digits(digits)? as i32)),
        digits => Some(read_digits(digits)? as i32),
    }
}

/// Two such numbers with one `separator` between them, or None for any other text.
pub fn read_whole_pair(text: &[u8], separator: u8) -> Option<(i32, i32)>
    ensures value { result ≡ pair_of separator text.now }
    ensures range { IfSome result (λ pair. IsOfNineDigits pair.0 × IsOfNineDigits pair.1) }
{
    let (first, second) = split_at_byte(text, separator)?;
    Some((read_whole(first)?, read_whole(second)?))
}

/// The number that one to nine digits write, or None for any other text.
pub fn read_digits(text: &[u8]) -> Option<u32>
    ensures value { result ≡ digits_of text.now }
    ensures range { IfSome result (λ n. n < 10 ^ 9) }
{
    if text.is_empty() || text.len() > MOST_WHOLE_DIGITS {
        return None;
    }
    let mut number = 0u32;
    for byte in text {
        if !byte.is_ascii_digit() {
            return None;
        }
        number = number * 10 + u32::from(*byte - b'0');
    }
    Some(number)
}
