// Runs of decimal digits: whether a text is one, its length without zeros in front, and its value.
ghost use Rattle.std.specs.Prelude.{◌≡◌, ◌<◌, ◌≤◌, ◌^◌, true, length, take};
ghost use Rattle.std.specs.Str.{all_ascii_digits};
ghost use Rattle.std.specs.Str.Parse.{digits_value_after};
ghost use Rattle.grid_num.specs.Decimal.{counted_digits};

// A number below this has room for one more digit.
const MOST_BEFORE_A_DIGIT: u64 = 1_000_000_000_000_000_000;

/// Whether every byte is a digit.
pub fn is_all_digits(text: &[u8]) -> bool
    ensures { result ≡ all_ascii_digits text.now }
{
    text.iter().all(|byte| byte.is_ascii_digit())
}

/// How many digits there are from the first that isn't 0 on.
pub fn counted(digits: &[u8]) -> usize
    ensures { result ≡ counted_digits digits.now }
{
    for (i, digit) in digits.iter().enumerate() {
        if *digit != b'0' {
            return digits.len() - i;
        }
    }
    0
}

/// The number whose digits are those of `value`, and then these.
pub fn value_after(value: u128, digits: &[u8]) -> u128
    requires digits { all_ascii_digits digits.now ≡ true }
    requires fits { digits_value_after 10 value digits.now < 10 ^ 27 }
    ensures { result ≡ digits_value_after 10 value digits.now }
{
    let mut number = value;
    for digit in digits {
        number = number * 10 + u128::from(*digit - b'0');
    }
    number
}

/// The number whose digits are those of `value` and then those at the front of the text, and how many these are: all that
/// come before another byte, or fewer where the number would not surely fit.
pub fn digits_at_front(value: u64, text: &[u8]) -> (u64, usize)
    ensures value { result.0 ≡ digits_value_after 10 value (take result.1 text.now) }
    ensures digits { all_ascii_digits (take result.1 text.now) ≡ true }
    ensures within { result.1 ≤ length text.now }
{
    let mut number = value;
    for (i, byte) in text.iter().enumerate() {
        if !byte.is_ascii_digit() || number >= MOST_BEFORE_A_DIGIT {
            return (number, i);
        }
        number = number * 10 + u64::from(*byte - b'0');
    }
    (number, text.len())
}

/// `10^exponent`.
pub fn power_of_ten(exponent: usize) -> u128
    requires { exponent ≤ 38 }
    ensures { result ≡ 10 ^ exponent }
{
    let mut power = 1;
    for _ in 0..exponent {
        power *= 10;
    }
    power
}

/// `10^exponent`, in 64 bits.
pub fn short_power_of_ten(exponent: usize) -> u64
    requires { exponent ≤ 19 }
    ensures { result ≡ 10 ^ exponent }
{
    let mut power = 1;
    for _ in 0..exponent {
        power *= 10;
    }
    power
}
