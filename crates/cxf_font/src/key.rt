// The character whose glyph a line begins.
ghost use Rattle.std.specs.Prelude.{◌≡◌, ◌≢◌, IfErr, IfNone, IfSome, None, Some};
ghost use Rattle.cxf_font.specs.Keys.{first_character, hexadecimal_of, key_of, number_in_brackets};

use crate::fault::CxfKind;
use text_lines::Separator;

// The most hexadecimal digits of a character's number.
const MOST_DIGITS: usize = 6;

/// The number of the character that a line names behind its `[`: in hexadecimal, or by the character itself.
pub(crate) fn read_key(text: &[u8]) -> Result<u32, CxfKind>
    ensures value { result ≡ key_of text.now }
    ensures kind { IfErr result (λ kind. kind ≢ CxfKind.Memory) }
{
    if let [b'#', rest @ ..] = text {
        if let Some(number) = number_in_brackets(rest) {
            return match char::from_u32(number) {
                Some(_) => Ok(number),
                None => Err(CxfKind::Syntax),
            };
        }
    }
    match first_character(text) {
        Some((character, [b']', ..])) => Ok(character),
        _ => Err(CxfKind::Syntax),
    }
}

// The number of a text that begins with one to six hexadecimal digits and a `]`.
fn number_in_brackets(text: &[u8]) -> Option<u32>
    ensures { result ≡ number_in_brackets text.now }
{
    let end = Separator::Byte(b']').first_in(text)?;
    read_hexadecimal(&text[..end])
}

// The number that one to six hexadecimal digits write.
fn read_hexadecimal(digits: &[u8]) -> Option<u32>
    ensures { result ≡ hexadecimal_of digits.now }
{
    if digits.is_empty() || digits.len() > MOST_DIGITS {
        return None;
    }
    let mut number = 0;
    for digit in digits {
        number = number * 16 + char::from(*digit).to_digit(16)?;
    }
    Some(number)
}

// The first character of a text, and what stands behind it; None at the end of the text.
fn first_character(text: &[u8]) -> Option<(u32, &[u8])>
    ensures none { IfNone result (first_character text.now ≡ None) }
    ensures some { IfSome result (λ first. first_character text.now ≡ Some (first.0, first.1.now)) }
{
    let front = text.utf8_chunks().next()?.valid();
    match front.chars().next() {
        Some(character) => Some((u32::from(character), &text[character.len_utf8()..])),
        None => {
            let (byte, rest) = text.split_first()?;
            Some((u32::from(*byte), rest))
        }
    }
}
