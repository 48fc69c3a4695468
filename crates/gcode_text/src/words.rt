// Words of a line: a letter and the characters of a number behind it.
ghost use Rattle.std.specs.Prelude.{◌≡◌, [], ◌∷◌, length, MatchOption, IfSome, ◌<◌, ◌≤◌};
ghost use Rattle.std.specs.List.{prefix_len};
ghost use Rattle.gcode_text.specs.Grammar.{is_number_byte, line_words};
ghost use Rattle.gcode_text.specs.Words.{word_of};

/// A word of a line. What stands in the letter's place may be another byte.
#[derive(Clone, Copy)]
pub struct Word<'a> {
    pub letter: u8,
    pub number: &'a [u8],
}

/// The first word of a text without comments and blanks, and what stands behind it; None at the end.
pub fn first_word(text: &[u8]) -> Option<(Word<'_>, &[u8])>
    ensures words { MatchOption result (text.now ≡ []) (λ found. line_words text.now ≡ word_of found.0 ∷ line_words found.1.now) }
    ensures shorter { IfSome result (λ found. length found.1.now < length text.now) }
{
    let [letter, behind @ ..] = text else {
        return None;
    };
    let end = number_len(behind);
    let word = Word {
        letter: *letter,
        number: &behind[..end],
    };
    Some((word, &behind[end..]))
}

// How many characters of a number the text begins with.
fn number_len(text: &[u8]) -> usize
    ensures value { result ≡ prefix_len is_number_byte text.now }
    ensures within { result ≤ length text.now }
{
    text.iter().take_while(|byte| is_of_number(**byte)).count()
}

// Whether the byte is a sign, a point or a digit.
fn is_of_number(byte: u8) -> bool
    ensures { result ≡ is_number_byte byte }
{
    matches!(byte, b'+' | b'-' | b'.') || byte.is_ascii_digit()
}
