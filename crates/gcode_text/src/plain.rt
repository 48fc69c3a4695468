// Plain lines, as nearly all are: words of capitals and short numbers, each with a space behind it or none, without comments. They are
// judged in one pass, with no copy of what stands outside comments.
ghost use Rattle.std.specs.Prelude.{◌≡◌, ◌<◌, ◌≤◌, false, true, length, Ok, IfSome};
ghost use Rattle.gcode_text.specs.Grammar.{empty_block, outside_comments};
ghost use Rattle.gcode_text.specs.Moves.{words_block};
ghost use Rattle.gcode_text.specs.Plain.{judge_text, starts_word};

use crate::block::Block;
use crate::judge::{is_letter, judged_number};
use grid_num::{Decimal, Units};

/// The block of a line that is plain and has no fault. None for any other line, which `line_block` judges byte by byte.
pub fn plain_block(units: Units, line: &[u8]) -> Option<Block>
    ensures { IfSome result (λ block. words_block units (outside_comments false line.now) ≡ Ok block) }
{
    let mut block = Block::empty();
    let mut rest = line;
    while !rest.is_empty() {
        let Some((next, behind)) = with_word(units, block, rest) else {
            return None;
        };
        block = next;
        rest = behind;
    }
    Some(block)
}

// The block with the word that the text begins with, and what stands behind that word.
#[inline(always)]
fn with_word(units: Units, block: Block, text: &[u8]) -> Option<(Block, &[u8])>
    ensures judged { IfSome result (λ next. judge_text units block (outside_comments false text.now) ≡ judge_text units next.0 (outside_comments false next.1.now)) }
    ensures shorter { IfSome result (λ next. length next.1.now < length text.now) }
{
    let [letter, behind @ ..] = text else {
        return None;
    };
    if !is_letter(*letter) {
        return None;
    }
    let (number, len) = Decimal::at_front(behind)?;
    let rest = without_space(&behind[len..]);
    if !starts_word(rest) {
        return None;
    }
    let Ok(next) = judged_number(units, block, *letter, &number) else {
        return None;
    };
    Some((next, rest))
}

// Without a space in front.
fn without_space(text: &[u8]) -> &[u8]
    ensures same { outside_comments false text.now ≡ outside_comments false result.now }
    ensures within { length result.now ≤ length text.now }
{
    match text {
        [b' ', rest @ ..] => rest,
        _ => text,
    }
}

// Whether the text ends here or begins with a capital, so that a number before it ends here.
fn starts_word(text: &[u8]) -> bool
    ensures { result ≡ starts_word text.now }
{
    match text {
        [] => true,
        [letter, ..] => letter.is_ascii_uppercase(),
    }
}
