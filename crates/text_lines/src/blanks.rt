// Texts without the blanks at their ends.
ghost use Rattle.std.specs.Prelude.{◌≡◌, ◌≤◌, length};
ghost use Rattle.text_lines.specs.Blanks.{unpadded, without_back, without_front};

use crate::pieces::Separator;

/// The text without the spaces and tabs at its ends.
pub fn without_blanks(text: &[u8]) -> &[u8]
    ensures value { result.now ≡ unpadded text.now }
    ensures within { length result.now ≤ length text.now }
{
    without_blanks_behind(without_blanks_before(text))
}

fn without_blanks_before(text: &[u8]) -> &[u8]
    ensures value { result.now ≡ without_front text.now }
    ensures within { length result.now ≤ length text.now }
{
    let mut text = text;
    while let [b' ' | b'\t', rest @ ..] = text {
        text = rest;
    }
    text
}

fn without_blanks_behind(text: &[u8]) -> &[u8]
    ensures value { result.now ≡ without_back text.now }
    ensures within { length result.now ≤ length text.now }
{
    let mut text = text;
    while let Some((last, before)) = text.split_last() {
        if !Separator::Blank.separates(*last) {
            return text;
        }
        text = before;
    }
    text
}
