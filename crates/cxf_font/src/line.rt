// What a line of a font says.
ghost use Rattle.std.specs.Prelude.{◌≡◌, ◌≢◌, ◌<◌, ◌^◌, IfErr, IfOk, length, true};
ghost use Rattle.cxf_font.specs.Elements.{is_element};
ghost use Rattle.cxf_font.specs.Lines.{element_of, font_line};
ghost use Rattle.cxf_font.specs.State.{is_sound};

use crate::element::Element;
use crate::fault::CxfKind;
use crate::fields::{read_arc, read_straight};
use crate::key::read_key;
use text_lines::{Separator, without_blanks};

/// What a line of a font says.
#[derive(Clone, Copy)]
pub(crate) enum FontLine {
    /// Nothing.
    Skipped,
    /// The glyph of the character with this number begins.
    Begins(u32),
    /// An element of the glyph that has begun.
    Draws(Element),
}

/// What a line says, where a glyph has begun before it or none has.
pub(crate) fn read_line(has_begun: bool, line: &[u8]) -> Result<FontLine, CxfKind>
    requires { length line.now < 2 ^ 32 }
    ensures value { result ≡ font_line has_begun line.now }
    ensures range { IfOk result (λ line. is_sound line ≡ true) }
    ensures kind { IfErr result (λ kind. kind ≢ CxfKind.Memory) }
{
    match without_blanks(line) {
        [] | [b'#', ..] => Ok(FontLine::Skipped),
        [b'[', rest @ ..] => Ok(FontLine::Begins(read_key(rest)?)),
        text if has_begun => Ok(FontLine::Draws(read_element(text)?)),
        _ => Ok(FontLine::Skipped),
    }
}

// The element of a line: a letter, a blank and fields.
#[tactic(auto, unfolding(crate::specs::Lines::element_of))]
fn read_element(text: &[u8]) -> Result<Element, CxfKind>
    requires { length text.now < 2 ^ 32 }
    ensures value { result ≡ element_of text.now }
    ensures range { IfOk result (λ element. is_element element ≡ true) }
    ensures kind { IfErr result (λ kind. kind ≢ CxfKind.Memory) }
{
    let Some(blank) = Separator::Blank.first_in(text) else {
        return Err(CxfKind::Syntax);
    };
    let fields = &text[blank..];
    match &text[..blank] {
        b"L" => read_straight(fields),
        b"A" => read_arc(false, fields),
        b"AR" => read_arc(true, fields),
        _ => Err(CxfKind::Syntax),
    }
}
