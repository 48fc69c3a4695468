// The letters of a text, with their pens.
ghost use Rattle.std.specs.Prelude.{◌≡◌, ◌≤◌, IfOk, length, true};
ghost use Rattle.std.specs.List.{list_all};
ghost use Rattle.plane_exact.specs.Cone.{IsFromOneTo};
ghost use Rattle.cxf_font.specs.Elements.{is_element};
ghost use Rattle.cxf_font.specs.Layouts.{IsLayout};
ghost use Rattle.cxf_font.specs.Letters.{drawn_for, is_blank_character, letters_of, missing_glyph, width_from};

use crate::element::Element;
use crate::font::Font;
use crate::layout::Layout;
use crate::letter::{Letter, MOST_CHARACTERS, MOST_REACH};
use crate::reach::glyph_reach;
use arc_flatten::MOST_CHORD;
use std::alloc::{AllocError, Global};

/// The place of the first character that is no space and no line end, and has no glyph.
#[tactic(auto, unfolding(crate::specs::Letters::missing_glyph))]
pub(crate) fn missing_glyph(font: &Font, characters: &[char]) -> Option<u32>
    requires { length characters.now ≤ MOST_CHARACTERS }
    ensures { result ≡ missing_glyph font.now 0 characters.now }
{
    let mut place = 0u32;
    let mut rest = characters;
    while let Some((character, behind)) = rest.split_first() {
        if !is_blank(*character) && font.elements(u32::from(*character)).is_none() {
            return Some(place);
        }
        place += 1;
        rest = behind;
    }
    None
}

// Whether the character is a space or ends a line.
fn is_blank(character: char) -> bool
    ensures { result ≡ is_blank_character character }
{
    character == ' ' || character == '\n'
}

/// The letters of a text.
#[tactic(auto, unfolding(crate::specs::Letters::letters_of))]
pub(crate) fn letters(
    alloc: Global,
    font: &Font,
    layout: &Layout,
    chord: u32,
    characters: &[char],
) -> Result<Vec<Letter>, AllocError>
    requires text { length characters.now ≤ MOST_CHARACTERS }
    requires layout { IsLayout layout.now }
    requires chord { IsFromOneTo MOST_CHORD chord }
    ensures { IfOk result (λ letters. letters.items ≡ letters_of font.now layout.now chord 0 0 characters.now) }
{
    let mut letters = Vec::new(alloc);
    let mut line = 0u32;
    let mut pen = 0u64;
    let mut rest = characters;
    while let Some((character, behind)) = rest.split_first() {
        match *character {
            '\n' => {
                line += 1;
                pen = 0;
            }
            ' ' => pen += layout.word_gap(),
            _ => {
                let key = u32::from(*character);
                let reach = glyph_reach(alloc, layout, chord, pen, drawn_for(font, key))?;
                letters.push(Letter {
                    line,
                    key,
                    pen,
                    right: reach.right,
                })?;
                pen += reach.ahead + layout.char_gap();
            }
        }
        rest = behind;
    }
    Ok(letters)
}

/// The elements of a character's glyph; none where it has no glyph.
pub(crate) fn drawn_for(font: &Font, key: u32) -> &[Element]
    ensures value { result.now ≡ drawn_for font.now key }
    ensures range { list_all is_element result.now ≡ true }
{
    font.elements(key).unwrap_or(&[])
}

/// The greatest x of the letters of a line, or 0 where that is less.
#[tactic(auto, unfolding(crate::specs::Letters::width_from))]
pub(crate) fn width(line: u32, letters: &[Letter]) -> u64
    ensures value { result ≡ width_from line 0 letters.now }
    ensures range { result ≤ MOST_REACH }
{
    let mut most = 0;
    let mut rest = letters;
    while let Some((letter, behind)) = rest.split_first() {
        if letter.line == line {
            most = most.max(letter.right);
        }
        rest = behind;
    }
    most
}
