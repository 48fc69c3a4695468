// A font: its glyphs, in the order of the file.
ghost use Rattle.std.specs.Prelude.{◌≡◌, ◌==◌, None, Some, MatchOption, IfSome, map, option_map, true};
ghost use Rattle.std.specs.List.{find, list_all};
ghost use Rattle.cxf_font.specs.Elements.{is_element};
ghost use Rattle.cxf_font.specs.Fonts.{elements_of};
ghost use Rattle.cxf_font.specs.Glyphs.{glyph_of};

use crate::element::Element;
use crate::glyph::Glyph;
use std::marker::Model;

/// The glyphs of a font, each for one character. Of several glyphs of a character the first counts.
#[derive(Debug, Drop)]
pub struct Font {
    glyphs: Vec<Glyph>,
}

impl Model for Font {
    ghost use Rattle.std.specs.Prelude.{List, map, ℕ};
    ghost use Rattle.cxf_font.specs.Glyphs.{glyph_of};
    ghost use Rattle.cxf_font.specs.declared.element.Element.{Element};

    ghost Value = { List (ℕ × List Element) };

    ghost view = { λ f. map glyph_of f.glyphs.items };
}

impl Font {
    /// The font of these glyphs.
    pub(crate) fn of(glyphs: Vec<Glyph>) -> Font
        ensures { result ≡ map glyph_of glyphs.items }
    {
        Font { glyphs }
    }

    /// The elements of the character's glyph, or None where the font has none for it.
    pub fn elements(&self, key: u32) -> Option<&[Element]>
        ensures value { MatchOption result (elements_of self.now key ≡ None) (λ es. elements_of self.now key ≡ Some es.now) }
        ensures range { IfSome result (λ es. list_all is_element es.now ≡ true) }
    {
        let glyph = glyph_for(&self.glyphs, key)?;
        Some(&glyph.elements)
    }
}

// The first glyph of the character.
fn glyph_for(glyphs: &[Glyph], key: u32) -> Option<&Glyph>
    ensures { option_map (λ glyph. glyph.now) result ≡ find (λ glyph. glyph.key == key) glyphs.now }
{
    glyphs.iter().find(|glyph| glyph.key == key)
}
