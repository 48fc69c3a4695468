// What is drawn for one character.
ghost use Rattle.std.specs.Prelude.{◌≡◌, true};
ghost use Rattle.std.specs.List.{list_all};
ghost use Rattle.cxf_font.specs.Elements.{is_element};

use crate::element::Element;

/// A character and the elements of its glyph, whose numbers are in their ranges.
#[derive(Debug, Drop)]
pub(crate) struct Glyph {
    pub(crate) key: u32,
    pub(crate) elements: Vec<Element>,
    ghost within: { list_all is_element elements.items ≡ true },
}
