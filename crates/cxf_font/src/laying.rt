// Lays out a text in a font.
ghost use Rattle.std.specs.Prelude.{◌≡◌, ◌≢◌, ◌≤◌, ◌++◌, ◌∷◌, Err, IfErr, IfOk, List, Ok, OnOk, chars, length, map, true};
ghost use Rattle.std.specs.List.{list_all};
ghost use Rattle.plane_exact.specs.Cone.{IsFromOneTo};
ghost use Rattle.arc_flatten.specs.Points.{FinePoint};
ghost use Rattle.cxf_font.specs.Drawn.{drawn_on};
ghost use Rattle.cxf_font.specs.Elements.{is_element};
ghost use Rattle.cxf_font.specs.Lay.{lay_of, letter_strokes, segments_of_letters};
ghost use Rattle.cxf_font.specs.Layouts.{IsLayout};
ghost use Rattle.cxf_font.specs.Letters.{spot_of};
ghost use Rattle.cxf_font.specs.Placing.{points_of};

use crate::drawing::{Drawing, MOST_LETTERING};
use crate::element::Element;
use crate::font::Font;
use crate::lay_fault::LayFault;
use crate::layout::Layout;
use crate::letter::{Letter, MOST_CHARACTERS, MOST_REACH};
use crate::letters::{drawn_for, letters, missing_glyph, width};
use crate::spot::settled;
use crate::strokes::points;
use arc_flatten::MOST_CHORD;
use plane_exact::Seg;
use std::alloc::{AllocError, Global};

/// The segments of a text of at most `MOST_CHARACTERS` characters, laid out in a font, with the pieces of an arc no wider than
/// `chord` degrees, from 1 to 90. A line of the text ends at a U+000A, and a space needs no glyph. The faults are, in this order, a
/// character with no glyph, a point out of range, and too many segments.
#[tactic(auto, unfolding(crate::specs::Lay::lay_of))]
pub fn lay(
    alloc: Global,
    font: &Font,
    text: &str,
    layout: &Layout,
    chord: u32,
) -> Result<Vec<Seg>, LayFault>
    requires text { length (chars text.now) ≤ MOST_CHARACTERS }
    requires layout { IsLayout layout.now }
    requires chord { IsFromOneTo MOST_CHORD chord }
    ensures value { IfOk result (λ segs. lay_of font.now text.now layout.now chord ≡ Ok segs.items) }
    ensures fault { IfErr result (λ f. f ≢ LayFault.Memory → lay_of font.now text.now layout.now chord ≡ Err f) }
    ensures few { IfOk result (λ segs. length segs.items ≤ MOST_LETTERING) }
{
    let characters = characters(alloc, text)?;
    if let Some(place) = missing_glyph(font, &characters) {
        return Err(LayFault::NoGlyph(place));
    }
    let letters = letters(alloc, font, layout, chord, &characters)?;
    draw_letters(alloc, font, layout, chord, &letters)
}

fn characters(alloc: Global, text: &str) -> Result<Vec<char>, AllocError>
    ensures { IfOk result (λ characters. characters.items ≡ chars text.now) }
{
    text.chars().collect(alloc)
}

// The segments of letters.
#[tactic(auto, unfolding(crate::specs::Lay::all_segments, crate::specs::Lay::strokes_of))]
fn draw_letters(
    alloc: Global,
    font: &Font,
    layout: &Layout,
    chord: u32,
    letters: &[Letter],
) -> Result<Vec<Seg>, LayFault>
    requires layout { IsLayout layout.now }
    requires chord { IsFromOneTo MOST_CHORD chord }
    ensures value { IfOk result (λ segs. segments_of_letters font.now layout.now chord letters.now ≡ Ok segs.items) }
    ensures fault { IfErr result (λ f. f ≢ LayFault.Memory → segments_of_letters font.now layout.now chord letters.now ≡ Err f) }
    ensures few { IfOk result (λ segs. length segs.items ≤ MOST_LETTERING) }
{
    let mut drawing = Drawing::begin(alloc);
    let mut rest = letters;
    while let Some((letter, later)) = rest.split_first() {
        let shift = layout.justify.shift(width(letter.line, letters));
        draw_letter(alloc, font, layout, chord, *letter, shift, &mut drawing)?;
        rest = later;
    }
    drawing.finish()
}

// Draws the elements of a letter.
#[tactic(auto, unfolding(crate::specs::Lay::all_segments))]
fn draw_letter(
    alloc: Global,
    font: &Font,
    layout: &Layout,
    chord: u32,
    letter: Letter,
    shift: u64,
    drawing: &mut Drawing,
) -> Result<(), LayFault>
    requires layout { IsLayout layout.now }
    requires chord { IsFromOneTo MOST_CHORD chord }
    requires shift { shift ≤ MOST_REACH }
    ensures drawn { OnOk result ((strokes : List (List FinePoint)) → drawn_on drawing.new strokes ≡ drawn_on drawing.old (letter_strokes font.now layout.now chord shift letter ++ strokes)) }
    ensures fault { IfErr result (λ f. f ≢ LayFault.Memory → (strokes : List (List FinePoint)) → drawn_on drawing.old (letter_strokes font.now layout.now chord shift letter ++ strokes) ≡ Err f) }
{
    let mut rest = drawn_for(font, letter.key);
    while let Some((element, others)) = rest.split_first() {
        draw_element(alloc, layout, chord, letter, shift, *element, drawing)?;
        rest = others;
    }
    Ok(())
}

// Draws an element of a letter.
#[tactic(auto, unfolding(crate::specs::Lay::all_segments))]
fn draw_element(
    alloc: Global,
    layout: &Layout,
    chord: u32,
    letter: Letter,
    shift: u64,
    element: Element,
    drawing: &mut Drawing,
) -> Result<(), LayFault>
    requires layout { IsLayout layout.now }
    requires chord { IsFromOneTo MOST_CHORD chord }
    requires shift { shift ≤ MOST_REACH }
    requires element { is_element element ≡ true }
    ensures drawn { OnOk result ((strokes : List (List FinePoint)) → drawn_on drawing.new strokes ≡ drawn_on drawing.old (map (spot_of layout.now letter shift) (points_of chord element) ∷ strokes)) }
    ensures fault { IfErr result (λ f. f ≢ LayFault.Memory → (strokes : List (List FinePoint)) → drawn_on drawing.old (map (spot_of layout.now letter shift) (points_of chord element) ∷ strokes) ≡ Err f) }
{
    let points = points(alloc, chord, element)?;
    match settled(alloc, layout, letter, shift, &points)? {
        Some(spots) => drawing.draw(&spots),
        None => Err(LayFault::OutOfRange),
    }
}
