//! Stroke fonts from CXF files: the lines and arcs of each character's glyph; and texts laid out in them.
//!
//! Its promise is in the clauses `value` and `fault` of `read_font`: exactly the glyphs of the file, or its first fault with its
//! line; and in those of `Font::elements`: the first glyph of a character, with its numbers in their ranges; and in the clauses
//! `value` and `fault` of `lay`: exactly the segments of the text by the rules in `specs/`, or what keeps it from being laid out. That
//! each Unicode character in brackets is the key of its line is `key_law`.
#![tactic(auto)]

mod drawing;
mod element;
mod fault;
mod fields;
mod font;
mod glyph;
mod key;
mod law;
mod lay_fault;
mod laying;
mod layout;
mod letter;
mod letters;
mod line;
mod reach;
mod reader;
mod reading;
mod spot;
mod strokes;
mod wide;

pub use drawing::MOST_LETTERING;
pub use element::{Element, MOST_ANGLE, MOST_LENGTH};
pub use fault::{CxfFault, CxfKind};
pub use font::Font;
pub use law::key_law;
pub use lay_fault::LayFault;
pub use laying::lay;
pub use layout::{Justify, LEAST_PERCENT, Layout, MOST_HEIGHT, MOST_PERCENT};
pub use letter::MOST_CHARACTERS;
pub use reader::{MOST_FONT_BYTES, read_font};
