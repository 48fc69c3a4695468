// A letter of a text that is laid out.
use std::marker::Model;

/// The most characters of a text.
pub const MOST_CHARACTERS: usize = 200;

/// No pen and no line goes farther, in thousandths of a grid unit.
pub(crate) const MOST_REACH: u64 = 9_000_000_000_000_000;

/// A letter: where it stands, and how far it reaches.
#[derive(Clone, Copy)]
pub(crate) struct Letter {
    /// The number of its line, from 0.
    pub(crate) line: u32,
    pub(crate) key: u32,
    /// Where its pen stands, in thousandths of a grid unit.
    pub(crate) pen: u64,
    /// The greatest x of its points, or 0 where that is less.
    pub(crate) right: u64,
}

impl Model for Letter {
    ghost use Rattle.cxf_font.specs.Letters.{AreLetter, Letter};

    ghost Value = { Letter };

    ghost view = { λ letter. record { line = letter.line; key = letter.key; pen = letter.pen; right = letter.right } };

    ghost invariant = { λ letter. AreLetter letter.line letter.pen letter.right };

    ghost inverse = { λ letter. record { line = letter.line; key = letter.key; pen = letter.pen; right = letter.right } };
}
