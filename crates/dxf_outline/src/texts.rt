// The lines of a file without the blanks at their ends.
ghost use Rattle.std.specs.Prelude.{◌≡◌, ◌<◌, ◌^◌, ◌∷◌, [], MatchOption, length};
ghost use Rattle.dxf_outline.specs.Texts.{texts_of};

use std::marker::Model;
use text_lines::{Lines, without_blanks};

/// Gives the lines of a file in order, without the blanks at their ends. What stands behind the last line feed is a line only where
/// it has a byte.
#[derive(Drop)]
pub(crate) struct Texts<'a> {
    size: u32,
    lines: Lines<'a>,
}

impl<'a> Model for Texts<'a> {
    ghost use Rattle.std.specs.Prelude.{List, ℕ};
    ghost use Rattle.dxf_outline.specs.Texts.{texts_in};

    ghost Value = { List (List ℕ) };

    ghost view = { λ t. texts_in t.size t.lines };
}

impl<'a> Texts<'a> {
    /// The lines of a file of fewer than 2^32 bytes.
    pub(crate) fn of(bytes: &'a [u8]) -> Texts<'a>
        requires { length bytes.now < 2 ^ 32 }
        ensures { result ≡ texts_of bytes.now }
    {
        Texts {
            size: bytes.len() as u32,
            lines: Lines::of(bytes),
        }
    }

    /// The next line, or None where there is none.
    pub(crate) fn next(&mut self) -> Option<&'a [u8]>
        ensures { MatchOption result ((self.old ≡ []) × (self.new ≡ [])) (λ text. self.old ≡ text.now ∷ self.new) }
    {
        while let Some(line) = self.lines.next() {
            if line.at < self.size {
                return Some(without_blanks(line.bytes));
            }
        }
        None
    }
}
