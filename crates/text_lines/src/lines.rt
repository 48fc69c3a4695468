// The lines of a text and the words of a line, each with its place.
ghost use Rattle.std.specs.Prelude.{◌≡◌, ◌<◌, ◌^◌, length};

use crate::pieces::{Piece, Pieces, Separator};
use std::marker::Model;

/// Gives the lines of a text in order. They end with a line feed, which the last one may lack; neither it nor a
/// carriage return before it, or at the end of the text, is part of the line.
#[derive(Debug, Drop)]
pub struct Lines<'a> {
    lines: Pieces<'a>,
}

impl<'a> Model for Lines<'a> {
    ghost use Rattle.std.specs.Prelude.{List, map};
    ghost use Rattle.text_lines.specs.Pieces.{Piece as TextPiece};
    ghost use Rattle.text_lines.specs.Cutting.{trimmed};

    ghost Value = { List TextPiece };

    ghost view = { λ s. map trimmed s.lines };
}

impl<'a> Lines<'a> {
    ghost use Rattle.text_lines.specs.Pieces.{lines_of};

    /// The lines of a text of fewer than 2^32 bytes.
    pub fn of(text: &'a [u8]) -> Lines<'a>
        requires { length text.now < 2 ^ 32 }
        ensures { result ≡ lines_of text.now }
    {
        Lines {
            lines: Pieces::of(text, Separator::Byte(b'\n')),
        }
    }
}

impl<'a> Iterator for Lines<'a> {
    ghost use Rattle.std.specs.Iterator.{YieldsFirstBy, item_count};
    ghost use Rattle.text_lines.specs.Cutting.{piece_of};

    type Item = Piece<'a>;

    ghost next_gives = { YieldsFirstBy piece_of (λ left. left) };

    ghost remaining = { item_count (λ left. left) };

    fn next(&mut self) -> Option<Piece<'a>> {
        Some(self.lines.next()?.trimmed())
    }
}

/// Gives the words of a line, between its blanks, in order.
#[derive(Debug, Drop)]
pub struct Words<'a> {
    pieces: Pieces<'a>,
}

impl<'a> Model for Words<'a> {
    ghost use Rattle.std.specs.Prelude.{List, filter};
    ghost use Rattle.text_lines.specs.Pieces.{Piece as TextPiece};
    ghost use Rattle.text_lines.specs.Cutting.{is_word};

    ghost Value = { List TextPiece };

    ghost view = { λ s. filter is_word s.pieces };
}

impl<'a> Words<'a> {
    ghost use Rattle.text_lines.specs.Cutting.{piece_of};
    ghost use Rattle.text_lines.specs.Pieces.{words_of};

    /// The words of a line.
    pub fn of(line: Piece<'a>) -> Words<'a>
        ensures { result ≡ words_of (piece_of line.entry) }
    {
        Words {
            pieces: Pieces::of_piece(line, Separator::Blank),
        }
    }
}

impl<'a> Iterator for Words<'a> {
    ghost use Rattle.std.specs.Iterator.{YieldsFirstBy, item_count};
    ghost use Rattle.text_lines.specs.Cutting.{piece_of};

    type Item = Piece<'a>;

    ghost next_gives = { YieldsFirstBy piece_of (λ left. left) };

    ghost remaining = { item_count (λ left. left) };

    fn next(&mut self) -> Option<Piece<'a>> {
        while let Some(piece) = self.pieces.next() {
            if !piece.bytes.is_empty() {
                return Some(piece);
            }
        }
        None
    }
}
