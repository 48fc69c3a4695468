// Cuts a text at its separators into pieces, each with its place. No byte is looked at more than a few times.
ghost use Rattle.std.specs.Prelude.{◌≡◌, ◌+◌, ◌<◌, ◌^◌, ◌∷◌, IfSome, ◌≤◌, length};
ghost use Rattle.text_lines.specs.Pieces.{without_return};

use std::marker::Model;

/// What stands between two pieces of a text.
#[derive(Clone, Copy, Debug, PartialEq, Eq)]
pub enum Separator {
    /// This byte.
    Byte(u8),
    /// A space or a tab.
    Blank,
}

impl Separator {
    ghost use Rattle.std.specs.List.{position};
    ghost use Rattle.text_lines.specs.Cutting.{separates};

    /// Whether the byte separates.
    pub fn separates(self, byte: u8) -> bool
        ensures { result ≡ separates self byte }
    {
        match self {
            Separator::Byte(separator) => byte == separator,
            Separator::Blank => byte == b' ' || byte == b'\t',
        }
    }

    /// The place, from 0, of the first byte of the text that separates.
    pub fn first_in(self, text: &[u8]) -> Option<usize>
        ensures value { result ≡ position (separates self) text.now }
        ensures within { IfSome result (λ place. place < length text.now) }
    {
        text.iter().position(|byte| self.separates(*byte))
    }
}

/// Bytes of a text, and the place of the first of them in it, from 0.
#[derive(Clone, Copy, Debug)]
pub struct Piece<'a> {
    pub at: u32,
    pub bytes: &'a [u8],
    pub ghost fits: { at + length bytes.now < 2 ^ 32 },
}

impl<'a> Piece<'a> {
    ghost use Rattle.text_lines.specs.Cutting.{piece_of, pieces_left, separates, trimmed};
    ghost use Rattle.text_lines.specs.Pieces.{pieces};

    // What stands before the first separator, and what stands after it, if there is one.
    fn cut(self, separator: Separator) -> (Piece<'a>, Option<Piece<'a>>)
        ensures { pieces (separates separator) self.entry.at self.entry.bytes.now ≡ piece_of result.0 ∷ pieces_left separator result.1 }
    {
        let Some(end) = separator.first_in(self.bytes) else {
            return (self, None);
        };
        let first = Piece {
            at: self.at,
            bytes: &self.bytes[..end],
        };
        let rest = Piece {
            at: self.at + end as u32 + 1,
            bytes: &self.bytes[end + 1..],
        };
        (first, Some(rest))
    }

    // Without a carriage return at its very end.
    pub(crate) fn trimmed(self) -> Piece<'a>
        ensures { piece_of result ≡ trimmed (piece_of self.entry) }
    {
        Piece {
            at: self.at,
            bytes: without_return(self.bytes),
        }
    }
}

/// A line without the carriage return that may stand at its very end.
pub fn without_return(line: &[u8]) -> &[u8]
    ensures value { result.now ≡ without_return line.now }
    ensures within { length result.now ≤ length line.now }
{
    let Some((last, before)) = line.split_last() else {
        return line;
    };
    if *last == b'\r' { before } else { line }
}

/// Gives the pieces of a text between its separators, the first and the last among them, in order.
#[derive(Debug, Drop)]
pub struct Pieces<'a> {
    separator: Separator,
    rest: Option<Piece<'a>>,
}

impl<'a> Model for Pieces<'a> {
    ghost use Rattle.std.specs.Prelude.{List};
    ghost use Rattle.text_lines.specs.Pieces.{Piece as TextPiece};
    ghost use Rattle.text_lines.specs.Cutting.{pieces_left};

    ghost Value = { List TextPiece };

    ghost view = { λ s. pieces_left s.separator s.rest };
}

impl<'a> Pieces<'a> {
    ghost use Rattle.text_lines.specs.Cutting.{separates};
    ghost use Rattle.text_lines.specs.Pieces.{pieces};

    /// The pieces of a text of fewer than 2^32 bytes.
    pub fn of(text: &'a [u8], separator: Separator) -> Pieces<'a>
        requires { length text.now < 2 ^ 32 }
        ensures { result ≡ pieces (separates separator) 0 text.now }
    {
        Pieces::of_piece(Piece { at: 0, bytes: text }, separator)
    }

    /// The pieces of a piece, with their places in the text that it stands in.
    pub fn of_piece(piece: Piece<'a>, separator: Separator) -> Pieces<'a>
        ensures { result ≡ pieces (separates separator) piece.entry.at piece.entry.bytes.now }
    {
        Pieces {
            separator,
            rest: Some(piece),
        }
    }
}

impl<'a> Iterator for Pieces<'a> {
    ghost use Rattle.std.specs.Iterator.{YieldsFirstBy, item_count};
    ghost use Rattle.text_lines.specs.Cutting.{piece_of};

    type Item = Piece<'a>;

    ghost next_gives = { YieldsFirstBy piece_of (λ left. left) };

    ghost remaining = { item_count (λ left. left) };

    fn next(&mut self) -> Option<Piece<'a>> {
        let (first, rest) = self.rest?.cut(self.separator);
        self.rest = rest;
        Some(first)
    }
}
