// Bitmaps: black and white pixels in rows.
ghost use Rattle.std.specs.Prelude.{◌≡◌};
ghost use Rattle.pbm_edges.specs.Pixels.{IsBitmap};
ghost use Rattle.pbm_edges.specs.Stored.{IsStored, black_of};

use crate::cells::{Cells, is_black};
use std::marker::Model;

/// The most pixels along a side of a bitmap.
pub const MOST_SIDE: u32 = 8191;

/// A bitmap, with 1 to 8191 pixels along each side.
#[derive(Debug, Drop)]
pub struct Bitmap {
    width: u32,
    height: u32,
    cells: Cells,
}

impl Model for Bitmap {
    ghost use Rattle.pbm_edges.specs.Pixels.{Pixels};
    ghost use Rattle.pbm_edges.specs.Stored.{IsStored, black_of};

    ghost Value = { Pixels };

    ghost view = { λ b. record { width = b.width; height = b.height; black = black_of b.width b.height b.cells } };

    ghost invariant = { λ b. IsStored b.width b.height b.cells };
}

impl Bitmap {
    ghost use Rattle.std.specs.Prelude.{◌<◌, IfSome};
    ghost use Rattle.pbm_edges.specs.Pixels.{is_black_at, is_black_in};
    ghost use Rattle.pbm_edges.specs.Same.{IsPackedOf};

    /// The bitmap with these sides and pixels.
    pub(crate) fn of(width: u32, height: u32, cells: Cells) -> Bitmap
        requires { IsStored width height cells }
        ensures { result ≡ record { width = width; height = height; black = black_of width height cells } }
    {
        Bitmap {
            width,
            height,
            cells,
        }
    }

    /// How many pixels a row has, from 1 to 8191.
    pub fn width(&self) -> u32
        ensures value { result ≡ self.now.width }
        ensures range { IsBitmap self.now }
    {
        self.width
    }

    /// How many rows there are, from 1 to 8191.
    pub fn height(&self) -> u32
        ensures value { result ≡ self.now.height }
        ensures range { IsBitmap self.now }
    {
        self.height
    }

    /// Whether the pixel of this column from the left and this row from the top, both from 0, is black.
    pub fn black(&self, col: u32, row: u32) -> bool
        requires col { col < self.now.width }
        requires row { row < self.now.height }
        ensures { result ≡ is_black_at self.now col row }
    {
        is_black(&self.cells, self.width, self.height, col, row)
    }

    /// The packed rows, where the image is kept so.
    pub(crate) fn packed(&self) -> Option<&[u8]>
        ensures { IfSome result (λ bytes. IsPackedOf self.now bytes.now) }
    {
        match &self.cells {
            Cells::Plain(_) => None,
            Cells::Packed(rows) => Some(rows),
        }
    }

    /// As `black` for columns and rows counted from 1. Beyond the image all is white.
    pub(crate) fn is_black_in(&self, x: u32, y: u32) -> bool
        ensures { result ≡ is_black_in self.now x y }
    {
        1 <= x && x <= self.width && 1 <= y && y <= self.height && self.black(x - 1, y - 1)
    }
}
