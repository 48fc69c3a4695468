// How far the boundary goes on the same along a line, byte by byte: so what has no boundary costs a step a byte.
ghost use Rattle.std.specs.Prelude.{◌≡◌, ◌+◌, ◌-◌, ◌*◌, ◌/◌, ◌<◌, ◌≤◌, ℕ, IfOk, IsTrue, length, slice_index};
ghost use Rattle.pbm_edges.specs.Boundary.{IsLineOf, side_at, side_of, sides_along};
ghost use Rattle.pbm_edges.specs.Packed.{row_bytes};
ghost use Rattle.pbm_edges.specs.Pixels.{IsBitmap, is_black_in};
ghost use Rattle.pbm_edges.specs.Same.{AreSteady, IsPackedOf, IsSteady, pixel_of};

use crate::bitmap::Bitmap;
use crate::cells::row_bytes;
use crate::side::{Line, Side};
use std::alloc::{AllocError, Global};

// The end of the sides from `i` on that are the same as the one there, or of some of them.
pub(crate) fn end_of_same(image: &Bitmap, steady: &[bool], line: Line, i: u32, side: Side) -> u32
    requires image { IsBitmap image.now }
    requires steady { AreSteady image.now steady.now }
    requires on { IsLineOf image.now line }
    requires place { i < sides_along image.now line }
    requires side { side ≡ side_at image.now line i }
    ensures later { i < result }
    ensures within { result ≤ sides_along image.now line }
    ensures same { (j : ℕ) → i ≤ j → j < result → side_at image.now line j ≡ side }
{
    match (line, image.packed()) {
        (Line::Across(rows), Some(bytes)) => end_across(image, bytes, rows, i, side),
        (Line::Up(columns), Some(_)) => end_up(image, steady, columns, i),
        (_, None) => i + 1,
    }
}

// The same on a line across: as far as whole bytes above and below it part the pixels in one way.
fn end_across(image: &Bitmap, bytes: &[u8], rows: u32, i: u32, side: Side) -> u32
    requires image { IsBitmap image.now }
    requires bytes { IsPackedOf image.now bytes.now }
    requires on { rows ≤ image.now.height }
    requires place { i < image.now.width }
    requires side { side ≡ side_at image.now (Line.Across rows) i }
    ensures later { i < result }
    ensures within { result ≤ image.now.width }
    ensures same { (j : ℕ) → i ≤ j → j < result → side_at image.now (Line.Across rows) j ≡ side }
{
    if i % 8 != 0 {
        return i + 1;
    }
    let mut b = i / 8;
    while 8 * b + 8 <= image.width()
        && parts_alike(
            byte_at(image, bytes, b, rows),
            byte_at(image, bytes, b, rows + 1),
            side,
        )
    {
        b += 1;
    }
    (i + 1).max(8 * b)
}

// The byte that has eight pixels of a row, which is counted from 1; beyond the image all is white.
fn byte_at(image: &Bitmap, bytes: &[u8], b: u32, row: u32) -> u8
    requires image { IsBitmap image.now }
    requires bytes { IsPackedOf image.now bytes.now }
    requires within { 8 * b + 8 ≤ image.now.width }
    ensures { (i : ℕ) → i < 8 → is_black_in image.now (8 * b + i + 1) row ≡ pixel_of result i }
{
    if 1 <= row && row <= image.height() {
        bytes[(row as usize - 1) * row_bytes(image.width()) + b as usize]
    } else {
        0
    }
}

// Whether each of the eight sides between a byte and the one below it is this one; where it says no, they may be.
fn parts_alike(above: u8, below: u8, side: Side) -> bool
    ensures { IsTrue result → (i : ℕ) → i < 8 → side_of (pixel_of above i) (pixel_of below i) ≡ side }
{
    match side {
        Side::Level => above == below,
        Side::Onward => above == 255 && below == 0,
        Side::Back => above == 0 && below == 255,
    }
}

// The same on a line up: as far as the rows are the same in the columns beside it, eight at a time.
fn end_up(image: &Bitmap, steady: &[bool], columns: u32, i: u32) -> u32
    requires image { IsBitmap image.now }
    requires steady { AreSteady image.now steady.now }
    requires on { columns ≤ image.now.width }
    requires place { i < image.now.height }
    ensures later { i < result }
    ensures within { result ≤ image.now.height }
    ensures same { (j : ℕ) → i ≤ j → j < result → side_at image.now (Line.Up columns) j ≡ side_at image.now (Line.Up columns) i }
{
    let y = image.height() - i;
    if y % 8 != 1 {
        return i + 1;
    }
    let mut block = y / 8;
    while block > 0
        && is_column_steady(image, steady, block - 1, columns)
        && is_column_steady(image, steady, block - 1, columns + 1)
    {
        block -= 1;
    }
    image.height() - 8 * block
}

// Whether the column, counted from 1, is the same in the nine rows of a block; where it says no, it may be. Beyond the image it is.
fn is_column_steady(image: &Bitmap, steady: &[bool], block: u32, column: u32) -> bool
    requires image { IsBitmap image.now }
    requires steady { AreSteady image.now steady.now }
    requires range { block ≤ 1023 }
    ensures { IsTrue result → (y : ℕ) → 8 * block + 1 ≤ y → y ≤ 8 * block + 9 → is_black_in image.now column y ≡ is_black_in image.now column (8 * block + 1) }
{
    if column < 1 || column > image.width() {
        return true;
    }
    let place = block as usize * row_bytes(image.width()) + (column as usize - 1) / 8;
    place < steady.len() && steady[place]
}

/// Where nine rows in a row are the same, byte by byte of each eighth row from the top. Nothing is known of an image that isn't packed.
pub(crate) fn steady_blocks(alloc: Global, image: &Bitmap) -> Result<Vec<bool>, AllocError>
    requires { IsBitmap image.now }
    ensures { IfOk result (λ flags. AreSteady image.now flags.items) }
{
    let mut flags = Vec::new(alloc);
    let Some(bytes) = image.packed() else {
        return Ok(flags);
    };
    let width = row_bytes(image.width());
    let blocks = (image.height() as usize - 1) / 8;
    for place in 0..blocks * width {
        flags.push(is_steady(bytes, width, place / width, place % width))?;
    }
    Ok(flags)
}

// Whether the byte `b` of a row is the same in nine rows from `8 * block` on, where a row has so many bytes.
fn is_steady(bytes: &[u8], width: usize, block: usize, b: usize) -> bool
    requires byte { b < width }
    requires narrow { width ≤ 1024 }
    requires low { block ≤ 1023 }
    requires rows { (8 * block + 8) * width + width ≤ length bytes.now }
    ensures { IsTrue result → (d : ℕ) → d ≤ 8 → slice_index bytes.now ((8 * block + d) * width + b) ≡ slice_index bytes.now (8 * block * width + b) }
{
    let byte = bytes[8 * block * width + b];
    for d in 1..9 {
        if bytes[(8 * block + d) * width + b] != byte {
            return false;
        }
    }
    true
}
