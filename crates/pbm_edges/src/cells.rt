// Pixels as a file writes them.
ghost use Rattle.std.specs.Prelude.{◌≡◌, ◌+◌, ◌*◌, ◌<◌, ◌≤◌, false, length, slice_index_or};
ghost use Rattle.pbm_edges.specs.Packed.{packed_pixel, row_bytes};
ghost use Rattle.pbm_edges.specs.Stored.{IsFull, black_of};
ghost use Rattle.pbm_edges.specs.declared.bitmap.TheConstants.{MOST_SIDE};

/// Which pixels are black, row by row from the top.
#[derive(Debug, Drop)]
pub(crate) enum Cells {
    /// One value for each pixel.
    Plain(Vec<bool>),
    /// Eight pixels to a byte, the highest bit first. Each row begins with a byte of its own.
    Packed(Vec<u8>),
}

/// Whether the pixel of this column and row is black, in an image with these sides.
pub(crate) fn is_black(cells: &Cells, width: u32, height: u32, col: u32, row: u32) -> bool
    requires wide { width ≤ MOST_SIDE }
    requires high { height ≤ MOST_SIDE }
    requires full { IsFull width height cells.now }
    requires col { col < width }
    requires row { row < height }
    ensures { result ≡ slice_index_or (black_of width height cells.now) (row * width + col) false }
{
    match cells {
        Cells::Plain(pixels) => pixels[row as usize * width as usize + col as usize],
        Cells::Packed(rows) => is_packed_black(rows, width, col, row),
    }
}

// The same for packed rows.
fn is_packed_black(rows: &[u8], width: u32, col: u32, row: u32) -> bool
    requires wide { width ≤ MOST_SIDE }
    requires high { row < MOST_SIDE }
    requires col { col < width }
    requires full { row * row_bytes width + row_bytes width ≤ length rows.now }
    ensures { result ≡ packed_pixel rows.now (row * row_bytes width) col }
{
    let byte = rows[row as usize * row_bytes(width) + col as usize / 8];
    (byte >> (7 - col % 8)) % 2 == 1
}

/// How many bytes a row of packed pixels has.
pub(crate) fn row_bytes(width: u32) -> usize
    requires { width ≤ MOST_SIDE }
    ensures { result ≡ row_bytes width }
{
    (width as usize + 7) / 8
}
