// Traces the boundary between black and white, line by line.
ghost use Rattle.std.specs.Prelude.{◌≡◌, ◌≢◌, ◌+◌, ◌*◌, ◌<◌, ◌≤◌, ◌++◌, All, Err, IfErr, IfOk, Ok, OnOk, length, map};
ghost use Rattle.plane_exact.specs.Cone.{IsFromOneTo};
ghost use Rattle.pbm_edges.specs.Pixels.{IsBitmap};
ghost use Rattle.pbm_edges.specs.Same.{AreSteady};
ghost use Rattle.pbm_edges.specs.Boundary.{IsLineOf, IsWithinGrid, boundary_run, corner_at, edges_of_pixels, segment_of, segments_on, side_at, sides_along};

use crate::bitmap::Bitmap;
use crate::fault::FlatFault;
use crate::same::{end_of_same, steady_blocks};
use crate::side::{Line, Side, Stretch};
use plane_exact::{Point, Seg};
use std::alloc::Global;

/// The most segments of a bitmap.
pub const MOST_SEGMENTS: usize = 131_072;

/// The greatest coordinate that a corner may have.
pub const MOST_COORDINATE: u32 = 32_767;

/// The greatest size of a pixel, in grid units.
pub const MOST_PIXEL: u32 = 1000;

/// The segments of the boundary between black and white, where each pixel is a square of `pixel` grid units, from 1 to 1000, and the
/// lower left corner of the image is the origin. Each is as long as black lies on one and the same side of it: segments across go
/// right below black and left above it, those up go up on the right of black and down on its left. They come from the top, then from
/// the left.
#[tactic(auto, unfolding(crate::specs::Boundary::edges_of_pixels, crate::specs::Boundary::boundary_of))]
pub fn edges(alloc: Global, map: &Bitmap, pixel: u32) -> Result<Vec<Seg>, FlatFault>
    requires { IsFromOneTo MOST_PIXEL pixel }
    ensures value { IfOk result (λ segs. edges_of_pixels map.now pixel ≡ Ok segs.items) }
    ensures fault { IfErr result (λ f. f ≢ FlatFault.Memory → edges_of_pixels map.now pixel ≡ Err f) }
    ensures apart { IfOk result (λ segs. All (λ s. s.a ≢ s.b) segs.items) }
    ensures few { IfOk result (λ segs. length segs.items ≤ MOST_SEGMENTS) }
{
    if map.width() * pixel > MOST_COORDINATE || map.height() * pixel > MOST_COORDINATE {
        return Err(FlatFault::OutOfRange);
    }
    let steady = steady_blocks(alloc, map)?;
    let mut segs = Vec::new(alloc);
    for rows in 0..map.height() + 1 {
        add_line(map, &steady, pixel, Line::Across(rows), &mut segs)?;
    }
    for columns in 0..map.width() + 1 {
        add_line(map, &steady, pixel, Line::Up(columns), &mut segs)?;
    }
    Ok(segs)
}

// Appends the segments on a line.
fn add_line(
    image: &Bitmap,
    steady: &[bool],
    pixel: u32,
    line: Line,
    segs: &mut Vec<Seg>,
) -> Result<(), FlatFault>
    requires image { IsBitmap image.now }
    requires steady { AreSteady image.now steady.now }
    requires grid { IsWithinGrid image.now pixel }
    requires on { IsLineOf image.now line }
    requires few { length segs.old.items ≤ MOST_SEGMENTS }
    ensures grown { OnOk result (segs.new.items ≡ segs.old.items ++ segments_on image.now pixel line) }
    ensures few { OnOk result (length segs.new.items ≤ MOST_SEGMENTS) }
    ensures fault { IfErr result (λ f. f ≢ FlatFault.Memory → (f ≡ FlatFault.TooMany) × (MOST_SEGMENTS < length (segs.old.items ++ segments_on image.now pixel line))) }
{
    let count = sides_along(image, line);
    let mut side = Side::Level;
    let mut first = 0;
    let mut i = 0;
    while i < count {
        let next = side_at(image, line, i);
        if !side.is_same(next) {
            let run = Stretch {
                first,
                until: i,
                side,
            };
            add_run(image, pixel, line, run, segs)?;
            side = next;
            first = i;
        }
        i = end_of_same(image, steady, line, i, next);
    }
    let run = Stretch {
        first,
        until: count,
        side,
    };
    add_run(image, pixel, line, run, segs)
}

// Appends the segment of a stretch, where it is one of the boundary.
fn add_run(
    image: &Bitmap,
    pixel: u32,
    line: Line,
    run: Stretch,
    segs: &mut Vec<Seg>,
) -> Result<(), FlatFault>
    requires grid { IsWithinGrid image.now pixel }
    requires on { IsLineOf image.now line }
    requires ends { run.first ≤ run.until }
    requires within { run.until ≤ sides_along image.now line }
    requires few { length segs.old.items ≤ MOST_SEGMENTS }
    ensures grown { OnOk result (segs.new.items ≡ segs.old.items ++ map (segment_of image.now pixel line) (boundary_run run)) }
    ensures few { OnOk result (length segs.new.items ≤ MOST_SEGMENTS) }
    ensures fault { IfErr result (λ f. f ≢ FlatFault.Memory → (f ≡ FlatFault.TooMany) × (MOST_SEGMENTS < length (segs.old.items ++ map (segment_of image.now pixel line) (boundary_run run)))) }
{
    if let Side::Level = run.side {
        return Ok(());
    }
    if segs.len() == MOST_SEGMENTS {
        return Err(FlatFault::TooMany);
    }
    segs.push(segment(image, pixel, line, run))?;
    Ok(())
}

// The segment of a stretch on a line.
fn segment(image: &Bitmap, pixel: u32, line: Line, run: Stretch) -> Seg
    requires grid { IsWithinGrid image.now pixel }
    requires on { IsLineOf image.now line }
    requires ends { run.first ≤ run.until }
    requires within { run.until ≤ sides_along image.now line }
    ensures { result ≡ segment_of image.now pixel line run }
{
    let (first, last) = match line {
        Line::Across(rows) => {
            let y = (image.height() - rows) * pixel;
            (corner(run.first * pixel, y), corner(run.until * pixel, y))
        }
        Line::Up(columns) => {
            let x = columns * pixel;
            (corner(x, run.first * pixel), corner(x, run.until * pixel))
        }
    };
    match run.side {
        Side::Back => Seg { a: last, b: first },
        Side::Level | Side::Onward => Seg { a: first, b: last },
    }
}

// A corner of pixels.
fn corner(x: u32, y: u32) -> Point
    requires x { x ≤ MOST_COORDINATE }
    requires y { y ≤ MOST_COORDINATE }
    ensures { result ≡ corner_at x y }
{
    Point::new(x as i64, y as i64).unwrap()
}

// How many sides of pixels a line has.
fn sides_along(image: &Bitmap, line: Line) -> u32
    ensures { result ≡ sides_along image.now line }
{
    match line {
        Line::Across(_) => image.width(),
        Line::Up(_) => image.height(),
    }
}

// The side that begins so far along a line.
fn side_at(image: &Bitmap, line: Line, i: u32) -> Side
    requires image { IsBitmap image.now }
    requires on { IsLineOf image.now line }
    requires within { i < sides_along image.now line }
    ensures { result ≡ side_at image.now line i }
{
    match line {
        Line::Across(rows) => Side::between(
            image.is_black_in(i + 1, rows),
            image.is_black_in(i + 1, rows + 1),
        ),
        Line::Up(columns) => {
            let row = image.height() - i;
            Side::between(
                image.is_black_in(columns, row),
                image.is_black_in(columns + 1, row),
            )
        }
    }
}
