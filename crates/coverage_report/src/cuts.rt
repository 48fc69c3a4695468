// Which points of a lattice moves remove, as bits, row by row.
ghost use Rattle.std.specs.Prelude.{◌≡◌, ◌+◌, ◌*◌, ◌/◌, ◌^◌, ◌≤◌, length, pos, IfOk};
ghost use Rattle.integer_algebra.specs.Ranges.{IsUpTo};
ghost use Rattle.plane_exact.specs.Plane.{rational};
ghost use Rattle.engrave_model.specs.Removal.{Removes};
ghost use Rattle.evenodd_region.specs.RowBits.{is_between};
ghost use Rattle.coverage_report.specs.Cuts.{AreAdded, AreBelow, AreCutsOf, IsCut, IsFilled, IsRowCutBy};

use crate::lattice::Lattice;
use crate::row::Row;
use evenodd_region::ones_below;
use plane_exact::{Bit, LineMove, Move};
use std::alloc::{AllocError, Global};
use swept_move::{row_band, row_cut};

/// A bit for each point of a lattice, 1 where some move removes the point. The rows follow each other, each in as many words: bit
/// i % 64 of its word i / 64, the lowest first, is that of its point i. What the bits behind those of its points are isn't said.
#[derive(Drop)]
pub struct CutGrid {
    words: Vec<u64>,
    width: usize,
}

impl CutGrid {
    ghost use Rattle.std.specs.Prelude.{◌≡◌, ◌+◌, ◌*◌, ◌≤◌, length};
    ghost use Rattle.coverage_report.specs.Cuts.{row_words};

    /// The words of the row of this number, from 0, the lowest.
    pub fn row(&self, k: u32) -> &[u64]
        requires { ((k + 1) * self.now.width) ≤ length self.now.words.items }
        ensures { result.now ≡ row_words self.now.width k self.now.words.items }
    {
        let start = k as usize * self.width;
        &self.words[start..start + self.width]
    }
}

/// Which points of the lattice some moment of some move removes.
pub fn cuts_of(
    alloc: Global,
    lattice: &Lattice,
    bit: &Bit,
    moves: &[LineMove],
) -> Result<CutGrid, AllocError>
    ensures { IfOk result (λ cuts. AreCutsOf bit.now moves.now lattice.now cuts.width cuts.words.items) }
{
    let width = (lattice.columns() as usize + 63) / 64;
    let mut words = vec![in alloc; 0; lattice.rows() as usize * width]?;
    cut_moves(lattice, bit, moves, width, &mut words);
    Ok(CutGrid { words, width })
}

// Sets the bits of the points that some move removes. Each row has `width` words.
fn cut_moves(lattice: &Lattice, bit: &Bit, moves: &[LineMove], width: usize, words: &mut [u64])
    requires wide { width ≡ (lattice.now.columns + 63) / 64 }
    requires all { length words.old ≡ lattice.now.rows * width }
    ensures { AreAdded (IsCut bit.now moves.now) lattice.now width words.old words.new }
{
    for line_move in moves {
        cut_rows(lattice, bit, &line_move.mv, width, words);
    }
}

// Sets the bits of the points that the move removes, in the rows that it can reach.
fn cut_rows(lattice: &Lattice, bit: &Bit, mv: &Move, width: usize, words: &mut [u64])
    requires wide { width ≡ (lattice.now.columns + 63) / 64 }
    requires all { length words.old ≡ lattice.now.rows * width }
    ensures { AreAdded (λ p. Removes bit.now mv.now (rational p)) lattice.now width words.old words.new }
{
    if let Some((low, high)) = row_band(mv, bit) {
        let rows = lattice.rows();
        let first = lattice.row(0);
        let from = places_below(first.y, first.pitch, rows, i64::from(low));
        let end = places_below(first.y, first.pitch, rows, i64::from(high) + 1);
        for k in from..end {
            cut_points(&lattice.row(k), bit, mv, k as usize * width, words);
        }
    }
}

// Sets the bits of the row's points that the move removes; the first of these bits is that of the word `start`.
fn cut_points(row: &Row, bit: &Bit, mv: &Move, start: usize, words: &mut [u64])
    requires { (64 * start + row.now.count) ≤ 64 * length words.old }
    ensures { IsRowCutBy bit.now mv.now row.now start words.old words.new }
{
    let last = row.point(row.count - 1).x();
    if let Some((low, high)) = row_cut(mv, bit, row.y, row.x, last) {
        let from = places_below(row.x, row.pitch, row.count, i64::from(low));
        let end = places_below(row.x, row.pitch, row.count, i64::from(high) + 1);
        set_between(words, start, from, end);
    }
}

// How many of the places at this pitch, so many from the first on, are below the bound.
fn places_below(first: i32, pitch: u32, count: u32, bound: i64) -> u32
    requires apart { 1 ≤ pitch }
    requires near { IsUpTo (pos (2 ^ 32)) bound }
    ensures { AreBelow first pitch count bound result }
{
    let way = bound - i64::from(first);
    if way <= 0 {
        return 0;
    }
    let places = (way as u64 + u64::from(pitch) - 1) / u64::from(pitch);
    places.min(u64::from(count)) as u32
}

// Sets the bits from `from` to below `end` of those from the word `start` on.
fn set_between(words: &mut [u64], start: usize, from: u32, end: u32)
    requires { (64 * start + end) ≤ 64 * length words.old }
    ensures { IsFilled (is_between (64 * start + from) (64 * start + end)) words.old words.new }
{
    for word in from as usize / 64..(end as usize + 63) / 64 {
        words[start + word] |= ones_below(end, word) & !ones_below(from, word);
    }
}
