// Points that are kept, in the order in which they came, each found by the square of the grid that it lies in.
//
// The squares have the side tolerance + 1. So two points of one square are near each other, and no two kept points lie in one;
// and what is near a point lies in its square or in one of the eight around it.
ghost use Rattle.std.specs.Prelude.{◌≡◌, ◌≢◌, ◌⊎◌, ◌+◌, ◌<◌, ◌≤◌, ℕ, [], Some, false, IfOk, IfSome, OnErr, OnOk, length};
ghost use Rattle.plane_exact.specs.Plane.{IsCoordinate, IsOnGrid};
ghost use Rattle.loop_join.specs.Cells.{cell_number, cell_of, strip_of};
ghost use Rattle.loop_join.specs.Snap.{is_near};

use plane_exact::Point;
use std::alloc::{AllocError, Global};
use std::collections::BTreeMap;
use std::marker::Model;

// The least coordinate.
const LEAST: i32 = -32_768;

// The rows of squares, and one beside them on each side.
const ROWS: u64 = 65_538;

/// The points that are kept, and how near to one of them another is no point of its own.
#[derive(Drop)]
pub struct Kept {
    tolerance: u32,
    points: Vec<Point>,
    // For the number of a square the number of the point that lies in it.
    cells: BTreeMap<u64, usize>,
}

impl Model for Kept {
    ghost use Rattle.loop_join.specs.Keeping.{AreIndexed, KeptPoints};

    ghost Value = { KeptPoints };

    ghost view = { λ k. record { tolerance = k.tolerance; points = k.points.items } };

    ghost invariant = { λ k. AreIndexed k.tolerance k.points.items k.cells };
}

impl Kept {
    ghost use Rattle.std.specs.Prelude.{None, Option};
    ghost use Rattle.loop_join.specs.Keeping.{AtMost, IsEarliest, IsLeastOfColumn, IsNearAt};
    ghost use Rattle.loop_join.specs.Snap.{earliest_near, keep, snapped};

    /// No points, where points are near each other that differ by at most the tolerance in each coordinate.
    pub fn none(alloc: Global, tolerance: u32) -> Kept
        ensures { result ≡ record { tolerance = tolerance; points = [] } }
    {
        Kept {
            tolerance,
            points: Vec::new(alloc),
            cells: BTreeMap::new(alloc),
        }
    }

    /// What the point becomes: the earliest kept point near it, or itself, which is then kept. Where memory runs out, the points are
    /// as before.
    pub fn place(&mut self, p: Point) -> Result<Point, AllocError>
        ensures value { IfOk result (λ q. q ≡ snapped self.old.tolerance self.old.points p) }
        ensures kept { OnOk result (self.new ≡ record { tolerance = self.old.tolerance; points = keep self.old.tolerance self.old.points p }) }
        ensures unchanged { OnErr result (self.new ≡ self.old) }
    {
        if let Some(near) = self.first_near(p) {
            return Ok(near);
        }
        self.points.reserve(1)?;
        let number = self.points.len();
        let _ = self.cells.insert(cell_of(p, self.tolerance), number)?;
        self.points.push_reserved(p);
        Ok(p)
    }

    // The earliest kept point near `p`.
    fn first_near(&self, p: Point) -> Option<Point>
        ensures { result ≡ earliest_near self.now.tolerance self.now.points p }
    {
        Some(self.points[self.first_number(p)?])
    }

    // Its number.
    fn first_number(&self, p: Point) -> Option<usize>
        ensures { IsEarliest self.now.tolerance self.now.points p result }
    {
        let (column, row) = square_of(p, self.tolerance);
        let left = self.first_in_column(None, p, column - 1, row);
        let middle = self.first_in_column(left, p, column, row);
        self.first_in_column(middle, p, column + 1, row)
    }

    // The least of the given number and those of the kept points near `p` in the column, in the row or beside it.
    fn first_in_column(
        &self,
        least: Option<usize>,
        p: Point,
        column: u64,
        row: u64,
    ) -> Option<usize>
        requires column { column ≤ 65537 }
        requires low { 1 ≤ row }
        requires high { row ≤ 65536 }
        ensures keeps { (k : ℕ) → AtMost least k → AtMost result k }
        ensures least { IsLeastOfColumn self.now.tolerance self.now.points p column row result }
        ensures found { (result ≡ least) ⊎ IfSome result (λ k. IsNearAt self.now.tolerance self.now.points p k) }
    {
        let mut first = least;
        let from = cell_number(column, row - 1);
        let to = cell_number(column, row + 1);
        for (_, number) in self.cells.range(from..=to) {
            first = self.lesser_near(first, *number, p);
        }
        first
    }

    // The number where it is below the least so far and its point is near `p`; else the least so far.
    fn lesser_near(&self, least: Option<usize>, number: usize, p: Point) -> Option<usize>
        requires { number < length self.now.points }
        ensures keeps { (k : ℕ) → AtMost least k → AtMost result k }
        ensures judged { IsNearAt self.now.tolerance self.now.points p number → AtMost result number }
        ensures found { (result ≡ least) ⊎ ((result ≡ Some number) × IsNearAt self.now.tolerance self.now.points p number) }
    {
        if !is_near(p, self.points[number], self.tolerance) {
            return least;
        }
        match least {
            Some(before) if before <= number => least,
            _ => Some(number),
        }
    }
}

// The number of the square that the point lies in.
fn cell_of(p: Point, tolerance: u32) -> u64
    ensures value { result ≡ cell_of tolerance p }
    ensures on_grid { IsOnGrid p.x p.y }
{
    let (column, row) = square_of(p, tolerance);
    cell_number(column, row)
}

// The column and the row of that square, each from 1.
fn square_of(p: Point, tolerance: u32) -> (u64, u64)
    ensures column { result.0 ≡ strip_of tolerance p.x }
    ensures row { result.1 ≡ strip_of tolerance p.y }
    ensures low { (1 ≤ result.0) × (1 ≤ result.1) }
    ensures high { (result.0 ≤ 65536) × (result.1 ≤ 65536) }
    ensures on_grid { IsOnGrid p.x p.y }
{
    (strip_of(p.x(), tolerance), strip_of(p.y(), tolerance))
}

// The number of the square in the column and the row, as they are numbered column by column.
fn cell_number(column: u64, row: u64) -> u64
    requires column { column ≤ 65537 }
    requires row { row ≤ 65537 }
    ensures { result ≡ cell_number column row }
{
    column * ROWS + row
}

// The number of the strip that the coordinate lies in, from 1.
fn strip_of(z: i32, tolerance: u32) -> u64
    requires { IsCoordinate z }
    ensures value { result ≡ strip_of tolerance z }
    ensures low { 1 ≤ result }
    ensures high { result ≤ 65536 }
{
    u64::from(z.abs_diff(LEAST)) / (u64::from(tolerance) + 1) + 1
}

fn is_near(p: Point, q: Point, tolerance: u32) -> bool
    ensures { result ≡ is_near tolerance p q }
{
    p.x().abs_diff(q.x()) <= tolerance && p.y().abs_diff(q.y()) <= tolerance
}
