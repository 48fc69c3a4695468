// The edges of a grid whose boxes may meet an asked one, row by row.
ghost use Rattle.std.specs.Prelude.{◌≡◌, ◌≤◌, ◌-ℤ◌, ◌+ℤ◌, ◌<ℤ◌, pos, MatchOption, flat_map};
ghost use Rattle.std.specs.Iterator.{YieldsFirstBy, item_count};
ghost use Rattle.segment_grid.specs.Cells.{cut, end_from, first_from};
ghost use Rattle.segment_grid.specs.Grid.{start_of};
ghost use Rattle.segment_grid.specs.Walk.{entries_ahead, run_of, runs_left, runs_of};

use crate::hits::Untested;
use crate::level::{Level, Row};
use lane_kernels::Rect;

// The elements of a list from the number `first` to the one before `end`.
#[derive(Clone, Copy, Debug)]
pub struct Span {
    first: usize,
    end: usize,
}

impl Span {
    // That part of a list.
    fn part<T>(self, list: &[T]) -> &[T]
        ensures { result.now ≡ cut self.first self.end list.now }
    {
        let end = self.end.min(list.len());
        let front = &list[..end];
        let first = self.first.min(end);
        &front[first..]
    }
}

// How far the place is past the origin, where it isn't before it.
pub(crate) fn offset_of(place: i32, origin: i32) -> Option<u32>
    ensures { MatchOption result (place <ℤ origin) (λ past. place ≡ origin +ℤ pos past) }
{
    if place < origin {
        None
    } else {
        Some(place.abs_diff(origin))
    }
}

// The first cell whose boxes may reach the place.
fn first_cell(place: i32, origin: i32, side: u32) -> usize
    requires { 1 ≤ side }
    ensures { result ≡ first_from (place -ℤ origin) side }
{
    match offset_of(place, origin) {
        Some(past) => (past / side).saturating_sub(1) as usize,
        None => 0,
    }
}

// The cell behind the last whose boxes may begin at the place or before it.
fn end_cell(place: i32, origin: i32, side: u32) -> usize
    requires { 1 ≤ side }
    ensures { result ≡ end_from (place -ℤ origin) side }
{
    match offset_of(place, origin) {
        Some(past) => (past / side) as usize + 1,
        None => 0,
    }
}

impl Row {
    // How many edges stand in the columns before this one.
    fn start_of(&self, column: usize) -> usize
        ensures { result ≡ start_of self.now column }
    {
        match self.starts.get(column) {
            Some(start) => *start as usize,
            None => self.numbers.len(),
        }
    }

    // The edges in these columns.
    fn run(&self, columns: Span) -> Untested<'_>
        ensures { entries_ahead result ≡ run_of columns.first columns.end self.now }
    {
        let places = Span {
            first: self.start_of(columns.first),
            end: self.start_of(columns.end),
        };
        Untested {
            numbers: places.part(self.numbers.as_slice()),
            boxes: places.part(self.boxes.as_slice()),
        }
    }
}

impl Level {
    // The columns whose boxes may meet q.
    fn columns(&self, q: Rect) -> Span
        ensures first { result.first ≡ first_from (q.x0 -ℤ self.now.x0) self.now.width }
        ensures end { result.end ≡ end_from (q.x1 -ℤ self.now.x0) self.now.width }
    {
        Span {
            first: first_cell(q.x0, self.x0, self.width),
            end: end_cell(q.x1, self.x0, self.width),
        }
    }

    // The rows whose boxes may meet q.
    fn asked_rows(&self, q: Rect) -> &[Row]
        ensures { result.now ≡ cut (first_from (q.y0 -ℤ self.now.y0) self.now.height) (end_from (q.y1 -ℤ self.now.y0) self.now.height) self.now.rows.items }
    {
        let rows = Span {
            first: first_cell(q.y0, self.y0, self.height),
            end: end_cell(q.y1, self.y0, self.height),
        };
        rows.part(self.rows.as_slice())
    }
}

// Gives the parts of rows that may have such an edge.
#[derive(Debug, Drop)]
pub struct Runs<'a> {
    q: Rect,
    levels: &'a [Level],
    rows: &'a [Row],
    columns: Span,
}

impl<'a> Runs<'a> {
    // Those of these levels.
    pub(crate) fn of(q: Rect, levels: &'a [Level]) -> Runs<'a>
        ensures { runs_left result ≡ flat_map (runs_of q) levels.now }
    {
        Runs {
            q,
            levels,
            rows: &[],
            columns: Span { first: 0, end: 0 },
        }
    }
}

impl<'a> Iterator for Runs<'a> {
    type Item = Untested<'a>;

    ghost next_gives = { YieldsFirstBy entries_ahead runs_left };

    ghost remaining = { item_count runs_left };

    fn next(&mut self) -> Option<Untested<'a>> {
        loop {
            if let Some((row, rows)) = self.rows.split_first() {
                self.rows = rows;
                return Some(row.run(self.columns));
            }
            let (level, levels) = self.levels.split_first()?;
            self.levels = levels;
            self.columns = level.columns(self.q);
            self.rows = level.asked_rows(self.q);
        }
    }
}
