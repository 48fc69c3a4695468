// Where an edge meets a row of grid points.
ghost use Rattle.std.specs.Prelude.{◌≡◌, ◌≤◌, pos, ◌-ℤ◌, ◌<ℤ◌, int_lt};

use plane_exact::{Point, Seg, cross};

// A row of grid points: the point i is i pitches to the right of the start, for i below count.
#[derive(Clone, Copy)]
pub(crate) struct Row {
    pub start: Point,
    pub pitch: u32,
    pub count: u32,
    ghost apart: { 1 ≤ pitch },
}

// Where an edge meets a row: the point i of the row lies on it where from <= i * step <= to, and is strictly to the left of it
// where i * step < from. An edge that passes the row is counted at the points to the left of it.
#[derive(Clone, Copy)]
pub(crate) struct Meeting {
    pub from: i64,
    pub to: i64,
    pub step: u64,
    pub passes: bool,
    ghost some: { 1 ≤ step },
}

impl Row {
    ghost use Rattle.std.specs.Prelude.{◌≡◌, ◌<ℤ◌, ◌≤ℤ◌};
    ghost use Rattle.integer_algebra.specs.Ranges.{IsWithin};
    ghost use Rattle.evenodd_region.specs.Meetings.{IsMeeting};

    // Where the edge meets the row.
    pub(crate) fn meeting(&self, e: Seg) -> Meeting
        ensures { IsMeeting self.now e result }
    {
        if is_below(e.b, e.a) {
            self.upward(Seg { a: e.b, b: e.a })
        } else {
            self.upward(e)
        }
    }

    // The same of an edge that doesn't fall.
    fn upward(&self, e: Seg) -> Meeting
        requires { e.a.y ≤ℤ e.b.y }
        ensures { IsMeeting self.now e result }
    {
        let (start, a, b) = (self.start, e.a, e.b);
        if is_below(start, a) || is_below(b, start) {
            return Meeting::none();
        }
        if is_below(a, b) {
            self.rising(a, b)
        } else {
            self.level(a, b)
        }
    }

    // The same of an edge that rises through the row. The cross product of the ways from its lower end to its upper one and to a
    // point of the row falls by one step from point to point, and is 0 where the point lies on the edge's line.
    fn rising(&self, a: Point, b: Point) -> Meeting
        requires up { a.y <ℤ b.y }
        requires row { IsWithin a.y b.y self.now.start.y }
        ensures { IsMeeting self.now (record { a = a; b = b }) result }
    {
        let start = self.start;
        let from = cross(a, b, start);
        Meeting {
            from,
            to: from,
            step: u64::from(self.pitch) * u64::from(rows_up(a, b)),
            passes: is_below(start, b),
        }
    }

    // The same of an edge on the row.
    fn level(&self, a: Point, b: Point) -> Meeting
        requires level { a.y ≡ b.y }
        requires row { a.y ≡ self.now.start.y }
        ensures { IsMeeting self.now (record { a = a; b = b }) result }
    {
        let start = self.start;
        let to_a = way(start, a);
        let to_b = way(start, b);
        Meeting {
            from: to_a.min(to_b),
            to: to_a.max(to_b),
            step: u64::from(self.pitch),
            passes: false,
        }
    }
}

// Whether the row of `p` is below that of `q`.
fn is_below(p: Point, q: Point) -> bool
    ensures { result ≡ int_lt p.y q.y }
{
    p.y() < q.y()
}

// How many rows `q` is above `p`.
fn rows_up(p: Point, q: Point) -> u32
    requires { p.y <ℤ q.y }
    ensures up { pos result ≡ q.y -ℤ p.y }
    ensures few { result ≤ 65535 }
{
    q.y().abs_diff(p.y())
}

// How far `q` is to the right of `p`.
fn way(p: Point, q: Point) -> i64
    ensures { result ≡ q.x -ℤ p.x }
{
    i64::from(q.x()) - i64::from(p.x())
}

impl Meeting {
    ghost use Rattle.std.specs.Prelude.{◌≡◌, ℕ, ◌*◌, ◌≤◌, ◌&&◌, nat_le, nat_lt, pos, int_le, int_lt, false};

    // No point of the row lies on the edge, and the edge isn't counted at any.
    fn none() -> Meeting
        ensures from { result.from ≡ pos 1 }
        ensures to { result.to ≡ pos 0 }
        ensures passes { result.passes ≡ false }
    {
        Meeting {
            from: 1,
            to: 0,
            step: 1,
            passes: false,
        }
    }

    // How many of the first `count` points are to the left of the edge.
    pub(crate) fn before(self, count: u32) -> u32
        ensures few { result ≤ count }
        ensures value { (i : ℕ) → nat_lt i result ≡ (nat_lt i count && int_lt (pos (i * self.step)) self.from) }
    {
        if self.from <= 0 {
            0
        } else {
            Meeting::count_to((self.from - 1) as u64, self.step, count)
        }
    }

    // How many of the first `count` points are to the left of the edge or on it.
    pub(crate) fn through(self, count: u32) -> u32
        ensures few { result ≤ count }
        ensures value { (i : ℕ) → nat_lt i result ≡ (nat_lt i count && int_le (pos (i * self.step)) self.to) }
    {
        if self.to < 0 {
            0
        } else {
            Meeting::count_to(self.to as u64, self.step, count)
        }
    }

    // How many of the first `count` multiples of the step, from 0 on, are at most `last`.
    fn count_to(last: u64, step: u64, count: u32) -> u32
        requires { 1 ≤ step }
        ensures few { result ≤ count }
        ensures value { (i : ℕ) → nat_lt i result ≡ (nat_lt i count && nat_le (i * step) last) }
    {
        (last / step).saturating_add(1).min(u64::from(count)) as u32
    }
}
