// How a text is laid out: its sizes, and where points come to stand by them.
ghost use Rattle.std.specs.Prelude.{◌≡◌, ◌*◌, ◌≤◌, ◌*ℤ◌, pos};
ghost use Rattle.integer_algebra.specs.Ranges.{IsUpTo};
ghost use Rattle.arc_flatten.specs.Points.{IsFine};
ghost use Rattle.grid_num.specs.Rounding.{nearest};
ghost use Rattle.plane_exact.specs.Cone.{IsFromOneTo};
ghost use Rattle.cxf_font.specs.Layouts.{IsLayout, shift_of};
ghost use Rattle.cxf_font.specs.Placing.{across, line_step, up};

use crate::letter::MOST_CHARACTERS;
use crate::wide::times;
use arc_flatten::Fine;

/// The greatest height of a text, in grid units.
pub const MOST_HEIGHT: u32 = 32_767;

/// The least width, and the least way from line to line, in percent.
pub const LEAST_PERCENT: u32 = 10;

/// The greatest of the numbers of a layout that are in percent.
pub const MOST_PERCENT: u32 = 500;

// The greatest distance of a point from the pen, in thousandths of a grid unit.
pub(crate) const MOST_ACROSS: u64 = 40_000_000_000_000;

// The greatest of the spaces of a layout, in thousandths of a grid unit.
pub(crate) const MOST_GAP: u64 = 163_835_000;

// No line of a text is farther down, in thousandths of a grid unit.
pub(crate) const MOST_WAY_DOWN: u64 = 32_767_000_000;

/// On which side of x = 0 a line of a text stands.
#[derive(Clone, Copy, Debug, PartialEq, Eq)]
pub enum Justify {
    /// It begins there.
    Left,
    /// Its middle is there.
    Center,
    /// It ends there.
    Right,
}

impl Justify {
    ghost use Rattle.std.specs.Prelude.{◌≡◌};
    ghost use Rattle.cxf_font.specs.Layouts.{shift_of};

    /// How far to the left a line of this width is moved.
    pub(crate) fn shift(self, width: u64) -> u64
        ensures value { result ≡ shift_of self width }
        ensures within { result ≤ width }
    {
        match self {
            Justify::Left => 0,
            Justify::Center => width / 2,
            Justify::Right => width,
        }
    }
}

/// The sizes of a text, and how its lines stand. The spaces are in percent of the height.
#[derive(Clone, Copy, Debug, PartialEq, Eq)]
pub struct Layout {
    /// The height of nine font units in grid units, from 1 to `MOST_HEIGHT`.
    pub height: u32,
    /// The width of glyphs in percent of the one that the font gives them at this height, from `LEAST_PERCENT` to `MOST_PERCENT`.
    pub width: u32,
    /// The space between characters, at most `MOST_PERCENT`.
    pub charspace: u32,
    /// The width of a space, at most `MOST_PERCENT`.
    pub wordspace: u32,
    /// From one line to the next, from `LEAST_PERCENT` to `MOST_PERCENT`.
    pub linespace: u32,
    pub justify: Justify,
    /// Whether left and right are exchanged.
    pub mirror: bool,
    /// Whether above and below are exchanged.
    pub flip: bool,
}

impl Layout {
    /// How far a point is from the left of its glyph, in thousandths of a grid unit.
    #[tactic(auto, unfolding(crate::specs::Placing::across))]
    pub(crate) fn across(&self, p: Fine) -> i64
        requires { IsLayout self.now }
        ensures value { result ≡ across self.now p }
        ensures range { IsUpTo (pos MOST_ACROSS) result }
    {
        scaled(p.x, self.height * self.width, 900_000)
    }

    /// How far a point is above the line that its glyph stands on, in thousandths of a grid unit.
    #[tactic(auto, unfolding(crate::specs::Placing::up))]
    pub(crate) fn up(&self, p: Fine) -> i64
        requires { IsLayout self.now }
        ensures value { result ≡ up self.now p }
        ensures range { IsUpTo (pos MOST_ACROSS) result }
    {
        scaled(p.y, self.height, 9_000)
    }

    /// The space behind a character, in thousandths of a grid unit.
    pub(crate) fn char_gap(&self) -> u64
        requires { IsLayout self.now }
        ensures value { result ≡ self.now.height * self.now.charspace * 10 }
        ensures range { result ≤ MOST_GAP }
    {
        u64::from(self.height * self.charspace) * 10
    }

    /// The width of a space, in thousandths of a grid unit.
    pub(crate) fn word_gap(&self) -> u64
        requires { IsLayout self.now }
        ensures value { result ≡ self.now.height * self.now.wordspace * 10 }
        ensures range { result ≤ MOST_GAP }
    {
        u64::from(self.height * self.wordspace) * 10
    }

    /// From the first line down to the one with this number, in thousandths of a grid unit.
    pub(crate) fn way_down(&self, line: u32) -> u64
        requires layout { IsLayout self.now }
        requires line { line ≤ MOST_CHARACTERS }
        ensures value { result ≡ line * line_step self.now }
        ensures range { result ≤ MOST_WAY_DOWN }
    {
        u64::from(line) * self.line_step()
    }

    // From one line to the next, in thousandths of a grid unit.
    fn line_step(&self) -> u64
        requires { IsLayout self.now }
        ensures value { result ≡ line_step self.now }
        ensures range { result ≤ MOST_GAP }
    {
        u64::from(self.height * self.linespace) * 10
    }
}

// The whole number nearest to `z` times `by / over`.
fn scaled(z: i64, by: u32, over: u32) -> i64
    requires number { IsFine z }
    requires by { by ≤ 20 * over }
    requires over { IsFromOneTo 900000 over }
    ensures value { result ≡ nearest (z *ℤ pos by) over }
    ensures range { IsUpTo (pos MOST_ACROSS) result }
{
    let product = times(z as i128, by as i128);
    (2 * product + over as i128).div_euclid(2 * over as i128) as i64
}
