// Straight moves of the bit's tip, and what is asked of them.
ghost use Rattle.std.specs.Prelude.{◌≡◌, ◌↔◌, ◌≤◌, IsTrue};
ghost use Rattle.plane_exact.specs.Heights.{IsFineCoordinate, IsHeight};
ghost use Rattle.plane_exact.specs.Moves.{IsDeep, IsTooDeep, IsTooWide, depth_of, first_deep};

use crate::bit::Bit;
use std::marker::Model;

/// The greatest depth that is asked for, in grid units.
pub const MOST_DEPTH: u32 = 32_767;

/// The greatest height of a spot above the surface, and its greatest depth below it, in tenths of a grid unit.
pub const MOST_SPOT_DEPTH: u32 = 327_670;

/// Where the bit's tip is, in tenths of a grid unit: `x` and `y` from -327,680 to 327,670, and the height `h` above the
/// surface, from -327,670 to 327,670.
#[derive(Clone, Copy, Debug, PartialEq, Eq)]
pub struct Spot {
    pub x: i32,
    pub y: i32,
    pub h: i32,
}

impl Model for Spot {
    ghost use Rattle.plane_exact.specs.Heights.{GridPlace, IsSpot};

    ghost Value = { GridPlace };

    ghost view = { λ p. record { at = record { x = p.x; y = p.y }; h = p.h } };

    ghost invariant = { λ p. IsSpot p.x p.y p.h };

    ghost inverse = { λ g. record { x = g.at.x; y = g.at.y; h = g.h } };
}

impl Spot {
    /// How deep the spot is below the surface, in tenths of a grid unit: 0 from the surface up.
    pub fn depth(&self) -> u32
        ensures value { result ≡ depth_of self.now.h }
        ensures range { result ≤ MOST_SPOT_DEPTH }
    {
        depth_of_height(self.h)
    }

    /// Where the spot is along the x axis, in tenths of a grid unit.
    pub fn across(&self) -> i32
        ensures value { result ≡ self.now.at.x }
        ensures range { IsFineCoordinate result }
    {
        self.x
    }

    /// Where it is along the y axis, in tenths of a grid unit.
    pub fn up(&self) -> i32
        ensures value { result ≡ self.now.at.y }
        ensures range { IsFineCoordinate result }
    {
        self.y
    }
}

/// A straight move of the tip from one spot to another, which may be the same.
#[derive(Clone, Copy, Debug, PartialEq, Eq)]
pub struct Move {
    pub from: Spot,
    pub to: Spot,
}

impl Move {
    /// Whether one of the ends is below the surface.
    pub fn is_deep(&self) -> bool
        ensures { IsTrue result ↔ IsDeep self.now }
    {
        self.from.h < 0 || self.to.h < 0
    }

    /// Whether the bit would be wider than its greatest radius at one of the ends.
    pub fn is_too_deep(&self, bit: &Bit) -> bool
        ensures { IsTrue result ↔ IsTooDeep bit.now self.now }
    {
        is_too_wide(bit, self.from.depth()) || is_too_wide(bit, self.to.depth())
    }

    /// The first end that is below the surface; the last end where none is.
    pub fn first_deep_end(&self) -> Spot
        ensures { result.at ≡ first_deep self.now }
    {
        if self.from.h < 0 { self.from } else { self.to }
    }
}

// How deep the height is below the surface: 0 from the surface up.
fn depth_of_height(h: i32) -> u32
    requires { IsHeight h }
    ensures value { result ≡ depth_of h }
    ensures range { result ≤ MOST_SPOT_DEPTH }
{
    if h < 0 { h.unsigned_abs() } else { 0 }
}

// Whether the bit is wider than its greatest radius at the depth, in tenths of a grid unit.
fn is_too_wide(bit: &Bit, z: u32) -> bool
    requires { z ≤ MOST_SPOT_DEPTH }
    ensures { IsTrue result ↔ IsTooWide bit.now z }
{
    10 * (bit.sd() * bit.rmax()) < bit.sn() * z
}

/// A move with the number, from 1, of the line of code that asks for it.
#[derive(Clone, Copy, Debug, PartialEq, Eq)]
pub struct LineMove {
    pub line: u32,
    pub mv: Move,
}
