//! Arcs drawn by straight pieces, in thousandths of a grid unit: directions by halving a quarter turn, points of circles in these
//! directions, and points of bulges by halving the arc; and the points of the grid that are nearest, with the segments between them.
//!
//! Its promise is the one clause of `arc`, `bulge`, `to_grid` and `segments`, and the `value` of `turn`, `span_between` and
//! `direction`: each result is that of the rule in whole numbers that `specs/` reads out. That the points stay in the range of `Fine` is an invariant of the type.
#![tactic(auto)]

mod angle;
mod circle;
mod fine;
mod grid;
mod halving;
mod heading;
mod points;
mod quarter;
mod wide;

pub use angle::{MOST_ANGLE, TURN, span_between, turn};
pub use circle::{MOST_CENTRE, MOST_CHORD, MOST_RADIUS, arc};
pub use fine::{Fine, MOST_FINE};
pub use grid::to_grid;
pub use halving::{MOST_BULGE, MOST_END, bulge};
pub use points::segments;
pub use quarter::direction;
