//! Which points a drawing holds, and laws of the even-odd rule.
//!
//! Its promise is in the clauses of `inside`, `inside_ratio` and `row_inside`, for points of the grid, between them, and for
//! whole rows of them, and the laws of `law`: along a path that meets no edge, inside doesn't change; an inside point is
//! strictly within the bounds of the drawing's points; off the outlines, a point is inside two drawings put together exactly
//! where it is inside exactly one of them.
#![tactic(auto)]

mod bands;
mod fill;
mod grid;
pub mod law;
mod marks;
mod meeting;
mod ratio;
mod rows;
mod sides;
mod way;
mod words;

pub use grid::is_inside;
pub use marks::row_inside;
pub use rows::{Rows, inside, inside_ratio};
pub use way::scaled_way;
pub use words::ones_below;
