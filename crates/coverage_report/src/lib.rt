//! The report on what a G-code program leaves uncut: which grid points inside the drawing, or marked otherwise, no moment of any move removes.
//!
//! Its promise is the clause of `uncut`: the maximal runs of exactly these points, in order, and how many there are; or that
//! the report has more points than it may have.
#![tactic(auto)]

mod bits;
mod count;
mod cover;
mod cuts;
mod fault;
mod lattice;
mod marks;
mod row;
mod runs;

pub use count::{CutCount, count_cut};
pub use cover::{MOST_PITCH, MOST_POINTS, marked_uncut, uncut};
pub use fault::CoverFault;
pub use marks::Marks;
