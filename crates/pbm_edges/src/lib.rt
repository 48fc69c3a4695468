//! Outlines of bitmaps: PBM files read as black and white pixels, and the boundary between the two as segments of the grid.
//!
//! Its promise is in the clauses `value` and `fault` of `read_pbm` and `edges`: exactly the bitmap, and exactly the segments, that
//! the rules in `specs/` give, or the first fault. `boundary_law` says of these rules that each side of the boundary is in exactly
//! one of the segments, and that none could be longer.
#![tactic(auto)]

mod bitmap;
mod cells;
mod fault;
mod header;
mod law;
mod magic;
mod reader;
mod same;
mod side;
mod tracing;

pub use bitmap::{Bitmap, MOST_SIDE};
pub use fault::{FlatFault, PbmFault};
pub use law::boundary_law;
pub use reader::{MOST_PBM_BYTES, read_pbm};
pub use tracing::{MOST_COORDINATE, MOST_PIXEL, MOST_SEGMENTS, edges};
