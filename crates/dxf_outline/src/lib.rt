//! Outlines from DXF R12 files: the lines, circles, arcs and polylines of the section of entities, as segments of the grid.
//!
//! Its promise is in the clauses `outline` and `fault` of `read_dxf`: exactly the segments and the number of skipped entities that
//! the rules in `specs/` give, or the first fault with its pair. The file is gone through once, and no list of its pairs is kept.
#![tactic(auto)]

mod ahead;
mod corners;
mod entities;
mod fault;
mod fields;
mod names;
mod numbers;
mod outline;
mod pairs;
mod place;
mod polyline;
mod reader;
mod resolution;
mod shapes;
mod slots;
mod texts;
mod values;
mod walk;

pub use fault::{DxfFault, DxfKind};
pub use outline::Outline;
pub use reader::{MOST_DXF_BYTES, read_dxf};
pub use shapes::MOST_SEGMENTS;
