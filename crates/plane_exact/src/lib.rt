//! Exact geometry on the grid: points, segments, straight moves and the conical bit, and comparisons that equal their
//! rational meaning.
//!
//! Its promise is the one clause of `dist_at_least`, `cross_kind` and `passes_through`, which speak of every rational point,
//! and the `value` of `cross` and `dot`. The ranges are invariants of the types.
#![tactic(auto)]

mod bit;
mod distance;
mod floor;
mod meet;
mod moves;
mod node;
mod point;
mod product;
mod same;
mod segment;
mod uncut;
mod way;

pub use bit::{Bit, MOST_RADIUS, MOST_SLOPE};
pub use distance::dist_at_least;
pub use floor::floor_div;
pub use meet::{Meet, cross_kind};
pub use moves::{LineMove, MOST_DEPTH, MOST_SPOT_DEPTH, Move, Spot};
pub use node::{Chain, MOST_CHAINS, MOST_NODES, Node};
pub use point::{Point, Seg};
pub use product::{Offset, cross, dot, offset_from};
pub use same::is_same_point;
pub use segment::passes_through;
pub use uncut::{Run, Uncut};
pub use way::Way;
