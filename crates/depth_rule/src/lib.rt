//! The scene of a drawing: how deep the bit may go at a point of it, how far the edges are, and the first edge that a move meets.
//!
//! Its promise is the clause of `greatest_depth`, that the depth is the greatest that fits, and that of `first_met`, that the
//! edge is the first against which the tests of a move fail, and `law::clear_move_law` and
//! `law::safe_move_law`: a clear move is safe, and a safe one that isn't too deep is clear.
#![tactic(auto)]

mod around;
mod bounds;
mod clear;
mod crossing;
mod depth;
mod distance;
pub mod law;
mod least;
mod met;
mod scene;
mod steps;
mod ticks;
mod together;

pub use bounds::Bounds;
pub use clear::is_clear;
pub use depth::{deepest, greatest_depth};
pub use distance::clearance;
pub use met::{Met, first_met};
pub use scene::Scene;
pub use steps::greatest_depth_by_steps;
pub use ticks::{MOST_APART, Ticks, ticks_between};
