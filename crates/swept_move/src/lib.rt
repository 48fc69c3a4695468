//! Straight moves of the bit against the edges of a drawing.
//!
//! Its promise is the clause of `clear_of`, the test of a move against an edge, and `law::exact_law`: a move that goes below the
//! surface passes it just where no moment of it removes a point of the edge. And the clause of `point_removed`: whether some moment
//! of a move, at any depth, removes a grid point.
//!
//! What a move removes is convex (`law::convex_law`), so of a row of grid points it removes one interval, which `row_cut` finds by
//! bisection, and `row_band` says in which rows to look.
#![tactic(auto)]

mod band;
mod clear;
mod clearance;
mod coefficients;
mod deep_move;
mod disc;
mod distance;
pub mod law;
mod middle;
mod moments;
mod reach;
mod removed;
mod row;
mod sides;
mod sight;
mod span;
mod stretch;
mod way;

pub use band::row_band;
pub use clear::clear_of;
pub use disc::is_edge_clear;
pub use reach::reach_of;
pub use removed::point_removed;
pub use row::row_cut;
