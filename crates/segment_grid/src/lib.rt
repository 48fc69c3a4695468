//! The edges of a drawing by place: which of them lie near a box.
//!
//! Its promise is in the clauses of `Grid::build` and `Grid::near`: a grid that stands for a drawing gives every edge whose box
//! meets the asked one, no other, and each once.
#![tactic(auto)]

mod adding;
mod boxes;
mod build;
mod frame;
mod grid;
mod hits;
mod level;
mod near;
mod open;
mod pack;
mod walk;

pub use boxes::box_of;
pub use grid::Grid;
pub use near::Near;
