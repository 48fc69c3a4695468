//! A flat clean-up bit: it mills the flat floors that a depth limit leaves, and keeps off the walls that the conical bit cuts.
//!
//! Its promise is `law::floor_law`: along the chains of `flat` it removes, below the surface too, no material that the conical bit mightn't.
//! `floor_left` reports which points of the floor it doesn't reach.
#![tactic(auto)]

mod apart;
mod chains;
mod discs;
mod floor;
pub mod law;
mod left;
mod marks;

pub use chains::flat;
pub use cleanup_pocket::PocketFault as MillFault;
pub use coverage_report::CoverFault as FloorFault;
pub use left::floor_left;
