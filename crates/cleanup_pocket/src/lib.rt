//! Clean-up pockets: the flat floors that a depth limit leaves, milled by rows and columns at the deepest depth.
//!
//! Its promise is the clause of `pocket`, that the chains are the longest runs of points at which the deepest depth fits, and
//! `law::pocket_law`: each node fits, and each move along a chain is clear. `floor_chains` does the same for any `Floor`, by what that one
//! says of its places.
#![tactic(auto)]

mod axis;
mod chains;
mod deep;
mod fault;
mod floor;
mod kept;
pub mod law;
mod line;
mod pockets;
mod walk;

pub use axis::{Axis, Way};
pub use chains::floor_chains;
pub use fault::PocketFault;
pub use floor::Floor;
pub use line::Line;
pub use pockets::{MOST_OVER, pocket};
