//! The contacts along a drawing's outline, and at each of them the greatest disc that touches the outline there.
//!
//! Its promise is in the clauses of `contacts`: exactly the contacts of the drawing, or the fault that there is; and that of
//! `tangent`: on each side the greatest disc that holds no point of an edge, and which side is inside.
#![tactic(auto)]

mod chosen;
mod contact;
mod disc;
mod edge_point;
mod greatest;
pub mod law;
mod listed;
mod off;
mod open_disc;
mod pieces;
mod rounding;
mod touch;
mod ways;

pub use chosen::tangent;
pub use contact::{Contact, ContactFault, MOST_CONTACTS, MOST_PIECES, MOST_STEP};
pub use disc::{Disc, Side};
pub use listed::contacts;
