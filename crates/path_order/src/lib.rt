//! The order in which chains are cut: always the nearest that is left.
//!
//! Its promise is the clause of `order`: each chain stands in the order once, and each is, of those that aren't cut yet, the one
//! whose first node lies nearest to where the bit was left.
#![tactic(auto)]

mod build;
mod curve;
mod ends;
mod entry;
mod extent;
mod found;
mod left;
mod span;
mod tour;

pub use tour::order;
