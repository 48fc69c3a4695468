//! Tests and counts over many numbers at once, by vector registers.
//!
//! Its promise is in the clauses of `boxes_hit`, `and_not` and `count_ones`: what they give is what is given one by one, for every
//! number of boxes or words.
#![tactic(auto)]

mod boxes;
mod lanes;
mod words;

pub use boxes::{Rect, boxes_hit};
pub use words::{and_not, count_ones};
