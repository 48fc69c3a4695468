//! The drawing of a trial of the whole tool: a field of cells, of which each has an octagon or two squares.
//!
//! Its promise is the clause of `trial_field`: the drawing is exactly the one that `specs/Field.antt` defines.
#![tactic(auto)]

mod cell;
mod field;

pub use field::{MOST_CELLS, trial_field};
