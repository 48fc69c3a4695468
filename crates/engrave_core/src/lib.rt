//! The top call: from the words of a command and the bytes of its files to the outcome and the written text.
//!
//! The whole promise is in the clauses of `engrave`, first `safe`, `carved`, `covered`, `exact` and `due`. `check_stream` gives the
//! verdict of `check` without the words and the text.
#![tactic(auto)]

mod commands;
mod drawing;
mod files;
mod judged;
mod line;
mod outcome;
mod program;
mod refusal;
mod stream;
mod top;

pub use carve_plan::{PlanFault, plan};
pub use outcome::{InputFault, Kind, Outcome, Which, status};
pub use stream::{StreamFault, check_stream};
pub use top::engrave;
pub use trial_field::trial_field;
