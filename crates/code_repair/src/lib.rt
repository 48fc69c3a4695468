//! Repair of G-code programs: moves that aren't clear for a drawing become lifts, and the others stay.
//!
//! Its promise is the clause `value` of `repair`, that the places visited are those of the rule, and `law::repair_law`: the repaired
//! program is clear, removes no point that the read one doesn't remove, and keeps the clear moves of that.
#![tactic(auto)]

mod fault;
pub mod law;
mod repairs;
mod visits;
mod walk;

pub use fault::RepairFault;
pub use repairs::{MOST_VISITS, Repaired, repair};
