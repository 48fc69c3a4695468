//! Verdicts on G-code programs: that every move is clear, or what is wrong with the first that isn't.
//!
//! Its promise is in the clauses of `check`: `verdict`, exactly which; `safe`, that a program called clear removes no point
//! outside the drawing, at any moment; `exact` and `harm`, that no alarm is false. `next_verdict` judges moves that come one by one,
//! and `law::verdict_law` says of its verdicts what those clauses say of `check`'s.
#![tactic(auto)]

pub mod law;
mod verdict;

pub use verdict::{Verdict, check, next_verdict};
