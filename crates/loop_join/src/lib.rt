//! Loose segments become the closed loops of a drawing, none of whose edges cross.
//!
//! That near points become one by exactly its rule is the clause `value` of `snap`, and what that is worth is `snap_law`; that
//! segments become exactly the loops of its rule, each segment in them once, or the first point at which they are open, are the
//! clauses of `join`, and `join_law` says when there are such loops; that the first two edges that cross are named is the clause
//! of `guard`.
#![tactic(auto)]

mod ends;
mod guarded;
mod joining;
mod kept;
mod law;
mod odd;
mod snapped;
mod unused;

pub use guarded::guard;
pub use joining::{JoinFault, join};
pub use law::{join_law, snap_law};
pub use snapped::snap;
