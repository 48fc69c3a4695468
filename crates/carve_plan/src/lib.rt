//! The plan of a drawing: which chains of nodes the bit cuts, and in which order.
//!
//! Its promise is in the clauses of `plan`: exactly the chains of the drawing and of its pocket in their order, or the fault that there is; and in
//! `law::plan_law`: the program of a plan is clear and safe, and reaches the node of each contact.
#![tactic(auto)]

mod chains;
mod fault;
pub mod law;
mod limits;
mod made;
mod milled;
mod plans;
mod round;
mod stop;

pub use chains::in_order;
pub use fault::PlanFault;
pub use limits::count_nodes;
pub use plans::plan;
