//! Links: the steps by which the bit goes from one node of a path to the next, straight where that is clear.
//!
//! Its promise is the clause of `link`, that the steps are those of the link, and `law::link_leads_law` and
//! `law::same_link_law`: a link leads where it should, and there is no other.
#![tactic(auto)]

mod halves;
pub mod law;
mod links;
mod step;

pub use links::{MOST_HALVINGS, link};
pub use step::Step;
