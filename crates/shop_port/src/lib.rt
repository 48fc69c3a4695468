//! The outside as a program sees it: files that are read, an output that is written, and fakes of both.
//!
//! Its promise is in the clauses of `load`, `next_piece` and `send`: exactly the stored bytes are read, all bytes or a front part are written, and a
//! fault comes only where the outside counted one. The traits `Depot` and `Sink` say what they rest on.
#![tactic(auto)]

mod depot;
mod host;
mod loading;
mod memory;
mod schedule;
mod sending;
mod sink;
mod stored;
mod sure;

pub use depot::{Depot, Failed, Fetch};
pub use host::{HostDepot, HostSink};
pub use loading::{LoadFault, load, next_piece};
pub use memory::{MemDepot, MemSink};
pub use sending::{WriteFault, send};
pub use sink::Sink;
pub use sure::{SureDepot, SureSink};
