//! Drawings, the loops form that they are read from and written in, and which edges cross.
//!
//! That a drawing keeps its rule is the invariant of `Drawing`; that a text is read as exactly its drawing, or its first fault
//! with its place, are the clauses `drawing` and `fault` of `read_loops`; that what is written is read as the drawing is
//! the clause `read_back` of `write_loops`; that `crosses` decides exactly is its one clause.
#![tactic(auto)]

mod crossing;
mod drawing;
mod fault;
mod reader;
mod writer;

pub use crossing::crosses;
pub use drawing::{Drawing, PushFault};
pub use fault::{LoopsFault, LoopsKind};
pub use reader::{MOST_DRAWING_BYTES, read_loops};
pub use writer::write_loops;
