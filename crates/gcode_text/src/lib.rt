//! G-code text: the profile of RS274/NGC that is read, and the moves that a program asks for.
//!
//! Its promise is in the clauses `moves` and `fault` of `Reader::finish`: exactly the moves of the bytes fed, however they were
//! cut, or the fault of the first faulty line. `read_code` says the same of a text that lies there whole, and `Stepper` of one
//! that comes byte by byte, without memory.
//!
//! And the other way: `write_code` writes the program of a job with a report on what it leaves uncut, its clause `text` says which
//! text, and `read_back` that it is read as exactly the moves through the nodes of its chains. `chain_moves` gives these moves
//! without the text. `write_strokes` writes the program of strokes that are engraved, `write_flat` that of a flat bit over a floor, and
//! `write_visits` that of a path that goes from spot to spot; all are read back likewise.
#![tactic(auto)]

mod block;
mod fault;
mod flat;
mod job;
mod judge;
pub mod law;
mod line;
mod modal;
mod path_moves;
mod plain;
mod reader;
mod report;
mod state;
mod stepper;
mod strokes;
mod visits;
mod words;
mod writer;
mod written;

pub use fault::{CodeFault, CodeKind, FinishFault};
pub use flat::write_flat;
pub use job::{Job, MOST_FEED, MOST_SAFE_HEIGHT};
pub use line::MOST_LINE_BYTES;
pub use modal::MOST_MOVES;
pub use path_moves::chain_moves;
pub use reader::{Reader, read_code};
pub use report::{Subject, write_report};
pub use state::{MOST_CODE_BYTES, Turn};
pub use stepper::Stepper;
pub use strokes::write_strokes;
pub use visits::write_visits;
pub use writer::write_code;
