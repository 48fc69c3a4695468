//! The lines of a text, the words of a line, and the pieces between any separator, each with its place in the text.
//!
//! Its promise is in the clauses of `Lines::of`, `Words::of` and `Pieces::of`: an iterator over exactly the pieces of the text,
//! in order.
#![tactic(auto)]

mod blanks;
mod lines;
mod pieces;

pub use blanks::without_blanks;
pub use lines::{Lines, Words};
pub use pieces::{Piece, Pieces, Separator, without_return};
