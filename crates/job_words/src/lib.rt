//! The words of a command, read into a request: the command's name, and options with one value each.
//!
//! Its promise is in the clauses of `read_words`: a request exactly where the words are those of a command, and its values.
//! `law` says which words are accepted for sure.
#![tactic(auto)]

mod commands;
mod fault;
mod found;
pub mod law;
mod options;
mod request;
mod shape;
mod text;
mod values;
mod words;

pub use fault::WordsFault;
pub use request::{CrossWord, DrawingWords, FormWord, JustifyWord, PocketWord, Request, YesNo};
pub use text::Text;
pub use words::read_words;
