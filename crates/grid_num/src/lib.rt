//! Numbers of the grid in text: plain decimals, numbers with an exponent, whole numbers, and a job's units; and whole square roots.
//!
//! Its promise is the one clause of `read_decimal`: the exact number times the scale, or the first fault that applies; and
//! that of `read_real`: the same of a number that may have an exponent, rounded to the nearest, halves upwards; and
//! the clauses of `write_decimal`: the text of a number, which `read_decimal` gives back; and those of `isqrt`: the greatest root.
#![tactic(auto)]

mod decimal;
mod numeral;
mod real;
mod root;
mod split;
mod units;
mod whole;
mod writer;

pub use decimal::{Decimal, MOST_DIGITS, NumFault, read_decimal};
pub use real::{MOST_EXPONENT_DIGITS, read_real};
pub use root::isqrt;
pub use units::Units;
pub use whole::{MOST_WHOLE_DIGITS, read_digits, read_whole, read_whole_pair};
pub use writer::write_decimal;
