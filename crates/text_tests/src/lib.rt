//! Tests of what reads and writes text: numbers, drawings of every form, fonts, G-code programs and words, and of the files below them.
//!
//! It promises nothing. Tests stand in crates of their own, since a crate that has tests is proved twice.
#![tactic(auto)]

#[cfg(test)]
mod arcs;
#[cfg(test)]
mod bitmaps;
#[cfg(test)]
mod codes;
#[cfg(test)]
mod joins;
#[cfg(test)]
mod letters;
#[cfg(test)]
mod loops;
#[cfg(test)]
mod numbers;
#[cfg(test)]
mod outlines;
#[cfg(test)]
mod points;
#[cfg(test)]
mod ports;
#[cfg(test)]
mod words;
