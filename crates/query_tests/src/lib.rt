//! Tests of what asks about a drawing: boxes, near edges, insides, depths, tangent discs and reports.
//!
//! It promises nothing, as `text_tests` says.
#![tactic(auto)]

#[cfg(test)]
mod depths;
#[cfg(test)]
mod discs;
#[cfg(test)]
mod insides;
#[cfg(test)]
mod lanes;
#[cfg(test)]
mod near;
#[cfg(test)]
mod random;
#[cfg(test)]
mod reports;
#[cfg(test)]
mod scenes;
