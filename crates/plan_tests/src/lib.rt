//! Tests of what plans moves: links, orders, pockets, plans, trials, repairs, strokes and floors.
//!
//! It promises nothing, as `text_tests` says.
#![tactic(auto)]

#[cfg(test)]
mod floors;
#[cfg(test)]
mod floors_left;
#[cfg(test)]
mod links;
#[cfg(test)]
mod plans;
#[cfg(test)]
mod pockets;
#[cfg(test)]
mod repairs;
#[cfg(test)]
mod small;
#[cfg(test)]
mod strokes;
#[cfg(test)]
mod tours;
#[cfg(test)]
mod trials;
