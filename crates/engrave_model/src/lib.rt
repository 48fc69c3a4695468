//! What a reader must believe of the geometry: the definitions of drawing, inside, disc, greatest depth, removal and clear
//! moves.
//!
//! It has no code. Its promise is that the definitions of `specs/` say what they mean.
#![tactic(auto)]

/// A drawing has at most so many edges, that is, points.
pub const MOST_EDGES: u32 = 131_072;
