// The commands, a file each: its options, and the function that reads its values.

pub mod carve;
pub mod check;
pub mod contacts;
pub mod cover;
pub mod flat;
pub mod flatten;
pub mod moves;
pub mod probe;
pub mod repair;
pub mod strokes;
pub mod trial;
