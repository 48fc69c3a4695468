// What the calls of the crate give, with values worked by hand; a file a call.

mod guarded;
mod joins;
mod snapped;
