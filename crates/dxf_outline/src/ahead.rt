// The pairs of a file, of which one is read ahead.
ghost use Rattle.std.specs.Prelude.{◌+◌, ◌<◌, ◌^◌, length};

use crate::pairs::{Entry, Head};
use crate::texts::Texts;

/// The pairs that are still to come: what stands first of them, and behind it the lines of those from the number `at` on.
#[derive(Drop)]
pub(crate) struct Pairs<'a> {
    pub(crate) head: Head<'a>,
    pub(crate) at: u32,
    pub(crate) texts: Texts<'a>,
    pub(crate) ghost fits: { at + length texts < 2 ^ 32 },
}
