// Reads of files that lie in memory.
ghost use Rattle.std.specs.Prelude.{◌≡◌, ◌≤◌, ◌<◌, ◌-◌, min, length, Ok};
ghost use Rattle.shop_port.specs.Files.{HasPiece, IsPieceOf, IfGot, files_of, missed_after};

use crate::Fetch;
use std::collections::BTreeMap;

/// Copies bytes of a named file to the front of the buffer, `per_call` of them at most. Counts a name
/// that isn't found.
pub fn read_stored(
    files: &BTreeMap<String, Vec<u8>>,
    per_call: usize,
    misses: &mut u64,
    name: &str,
    at: u64,
    into: &mut [u8],
) -> Fetch
    requires { 0 < per_call }
    ensures value { IsPieceOf (files_of files.now name.now) at into.new result }
    ensures range { IfGot result (λ n. n ≤ length into.new) }
    ensures few { IfGot result (λ n. n ≤ per_call) }
    ensures missed { misses.new ≡ missed_after (Ok result) misses.old }
    ensures rising { misses.old ≤ misses.new }
{
    match files.get(name) {
        Some(file) => Fetch::Got(copy_piece(file, per_call, at, into)),
        None => {
            *misses = misses.saturating_add(1);
            Fetch::Absent
        }
    }
}

/// Copies bytes of a file to the front of the buffer, as many as it has from the offset on, as the
/// buffer takes and as one call gives. Says how many.
fn copy_piece(file: &[u8], per_call: usize, at: u64, into: &mut [u8]) -> usize
    requires { 0 < per_call }
    ensures piece { HasPiece file.now at result into.new }
    ensures count { result ≡ min (min per_call (length into.new)) (length file.now - at) }
{
    if at >= file.len() as u64 {
        return 0;
    }
    let rest = &file[at as usize..];
    let n = per_call.min(into.len()).min(rest.len());
    into[..n].copy_from_slice(&rest[..n]);
    n
}
