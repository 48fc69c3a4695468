// A chain as the search for the nearest one sees it: its number and where it begins.
ghost use Rattle.std.specs.Prelude.{◌≡◌, ◌≤◌, IfOk, length, map};
ghost use Rattle.std.specs.List.{range_with_len};
ghost use Rattle.path_order.specs.Entries.{entry_of};
ghost use Rattle.plane_exact.specs.declared.node.TheConstants.{MOST_CHAINS};

use crate::ends::first_of;
use plane_exact::{Chain, Point};
use std::alloc::{AllocError, Global};

#[derive(Clone, Copy, Drop)]
pub struct Entry {
    pub at: Point,
    pub number: u32,
}

// The entries of all chains.
pub fn entries_of(alloc: Global, chains: &[Chain]) -> Result<Vec<Entry>, AllocError>
    requires { length chains.now ≤ MOST_CHAINS }
    ensures { IfOk result (λ entries. entries.items ≡ map (entry_of chains.now) (range_with_len 0 (length chains.now))) }
{
    let mut entries = Vec::with_capacity(alloc, chains.len())?;
    for (number, chain) in chains.iter().enumerate() {
        entries.push(Entry {
            at: first_of(chain),
            number: number as u32,
        })?;
    }
    Ok(entries)
}
