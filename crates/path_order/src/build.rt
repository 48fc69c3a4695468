// The slots and boxes of all chains.
ghost use Rattle.std.specs.Prelude.{◌≡◌, ◌*◌, ◌≤◌, Some, IfOk, length, map};
ghost use Rattle.path_order.specs.Index.{HaveLeaves, HoldsSlot, IsIndex};
ghost use Rattle.path_order.specs.declared.entry.Entry.{Entry};
ghost use Rattle.plane_exact.specs.declared.node.TheConstants.{MOST_CHAINS};

use crate::entry::Entry;
use crate::extent::Extent;
use std::alloc::{AllocError, Global};

// A slot for each entry.
pub fn slots_of(alloc: Global, entries: &[Entry]) -> Result<Vec<Option<Entry>>, AllocError>
    ensures { IfOk result (λ slots. slots.items ≡ map (λ (e : Entry). Some e) entries.now) }
{
    entries.iter().map(|e| Some(*e)).collect(alloc)
}

// The boxes of all nodes.
pub fn extents_of(alloc: Global, slots: &[Option<Entry>]) -> Result<Vec<Extent>, AllocError>
    requires { length slots.now ≤ MOST_CHAINS }
    ensures { IfOk result (λ extents. IsIndex slots.now extents.items) }
{
    let mut extents = leaves_of(alloc, slots)?;
    let mut node = slots.len();
    while node > 1 {
        node -= 1;
        extents[node] = extents[2 * node].join(extents[2 * node + 1]);
    }
    Ok(extents)
}

// The boxes of the slots, behind as many empty ones.
fn leaves_of(alloc: Global, slots: &[Option<Entry>]) -> Result<Vec<Extent>, AllocError>
    requires { length slots.now ≤ MOST_CHAINS }
    ensures { IfOk result (λ extents. HaveLeaves slots.now extents.items) }
{
    let mut extents = Vec::with_capacity(alloc, 2 * slots.len())?;
    extents.resize(slots.len(), Extent::empty())?;
    for slot in slots {
        extents.push(box_of(*slot))?;
    }
    Ok(extents)
}

// The box of what is in a slot.
fn box_of(slot: Option<Entry>) -> Extent
    ensures { HoldsSlot result slot }
{
    match slot {
        Some(entry) => Extent::of(entry),
        None => Extent::empty(),
    }
}
