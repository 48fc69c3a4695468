// The chains that aren't cut yet, and the nearest of them.
ghost use Rattle.std.specs.Prelude.{◌≡◌, ℕ, ◌+◌, ◌*◌, ◌<◌, ◌≤◌, [], None, All, IfNone, IfOk, IfSome, length, slice_index_or, slice_set, vec_len};
ghost use Rattle.path_order.specs.Entries.{AreAllEntries, TakesNearest};
ghost use Rattle.path_order.specs.Found.{IsKnown, IsNearestOf};
ghost use Rattle.path_order.specs.Index.{AreChildren, IsBelow, IsIndex};
ghost use Rattle.path_order.specs.Left.{IsIndexed, entries_left};
ghost use Rattle.plane_exact.specs.declared.node.TheConstants.{MOST_CHAINS};

use crate::build::{extents_of, slots_of};
use crate::curve::place_on_curve;
use crate::entry::{Entry, entries_of};
use crate::extent::Extent;
use crate::found::{Found, is_beyond};
use plane_exact::{Chain, Point, dot};
use std::alloc::{AllocError, Global};

// The entries lie in a binary tree of boxes: below node i are the nodes 2 i and 2 i + 1, and its last nodes are the slots,
// in the order of a curve: entries near each other in the tree lie near each other, so that a search passes over most of it.
#[derive(Drop)]
pub struct Left {
    // None where the chain is taken.
    slots: Vec<Option<Entry>>,
    // A box for each node, from 1 on, which holds the entries below it.
    extents: Vec<Extent>,
}

impl Left {
    // All chains.
    pub fn of(alloc: Global, chains: &[Chain]) -> Result<Left, AllocError>
        requires { length chains.now ≤ MOST_CHAINS }
        ensures indexed { IfOk result (λ left. IsIndexed left) }
        ensures all { IfOk result (λ left. AreAllEntries chains.now (entries_left left)) }
    {
        let mut entries = entries_of(alloc, chains)?;
        entries.sort_by_cached_key(|e| place_on_curve(e.at))?;
        let slots = slots_of(alloc, &entries)?;
        let extents = extents_of(alloc, &slots)?;
        Ok(Left { slots, extents })
    }

    // Takes out the nearest chain that is left, and gives its number.
    pub fn take_nearest(&mut self, place: Point) -> Option<u32>
        requires { IsIndexed self.old }
        ensures indexed { IsIndexed self.new }
        ensures taken { IfSome result (TakesNearest place (entries_left self.old) (entries_left self.new)) }
        ensures none { IfNone result (entries_left self.old ≡ []) }
    {
        if self.slots.is_empty() {
            return None;
        }
        let found = self.search(1, place, None)?;
        self.take_out(found.slot);
        Some(found.number)
    }

    // The nearest of the best so far and of what is left below a node.
    fn search(&self, node: usize, place: Point, best: Option<Found>) -> Option<Found>
        requires indexed { IsIndexed self.now }
        requires some { 1 ≤ node }
        requires node { node < vec_len self.now.extents }
        requires best { IsKnown place self.now.slots.items best }
        ensures { IsNearestOf place self.now.slots.items (IsBelow (length self.now.slots.items) node) best result }
    {
        if is_beyond(self.extents[node], place, best) {
            return best;
        }
        let leaves = self.slots.len();
        if node >= leaves {
            return self.nearer(node - leaves, place, best);
        }
        let (near, far) = self.children(node, place);
        let found = self.search(near, place, best);
        self.search(far, place, found)
    }

    // The two nodes below one, first that whose box is nearer.
    fn children(&self, node: usize, place: Point) -> (usize, usize)
        requires few { vec_len self.now.extents ≤ 2 * MOST_CHAINS }
        requires node { 2 * node + 1 < vec_len self.now.extents }
        ensures { AreChildren node result.0 result.1 }
    {
        let (first, second) = (2 * node, 2 * node + 1);
        if self.extents[second].way_from(place) < self.extents[first].way_from(place) {
            return (second, first);
        }
        (first, second)
    }

    // The nearer of the best so far and what is left in a slot.
    fn nearer(&self, slot: usize, place: Point, best: Option<Found>) -> Option<Found>
        requires slot { slot < length self.now.slots.items }
        requires best { IsKnown place self.now.slots.items best }
        ensures { IsNearestOf place self.now.slots.items (λ j. j ≡ slot) best result }
    {
        let Some(entry) = self.slots[slot] else {
            return best;
        };
        let found = Found {
            slot,
            way: dot(place, entry.at, entry.at),
            number: entry.number,
        };
        match best {
            Some(held) if held.is_before(found) => best,
            _ => Some(found),
        }
    }

    // Takes out what is in a slot, and draws the boxes above it in.
    fn take_out(&mut self, slot: usize)
        requires indexed { IsIndexed self.old }
        requires slot { slot < length self.old.slots.items }
        ensures indexed { IsIndexed self.new }
        ensures slots { self.new.slots.items ≡ slice_set self.old.slots.items slot None }
    {
        self.slots[slot] = None;
        let mut node = self.slots.len() + slot;
        self.extents[node] = Extent::empty();
        while node > 1 {
            node /= 2;
            self.extents[node] = self.extents[2 * node].join(self.extents[2 * node + 1]);
        }
    }
}
