// The segments that no loop has taken yet, and the first of them at a point.
ghost use Rattle.std.specs.Prelude.{◌≡◌, ℕ, ◌<◌, ◌≤◌, ◌∷◌, [], None, Some, IfOk, IsSome, MatchOption, length, map, slice_index_or, slice_set};
ghost use Rattle.std.specs.List.{find};
ghost use Rattle.loop_join.specs.Ends.{has_end, without_first};
ghost use Rattle.loop_join.specs.Index.{AreIndexed, IsFirstFilled};

use crate::ends::{End, end_at, least_number};
use engrave_model::MOST_EDGES;
use plane_exact::{Point, Seg};
use std::alloc::{AllocError, Global};
use std::collections::BTreeSet;
use std::marker::Model;

// Segments in the order of their numbers.
#[derive(Drop)]
pub struct Unused {
    // By the numbers; None where the segment is taken.
    slots: Vec<Option<Seg>>,
    // Both ends of each segment that isn't taken.
    ends: BTreeSet<End>,
    // No slot before it has a segment.
    from: usize,
}

impl Model for Unused {
    ghost use Rattle.std.specs.Prelude.{List};
    ghost use Rattle.plane_exact.specs.declared.point.Seg.{Seg};
    ghost use Rattle.loop_join.specs.Index.{IsIndex, unused_in};

    ghost Value = { List Seg };

    ghost view = { λ u. unused_in u.slots.items };

    ghost invariant = { λ u. IsIndex u.slots.items u.ends u.from };
}

impl Unused {
    // All segments, numbered from 0.
    pub fn all(alloc: Global, segs: &[Seg]) -> Result<Unused, AllocError>
        requires { length segs.now ≤ MOST_EDGES }
        ensures { IfOk result (λ unused. unused ≡ segs.now) }
    {
        let slots = slots_of(alloc, segs)?;
        let ends = ends_of(alloc, segs)?;
        Ok(Unused {
            slots,
            ends,
            from: 0,
        })
    }

    // Takes the segment of the lowest number.
    pub fn take_first(&mut self) -> Option<Seg>
        ensures { MatchOption result (self.old ≡ []) (λ s. self.old ≡ s ∷ self.new) }
    {
        let number = first_filled(&self.slots, self.from)?;
        self.from = number;
        Some(take_out(&mut self.slots, &mut self.ends, number as u32))
    }

    // Takes the segment of the lowest number that ends at the point.
    pub fn take_at(&mut self, p: Point) -> Option<Seg>
        ensures found { result ≡ find (has_end p) self.old }
        ensures left { self.new ≡ without_first p self.old }
    {
        let number = least_number(&self.ends, p)?;
        Some(take_out(&mut self.slots, &mut self.ends, number))
    }
}

// Each segment in the slot of its number.
fn slots_of(alloc: Global, segs: &[Seg]) -> Result<Vec<Option<Seg>>, AllocError>
    ensures { IfOk result (λ slots. slots.items ≡ map Some segs.now) }
{
    segs.iter().copied().map(Some).collect(alloc)
}

// Both ends of each segment.
fn ends_of(alloc: Global, segs: &[Seg]) -> Result<BTreeSet<End>, AllocError>
    requires { length segs.now ≤ MOST_EDGES }
    ensures { IfOk result (λ ends. AreIndexed (map Some segs.now) ends) }
{
    let mut ends = BTreeSet::new(alloc);
    for (number, seg) in segs.iter().enumerate() {
        ends.insert(end_at(seg.a, number as u32))?;
        ends.insert(end_at(seg.b, number as u32))?;
    }
    Ok(ends)
}

// The first slot with a segment, where those before the given one have none.
fn first_filled(slots: &[Option<Seg>], from: usize) -> Option<usize>
    requires { (j : ℕ) → j < from → slice_index_or slots.now j None ≡ None }
    ensures { IsFirstFilled slots.now result }
{
    for number in from..slots.len() {
        if slots[number].is_some() {
            return Some(number);
        }
    }
    None
}

// Takes the segment out of the slot of its number, and its ends.
fn take_out(slots: &mut Vec<Option<Seg>>, ends: &mut BTreeSet<End>, number: u32) -> Seg
    requires filled { IsSome (slice_index_or slots.old.items number None) }
    requires indexed { AreIndexed slots.old.items ends.old }
    ensures value { slice_index_or slots.old.items number None ≡ Some result }
    ensures slots { slots.new.items ≡ slice_set slots.old.items number None }
    ensures indexed { AreIndexed slots.new.items ends.new }
{
    let Some(seg) = slots[number as usize] else {
        unreachable!();
    };
    slots[number as usize] = None;
    ends.remove(&end_at(seg.a, number));
    ends.remove(&end_at(seg.b, number));
    seg
}
