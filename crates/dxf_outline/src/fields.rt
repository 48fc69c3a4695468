// Goes through the pairs of a file one by one, and takes those of an entity together.
ghost use Rattle.std.specs.Prelude.{◌≡◌, ◌≢◌, ◌≤◌, ◌<◌, ◌^◌, ◌+◌, ℕ, IfErr, IfOk, IsTrue, OnOk, Ok, Err, length};
ghost use Rattle.grid_num.specs.Units.{per_unit_of};
ghost use Rattle.dxf_outline.specs.Outline.{begins_entities, slots_in};
ghost use Rattle.dxf_outline.specs.Pairs.{count_of, pairs_of};
ghost use Rattle.dxf_outline.specs.State.{LeadsOn, headed_by, pairs_left};

use crate::ahead::Pairs;
use crate::fault::{DxfFault, DxfKind};
use crate::pairs::{Head, read_pair};
use crate::slots::{Shape, Slots};
use crate::texts::Texts;
use grid_num::Units;

impl<'a> Pairs<'a> {
    /// The pairs of a file of fewer than 2^31 bytes.
    pub(crate) fn of(bytes: &'a [u8]) -> Pairs<'a>
        requires { length bytes.now < 2 ^ 31 }
        ensures { pairs_left result ≡ pairs_of bytes.now }
    {
        let mut texts = Texts::of(bytes);
        let head = read_pair(&mut texts, 1);
        Pairs { head, at: 2, texts }
    }

    /// What stands first, and goes on behind it. It stays at what ends the file.
    pub(crate) fn next(&mut self) -> Head<'a>
        ensures which { result ≡ self.old.head }
        ensures pairs { pairs_left self.old ≡ headed_by result (pairs_left self.new) }
    {
        let head = self.head;
        if let Head::Next(_) = head {
            self.head = read_pair(&mut self.texts, self.at);
            if let Head::Next(_) = self.head {
                self.at += 1;
            }
        }
        head
    }

    /// Whether the next pair is `2 ENTITIES`.
    #[tactic(auto, unfolding(crate::specs::Outline::begins_entities))]
    pub(crate) fn begins_entities(&self) -> bool
        ensures { result ≡ begins_entities (pairs_left self.now) }
    {
        match self.head {
            Head::Next(entry) => entry.is(2, b"ENTITIES"),
            Head::Over | Head::BadCode(_) | Head::Unended(_) => false,
        }
    }

    /// What the pairs of the entity that has begun say, up to the next pair of code 0 or the end of the file.
    pub(crate) fn take_slots(&mut self, shape: Shape, units: Units) -> Result<Slots, DxfFault>
        ensures slots { IfOk result (λ slots. slots_in shape (per_unit_of units) (pairs_left self.old) ≡ Ok slots) }
        ensures fault { IfErr result (λ f. slots_in shape (per_unit_of units) (pairs_left self.old) ≡ Err f) }
        ensures memory { IfErr result (λ f. f.kind ≡ DxfKind.Memory → f.pair ≡ 0) }
        ensures fewer { count_of (pairs_left self.new) ≤ count_of (pairs_left self.old) }
        ensures skips { OnOk result (LeadsOn (pairs_left self.old) (pairs_left self.new)) }
    {
        let mut slots = Slots::empty();
        'fields: loop {
            match self.head {
                Head::Over => return Ok(slots),
                Head::BadCode(pair) => return Err(DxfFault::at(pair, DxfKind::BadCode)),
                Head::Unended(pair) => return Err(DxfFault::at(pair, DxfKind::Unended)),
                Head::Next(entry) => {
                    if entry.has_code(0) {
                        return Ok(slots);
                    }
                    slots.put(shape, units, entry);
                    let _taken = self.next();
                }
            }
        }
    }
}
