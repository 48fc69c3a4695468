// A box of entries, maybe an empty one.
ghost use Rattle.std.specs.Prelude.{◌^◌, ◌<◌};

use crate::entry::Entry;
use crate::span::Span;
use plane_exact::Point;

// All entries with both coordinates in these ranges and no number below `least`.
#[derive(Clone, Copy, Drop)]
pub struct Extent {
    across: Span,
    up: Span,
    least: u32,
    ghost least_in: { least < 2 ^ 32 },
}

impl Extent {
    ghost use Rattle.std.specs.Prelude.{◌≡◌, ◌≤ℤ◌, IsTrue};
    ghost use Rattle.plane_exact.specs.Product.{dot_of};
    ghost use Rattle.path_order.specs.Extents.{Holds, IsInside};
    ghost use Rattle.path_order.specs.declared.entry.Entry.{Entry};
    ghost use Rattle.path_order.specs.declared.extent.Extent.{Extent};

    // No entry.
    pub fn empty() -> Extent
        ensures { (b : Extent) → IsInside result b }
    {
        Extent {
            across: Span::empty(),
            up: Span::empty(),
            least: u32::MAX,
        }
    }

    // One entry.
    pub fn of(entry: Entry) -> Extent
        ensures { Holds result entry }
    {
        Extent {
            across: Span::of(entry.at.x()),
            up: Span::of(entry.at.y()),
            least: entry.number,
        }
    }

    // The least extent that both are inside.
    pub fn join(self, other: Extent) -> Extent
        ensures first { IsInside self result }
        ensures second { IsInside other result }
        ensures least { (b : Extent) → IsInside self b → IsInside other b → IsInside result b }
    {
        Extent {
            across: self.across.join(other.across),
            up: self.up.join(other.up),
            least: self.least.min(other.least),
        }
    }

    pub fn is_empty(self) -> bool
        ensures { IsTrue result → (e : Entry) → ¬ Holds self e }
    {
        self.across.is_empty() || self.up.is_empty()
    }

    // No entry of the extent has a less number.
    pub fn least(self) -> u32
        ensures { result ≡ self.least }
    {
        self.least
    }

    // No entry of the extent has a less squared distance from the place.
    pub fn way_from(self, place: Point) -> i64
        ensures { (e : Entry) → Holds self e → result ≤ℤ dot_of place e.at e.at }
    {
        self.across.square_gap(place.x()) + self.up.square_gap(place.y())
    }
}
