// The nearest chain that a search has found so far.
ghost use Rattle.std.specs.Prelude.{◌↔◌, IsTrue};
ghost use Rattle.path_order.specs.Order.{IsBefore};
ghost use Rattle.path_order.specs.Extents.{Holds};
ghost use Rattle.path_order.specs.Found.{IsNoLater};
ghost use Rattle.path_order.specs.declared.entry.Entry.{Entry};

use crate::extent::Extent;
use plane_exact::Point;

#[derive(Clone, Copy, Drop)]
pub struct Found {
    pub slot: usize,
    pub way: i64,
    pub number: u32,
}

impl Found {
    // Whether this one is nearer, or as near and of no greater number.
    pub fn is_before(self, other: Found) -> bool
        ensures { IsTrue result ↔ IsBefore self.way self.number other.way other.number }
    {
        if self.way < other.way {
            return true;
        }
        if other.way < self.way {
            return false;
        }
        self.number <= other.number
    }
}

// Whether nothing in the box can come before the best so far: it is empty, or farther away, or as far and with
// greater numbers.
pub fn is_beyond(extent: Extent, place: Point, best: Option<Found>) -> bool
    ensures { IsTrue result → (e : Entry) → Holds extent e → IsNoLater place best e }
{
    if extent.is_empty() {
        return true;
    }
    let Some(found) = best else {
        return false;
    };
    let way = extent.way_from(place);
    if found.way < way {
        return true;
    }
    if way < found.way {
        return false;
    }
    found.number <= extent.least()
}
