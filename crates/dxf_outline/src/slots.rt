// What an entity's pairs say, kept for each group code that counts.
ghost use Rattle.std.specs.Prelude.{◌≡◌, ◌++◌, ◌∷◌, [], ℕ, List};
ghost use Rattle.std.specs.Ordering.{int_eq};
ghost use Rattle.grid_num.specs.Units.{per_unit_of};
ghost use Rattle.dxf_outline.specs.Kept.{first_of, last_of, with_reading};
ghost use Rattle.dxf_outline.specs.Pairs.{Pair};
ghost use Rattle.dxf_outline.specs.State.{pair_of};
ghost use Rattle.dxf_outline.specs.Values.{flags_of, is_named, least_missing, slots_of};

use crate::pairs::Entry;
use crate::values::{Reading, read_value};
use grid_num::Units;

/// A kind of entity whose values are looked at.
#[derive(Clone, Copy)]
pub(crate) enum Shape {
    Line,
    Circle,
    Arc,
    Polyline,
    Vertex,
}

impl Shape {
    /// Whether the group code is looked at in this kind of entity.
    pub(crate) fn names(self, code: i32) -> bool
        ensures { result ≡ is_named self code }
    {
        match self {
            Shape::Line => code == 10 || code == 11 || code == 20 || code == 21,
            Shape::Circle => code == 10 || code == 20 || code == 40,
            Shape::Arc => code == 10 || code == 20 || code == 40 || code == 50 || code == 51,
            Shape::Polyline => code == 70,
            Shape::Vertex => code == 10 || code == 20 || code == 42 || code == 70,
        }
    }
}

/// What the pairs of an entity say, of which the last one of each code counts.
#[derive(Clone, Copy)]
pub(crate) struct Slots {
    /// The number of the first pair whose value can't be read.
    pub(crate) unreadable: Option<u32>,
    /// The same among the pairs of code 70.
    pub(crate) unreadable_flags: Option<u32>,
    /// Codes 10 and 11.
    pub(crate) x: Option<Reading>,
    pub(crate) end_x: Option<Reading>,
    /// Codes 20 and 21.
    pub(crate) y: Option<Reading>,
    pub(crate) end_y: Option<Reading>,
    /// Code 40.
    pub(crate) radius: Option<Reading>,
    /// Code 42.
    pub(crate) bulge: Option<Reading>,
    /// Codes 50 and 51.
    pub(crate) from: Option<Reading>,
    pub(crate) to: Option<Reading>,
    /// Code 70.
    pub(crate) flags: Option<Reading>,
}

impl Slots {
    /// What no pairs say.
    #[tactic(auto, unfolding(crate::specs::Values::slots_with))]
    pub(crate) fn empty() -> Slots
        ensures { (shape : Shape) (per_unit : ℕ) → result ≡ slots_of shape per_unit [] }
    {
        Slots {
            unreadable: None,
            unreadable_flags: None,
            x: None,
            end_x: None,
            y: None,
            end_y: None,
            radius: None,
            bulge: None,
            from: None,
            to: None,
            flags: None,
        }
    }

    /// Takes one more pair of an entity of this kind.
    pub(crate) fn put(&mut self, shape: Shape, units: Units, entry: Entry<'_>)
        ensures { (fields : List Pair) → self.old ≡ slots_of shape (per_unit_of units) fields → self.new ≡ slots_of shape (per_unit_of units) (fields ++ pair_of entry.entry ∷ []) }
    {
        if shape.names(entry.code) {
            let reading = read_value(units, entry.code, entry.value);
            *self = self.with(entry, reading);
        }
    }

    // With one more pair that has this reading.
    fn with(&self, entry: Entry<'_>, reading: Reading) -> Slots
        ensures { result ≡ with_reading self.now (pair_of entry.entry) reading }
    {
        let is_bad = reading.is_unreadable();
        Slots {
            unreadable: first_of(self.unreadable, is_bad, entry.at),
            unreadable_flags: first_of(
                self.unreadable_flags,
                entry.has_code(70) && is_bad,
                entry.at,
            ),
            x: last_of(entry, 10, reading, self.x),
            end_x: last_of(entry, 11, reading, self.end_x),
            y: last_of(entry, 20, reading, self.y),
            end_y: last_of(entry, 21, reading, self.end_y),
            radius: last_of(entry, 40, reading, self.radius),
            bulge: last_of(entry, 42, reading, self.bulge),
            from: last_of(entry, 50, reading, self.from),
            to: last_of(entry, 51, reading, self.to),
            flags: last_of(entry, 70, reading, self.flags),
        }
    }

    /// The least code that an entity of this kind needs and lacks.
    pub(crate) fn least_missing(&self, shape: Shape) -> Option<u32>
        ensures { result ≡ least_missing shape self.now }
    {
        match shape {
            Shape::Line if self.x.is_none() => Some(10),
            Shape::Line if self.end_x.is_none() => Some(11),
            Shape::Line if self.y.is_none() => Some(20),
            Shape::Line if self.end_y.is_none() => Some(21),
            Shape::Circle | Shape::Arc | Shape::Vertex if self.x.is_none() => Some(10),
            Shape::Circle | Shape::Arc | Shape::Vertex if self.y.is_none() => Some(20),
            Shape::Circle | Shape::Arc if self.radius.is_none() => Some(40),
            Shape::Arc if self.from.is_none() => Some(50),
            Shape::Arc if self.to.is_none() => Some(51),
            _ => None,
        }
    }

    /// The flags of code 70, 0 where there is no number.
    pub(crate) fn flags(&self) -> u64
        ensures { result ≡ flags_of self.now }
    {
        match self.flags {
            Some(Reading::Number(flags)) => flags.unsigned_abs(),
            _ => 0,
        }
    }
}

// The number before, or where there is none, that of the pair if it counts.
fn first_of(before: Option<u32>, counts: bool, at: u32) -> Option<u32>
    ensures { result ≡ first_of before counts at }
{
    match before {
        Some(first) => Some(first),
        None if counts => Some(at),
        None => None,
    }
}

// The reading of the pair where it has this code, or else the one before.
fn last_of(
    entry: Entry<'_>,
    code: i32,
    reading: Reading,
    before: Option<Reading>,
) -> Option<Reading>
    ensures { result ≡ last_of (int_eq entry.entry.code code) reading before }
{
    if entry.has_code(code) {
        Some(reading)
    } else {
        before
    }
}
