// The points of a report, row by row.
ghost use Rattle.std.specs.Prelude.{◌≡◌, ◌*◌, MatchOption};
ghost use Rattle.plane_exact.specs.Cone.{IsFromOneTo};
ghost use Rattle.plane_exact.specs.Plane.{GridPoint};
ghost use Rattle.coverage_report.specs.Lattices.{IsBoxPoint, IsLatticeIn};

use crate::cover::MOST_PITCH;
use crate::row::Row;
use depth_rule::{Bounds, ticks_between};
use std::marker::Model;

/// Rows of points of the grid, at least one, each with the same columns: from (x, y) on to the right and upwards at this pitch, in
/// grid units.
#[derive(Clone, Copy, Debug, PartialEq, Eq)]
pub struct Lattice {
    y: i32,
    x: i32,
    pitch: u32,
    columns: u32,
    rows: u32,
}

impl Model for Lattice {
    ghost use Rattle.coverage_report.specs.Lattices.{IsPointLattice, PointLattice};

    ghost Value = { PointLattice };

    ghost view = { λ l. record { y = l.y; x = l.x; pitch = l.pitch; columns = l.columns; rows = l.rows } };

    ghost invariant = { λ l. IsPointLattice (record { y = l.y; x = l.x; pitch = l.pitch; columns = l.columns; rows = l.rows }) };

    ghost inverse = { λ p. record { y = p.y; x = p.x; pitch = p.pitch; columns = p.columns; rows = p.rows } };
}

impl Lattice {
    ghost use Rattle.std.specs.Prelude.{◌≡◌, ◌<◌, ◌*◌};
    ghost use Rattle.coverage_report.specs.Lattices.{IsPointLattice, row_at};

    /// How many rows it has.
    pub fn rows(&self) -> u32
        ensures value { result ≡ self.now.rows }
        ensures range { IsPointLattice self.now }
    {
        self.rows
    }

    /// How many points each row has.
    pub fn columns(&self) -> u32
        ensures value { result ≡ self.now.columns }
        ensures range { IsPointLattice self.now }
    {
        self.columns
    }

    /// How many points it has.
    pub fn count(&self) -> u64
        ensures { result ≡ self.now.rows * self.now.columns }
    {
        u64::from(self.rows) * u64::from(self.columns)
    }

    /// The row of this number, from 0, the lowest.
    pub fn row(&self, k: u32) -> Row
        requires { k < self.now.rows }
        ensures { result ≡ row_at self.now k }
    {
        Row {
            y: self.y + (k * self.pitch) as i32,
            x: self.x,
            pitch: self.pitch,
            count: self.columns,
        }
    }
}

/// The points of the box whose coordinates are multiples of the pitch; None where there is no such point.
pub fn lattice_of(bounds: Bounds, pitch: u32) -> Option<Lattice>
    requires { IsFromOneTo MOST_PITCH pitch }
    ensures { MatchOption result ((p : GridPoint) → ¬ IsBoxPoint bounds.low bounds.high pitch p) (λ lattice. IsLatticeIn bounds.low bounds.high pitch lattice) }
{
    let across = ticks_between(bounds.low.x(), bounds.high.x(), pitch)?;
    let up = ticks_between(bounds.low.y(), bounds.high.y(), pitch)?;
    Some(Lattice {
        y: up.first,
        x: across.first,
        pitch,
        columns: across.count,
        rows: up.count,
    })
}
