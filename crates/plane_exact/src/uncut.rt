// What a program leaves uncut: runs of grid points, and how many points there are.
use std::marker::Model;

/// Points of one row that are left uncut: those from `x0` to `x1`, both among them, at the distance of the report, in grid
/// units. Each number is from -32,768 to 32,767.
#[derive(Clone, Copy, Debug, PartialEq, Eq)]
pub struct Run {
    pub y: i32,
    pub x0: i32,
    pub x1: i32,
}

impl Model for Run {
    ghost use Rattle.plane_exact.specs.Uncut.{GridRun, IsRun};

    ghost Value = { GridRun };

    ghost view = { λ r. record { y = r.y; x0 = r.x0; x1 = r.x1 } };

    ghost invariant = { λ r. IsRun r.y r.x0 r.x1 };

    ghost inverse = { λ g. record { y = g.y; x0 = g.x0; x1 = g.x1 } };
}

/// Which points of a drawing are left uncut.
#[derive(Debug, Drop)]
pub struct Uncut {
    /// The points that are left, in runs.
    pub runs: Vec<Run>,
    /// How many points the drawing holds.
    pub drawing: u64,
    /// How many of them are left.
    pub left: u64,
}

impl Model for Uncut {
    ghost use Rattle.plane_exact.specs.Uncut.{UncutPoints};

    ghost Value = { UncutPoints };

    ghost view = { λ u. record { runs = u.runs.items; drawing = u.drawing; left = u.left } };
}
