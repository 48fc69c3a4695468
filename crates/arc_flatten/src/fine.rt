// Points in thousandths of a grid unit.
use std::marker::Model;

/// The greatest size of a number of a `Fine`.
pub const MOST_FINE: u64 = 2_000_000_000_000;

/// A point, in thousandths of a grid unit. Both numbers are at most 2,000,000,000,000 in size.
#[derive(Clone, Copy, Debug, PartialEq, Eq)]
pub struct Fine {
    pub x: i64,
    pub y: i64,
}

impl Model for Fine {
    ghost use Rattle.arc_flatten.specs.Points.{FinePoint, AreFine};

    ghost Value = { FinePoint };

    ghost view = { λ p. record { x = p.x; y = p.y } };

    ghost invariant = { λ p. AreFine p.x p.y };

    ghost inverse = { λ p. record { x = p.x; y = p.y } };
}
