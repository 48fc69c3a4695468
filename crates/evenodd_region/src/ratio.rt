// Rational points near the grid.
ghost use Rattle.std.specs.Prelude.{◌≡◌};
ghost use Rattle.evenodd_region.specs.Lookup.{IsRatio};

// The point (x / over, y / over).
#[derive(Clone, Copy)]
pub(crate) struct RatioPoint {
    pub x: i64,
    pub y: i64,
    pub over: i64,
    ghost range: { IsRatio x y over },
}

impl RatioPoint {
    // The point with its coordinates exchanged, so that its column is a row.
    pub(crate) fn exchanged(self) -> RatioPoint
        ensures x { result.x ≡ self.y }
        ensures y { result.y ≡ self.x }
        ensures over { result.over ≡ self.over }
    {
        RatioPoint {
            x: self.y,
            y: self.x,
            over: self.over,
        }
    }
}
