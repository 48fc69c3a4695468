// A range of coordinates, maybe an empty one.
ghost use Rattle.plane_exact.specs.Plane.{IsCoordinate};

// All coordinates from `low` to `high`, none where `low` is greater.
#[derive(Clone, Copy, Drop)]
pub struct Span {
    low: i32,
    high: i32,
    ghost low_in: { IsCoordinate low },
    ghost high_in: { IsCoordinate high },
}

impl Span {
    ghost use Rattle.std.specs.Prelude.{◌⊎◌, ℤ, pos, ◌-ℤ◌, ◌*ℤ◌, ◌≤ℤ◌, IsTrue};
    ghost use Rattle.integer_algebra.specs.Ranges.{IsWithin};
    ghost use Rattle.plane_exact.specs.Plane.{IsCoordinate};
    ghost use Rattle.path_order.specs.Extents.{IsInsideSpan};
    ghost use Rattle.path_order.specs.declared.span.Span.{Span};

    // No coordinate.
    pub fn empty() -> Span
        ensures none { (t : ℤ) → ¬ IsWithin result.low result.high t }
        ensures inside { (s : Span) → IsInsideSpan result s }
    {
        Span {
            low: 32_767,
            high: -32_768,
        }
    }

    // One coordinate.
    pub fn of(at: i32) -> Span
        requires { IsCoordinate at }
        ensures { IsWithin result.low result.high at }
    {
        Span { low: at, high: at }
    }

    // The least span that both are inside.
    pub fn join(self, other: Span) -> Span
        ensures first { IsInsideSpan self result }
        ensures second { IsInsideSpan other result }
        ensures least { (s : Span) → IsInsideSpan self s → IsInsideSpan other s → IsInsideSpan result s }
    {
        Span {
            low: self.low.min(other.low),
            high: self.high.max(other.high),
        }
    }

    pub fn is_empty(self) -> bool
        ensures { IsTrue result → (t : ℤ) → ¬ IsWithin self.low self.high t }
    {
        self.high < self.low
    }

    // How far `at` is outside, 0 within.
    fn gap(self, at: i32) -> i64
        requires { IsCoordinate at }
        ensures range { IsWithin (pos 0) (pos 65535) result }
        ensures least { (t : ℤ) → IsWithin self.low self.high t → (result ≤ℤ (t -ℤ at)) ⊎ (result ≤ℤ (at -ℤ t)) }
    {
        if at < self.low {
            self.low as i64 - at as i64
        } else if self.high < at {
            at as i64 - self.high as i64
        } else {
            0
        }
    }

    // No coordinate of the span has a less squared distance from `at`.
    pub fn square_gap(self, at: i32) -> i64
        requires { IsCoordinate at }
        ensures range { IsWithin (pos 0) (pos 4294836225) result }
        ensures least { (t : ℤ) → IsWithin self.low self.high t → result ≤ℤ ((t -ℤ at) *ℤ (t -ℤ at)) }
    {
        let gap = self.gap(at);
        gap * gap
    }
}
