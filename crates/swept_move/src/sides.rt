// Sides of lines: where a point stands by the sign of a cross product, and whether two stand on opposite sides.
ghost use Rattle.std.specs.Prelude.{◌≡◌, ◌↔◌, pos, ◌+ℤ◌, ◌*ℤ◌, ◌<ℤ◌, IsTrue};
ghost use Rattle.swept_move.specs.Range.{IsFineProduct};
ghost use Rattle.integer_algebra.specs.Ranges.{IsUpTo};

// Whether one of two numbers is above 0 and the other below.
pub fn are_opposite(a: i64, b: i64) -> bool
    ensures { IsTrue result ↔ ((a *ℤ b) <ℤ pos 0) }
{
    if a < 0 { b > 0 } else { a > 0 && b < 0 }
}

// The side at the moment `k / over`, times `over`: at the start it is `base`, and `turn` is what the whole move adds.
pub fn side_at(k: i64, over: i64, base: i64, turn: i64) -> i64
    requires k { IsUpTo (pos 655340) k }
    requires over { IsUpTo (pos 655340) over }
    requires base { IsFineProduct base }
    requires turn { IsFineProduct turn }
    ensures { result ≡ over *ℤ base +ℤ k *ℤ turn }
{
    over * base + k * turn
}
