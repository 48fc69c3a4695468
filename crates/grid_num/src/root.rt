// Square roots of whole numbers.
ghost use Rattle.std.specs.Prelude.{◌≡◌, ◌≤◌, ◌*◌, ℕ};
ghost use Rattle.grid_num.specs.Root.{isqrt_of};

/// The square root of `v`, rounded down: the greatest number whose square is at most `v`.
pub fn isqrt(v: u128) -> u64
    ensures value { result ≡ isqrt_of v }
    ensures root { result * result ≤ v }
    ensures greatest { (r : ℕ) → r * r ≤ v → r ≤ result }
{
    // Half as many turns, of half as many bits, serve for what fits 64 bits.
    match u64::try_from(v) {
        Ok(narrow) => narrow.isqrt(),
        Err(_) => v.isqrt() as u64,
    }
}
