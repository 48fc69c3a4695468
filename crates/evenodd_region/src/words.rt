// The bits of a row's words.
ghost use Rattle.std.specs.Prelude.{◌≤◌, ◌*◌, ◌^◌, length};
ghost use Rattle.evenodd_region.specs.RowBits.{IsBelow, IsCleared, IsFlipped, is_between};

/// For the word of this number, the bits that are below `end` among all words' bits.
pub fn ones_below(end: u32, word: usize) -> u64
    requires { word ≤ 2 ^ 27 }
    ensures { IsBelow end word result }
{
    let before = 64 * word as u64;
    let ones = u64::from(end).saturating_sub(before).min(64);
    if ones == 0 {
        0
    } else {
        u64::MAX >> (64 - ones)
    }
}

// Turns each bit below `end` into the other.
pub(crate) fn flip_below(bits: &mut [u64], end: u32)
    requires { end ≤ 64 * length bits.old }
    ensures { IsFlipped end bits.old bits.new }
{
    let whole = end as usize / 64;
    for word in 0..whole {
        bits[word] ^= u64::MAX;
    }
    if end % 64 != 0 {
        bits[whole] ^= ones_below(end, whole);
    }
}

// Clears the bits from `from` to below `end`.
pub(crate) fn clear_between(bits: &mut [u64], from: u32, end: u32)
    requires { end ≤ 64 * length bits.old }
    ensures { IsCleared (is_between from end) bits.old bits.new }
{
    for word in from as usize / 64..(end as usize + 63) / 64 {
        bits[word] &= ones_below(from, word) | !ones_below(end, word);
    }
}
