// Sets as the bits of many words.
ghost use Rattle.std.specs.Prelude.{◌≡◌, ◌+◌, ◌*◌, ◌^◌, ◌≤◌, length, sum_by};
ghost use Rattle.std.specs.Simd.Lanes.{chunk, put_chunk, zip2};
ghost use Rattle.std.specs.Int.RustNames.{count_ones};
ghost use Rattle.lane_kernels.specs.Words.{without};

use std::simd::u64x4;

// Clears four words.
fn clear_four(a: &mut [u64], b: &[u64], at: usize)
    requires room { at + 4 ≤ length a.old }
    requires same { length a.old ≡ length b.now }
    ensures { a.new ≡ put_chunk at a.old (zip2 without (chunk at 4 a.old) (chunk at 4 b.now)) }
{
    let cleared = u64x4::from_slice(&a[at..]) & !u64x4::from_slice(&b[at..]);
    cleared.copy_to_slice(&mut a[at..]);
}

// Clears word by word.
fn clear_words(a: &mut [u64], b: &[u64])
    requires { length a.old ≡ length b.now }
    ensures { a.new ≡ zip2 without a.old b.now }
{
    for i in 0..a.len() {
        a[i] &= !b[i];
    }
}

/// Clears in each word of `a` the bits that are set in the word of `b` with the same place.
pub fn and_not(a: &mut [u64], b: &[u64])
    requires { length a.old ≡ length b.now }
    ensures { a.new ≡ zip2 without a.old b.now }
{
    let mut at = 0;
    while a.len() - at >= 4 {
        clear_four(a, b, at);
        at += 4;
    }
    clear_words(&mut a[at..], &b[at..]);
}

// How many bits of one word are set.
fn ones(word: u64) -> u64
    ensures value { result ≡ count_ones word }
    ensures few { result ≤ 64 }
{
    word.count_ones() as u64
}

// How many bits of four words are set.
fn ones_of_four(words: &[u64], at: usize) -> u64
    requires { at + 4 ≤ length words.now }
    ensures { result ≡ sum_by count_ones (chunk at 4 words.now) }
{
    u64x4::from_slice(&words[at..]).count_ones().reduce_sum()
}

// Counts word by word.
fn ones_of_words(words: &[u64]) -> u64
    requires { length words.now ≤ 2 ^ 32 }
    ensures value { result ≡ sum_by count_ones words.now }
    ensures few { result ≤ 64 * length words.now }
{
    let mut count = 0;
    for word in words {
        count += ones(*word);
    }
    count
}

/// How many bits are set in all the words, of which there are at most 2^32.
pub fn count_ones(words: &[u64]) -> u64
    requires { length words.now ≤ 2 ^ 32 }
    ensures { result ≡ sum_by count_ones words.now }
{
    let mut count = 0;
    let mut at = 0;
    while words.len() - at >= 4 {
        count += ones_of_four(words, at);
        at += 4;
    }
    count + ones_of_words(&words[at..])
}
