// Cases whose answers are known without the tests of the crate.
ghost use Rattle.std.specs.Prelude.{pos, ◌≤ℤ◌};

use lane_kernels::{Rect, and_not, boxes_hit, count_ones};
use std::test::Fail;

// A box five wide, the k-th of a row in which they begin three apart, from -100 on. Each third lies above all that is asked.
fn nth(k: i32) -> Rect
    requires { (pos 0 ≤ℤ k) × (k ≤ℤ pos 67) }
{
    let x0 = 3 * k - 100;
    let y0 = if k % 3 == 0 { 50 } else { 0 };
    Rect {
        x0,
        y0,
        x1: x0 + 5,
        y1: y0 + 5,
    }
}

#[test]
fn all_lengths(rt: HostRuntime) -> Result<(), Fail> {
    let q = Rect {
        x0: -20,
        y0: -3,
        x1: 20,
        y1: 0,
    };
    let mut boxes = [Rect::default(); 67];
    for k in 0..67 {
        boxes[k] = nth(k as i32);
    }
    for count in 0..=67 {
        let mut out = [9; 67];
        boxes_hit(&boxes[..count], q, &mut out[..count]);
        for k in 0..67 {
            let hit = (k >= 25 && k <= 40 && k % 3 != 0) as u8;
            assert_eq!(rt;
                out[k],
                if k < count { hit } else { 9 },
                "box {k} of {count}"
            );
        }
    }
    Ok(())
}

// Nine words with eight ones each, of which the first ones, up to `count` of them, lost four.
fn without_high_ones(count: usize) -> [u64; 9] {
    let count = count.min(9);
    let mut words = [0xff; 9];
    and_not(&mut words[..count], &[0xf0; 9][..count]);
    words
}

// The ones of the first words, up to `count` of them.
fn ones_of_first(words: &[u64; 9], count: usize) -> u64 {
    count_ones(&words[..count.min(9)])
}

#[test]
fn all_counts_of_words(rt: HostRuntime) {
    for count in 0..=9 {
        let words = without_high_ones(count);
        for k in 0..9 {
            assert_eq!(rt;
                words[k],
                if k < count { 0x0f } else { 0xff },
                "word {k} of {count}"
            );
        }
        assert_eq!(rt; count_ones(&words), 72 - 4 * count as u64);
        assert_eq!(rt; ones_of_first(&words, count), 4 * count as u64);
    }
}
