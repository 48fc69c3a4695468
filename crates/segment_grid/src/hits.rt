// The numbers of the boxes of a part of a row that meet a box.
ghost use Rattle.std.specs.Prelude.{◌≡◌, IfNone, IsTrue, [], ◌++◌, ◌<◌, ◌≤◌, length, min};
ghost use Rattle.std.specs.Iterator.{YieldsFirst, item_count};
ghost use Rattle.lane_kernels.specs.declared.boxes.Rect.{Rect};
ghost use Rattle.segment_grid.specs.Near.{hits};
ghost use Rattle.segment_grid.specs.Walk.{entries_ahead, flags_left, hits_ahead, hits_left};

use lane_kernels::{Rect, boxes_hit};

// How many boxes are tested at once.
const CHUNK: usize = 16;
// Fewer boxes than these are tested one by one.
const FEW: usize = 4;

// The numbers of boxes that were tested at once, with a flag for each from the flag `at` on: not 0 where its box is met.
#[derive(Debug, Drop)]
pub struct Chunk<'a> {
    numbers: &'a [u32],
    flags: [u8; CHUNK],
    at: usize,
}

impl<'a> Chunk<'a> {
    fn none() -> Chunk<'a>
        ensures { flags_left result ≡ [] }
    {
        Chunk {
            numbers: &[],
            flags: [0; CHUNK],
            at: 0,
        }
    }

    // Whether no flag is set, which is seen without going through them.
    fn is_unset(&self) -> bool
        ensures { IsTrue result → flags_left self.now ≡ [] }
    {
        self.flags == [0; CHUNK]
    }
}

impl<'a> Iterator for Chunk<'a> {
    type Item = u32;

    ghost next_gives = { YieldsFirst flags_left };

    ghost remaining = { item_count flags_left };

    fn next(&mut self) -> Option<u32> {
        while let Some((number, numbers)) = self.numbers.split_first() {
            let flag = *self.flags.get(self.at)?;
            self.numbers = numbers;
            self.at += 1;
            if flag != 0 {
                return Some(*number);
            }
        }
        None
    }
}

// Numbered boxes that are still to be tested.
#[derive(Debug, Drop)]
pub struct Untested<'a> {
    pub numbers: &'a [u32],
    pub boxes: &'a [Rect],
}

impl<'a> Untested<'a> {
    fn len(&self) -> usize
        ensures { result ≡ min (length self.now.numbers.now) (length self.now.boxes.now) }
    {
        self.numbers.len().min(self.boxes.len())
    }

    // Tests one by one, up to the first that is met.
    fn next_met(&mut self, q: Rect) -> Option<u32>
        ensures { YieldsFirst (hits_ahead q) self.old result self.new }
    {
        while let Some((number, numbers)) = self.numbers.split_first() {
            let (corners, boxes) = self.boxes.split_first()?;
            self.numbers = numbers;
            self.boxes = boxes;
            if q.is_met(*corners) {
                return Some(*number);
            }
        }
        None
    }

    // Tests the next chunk.
    fn test_chunk(&mut self, q: Rect) -> Chunk<'a>
        requires { 0 < min (length self.old.numbers.now) (length self.old.boxes.now) }
        ensures left { flags_left result ++ hits_ahead q self.new ≡ hits_ahead q self.old }
        ensures fewer { length self.new.boxes.now < length self.old.boxes.now }
    {
        let count = self.len().min(CHUNK);
        let mut flags = [0; CHUNK];
        let (tested, boxes) = self.boxes.split_at(count);
        let (numbers, rest) = self.numbers.split_at(count);
        boxes_hit(tested, q, &mut flags[..count]);
        self.numbers = rest;
        self.boxes = boxes;
        Chunk {
            numbers,
            flags,
            at: 0,
        }
    }
}

// The numbers of boxes that meet an asked one, in order.
#[derive(Debug, Drop)]
pub struct Hits<'a> {
    chunk: Chunk<'a>,
    rest: Untested<'a>,
}

impl<'a> Hits<'a> {
    // Of no boxes.
    pub(crate) fn none() -> Hits<'a>
        ensures { (q : Rect) → hits_left q result ≡ [] }
    {
        Hits {
            chunk: Chunk::none(),
            rest: Untested {
                numbers: &[],
                boxes: &[],
            },
        }
    }

    // Begins with these boxes, after the last number of others.
    pub(crate) fn begin(&mut self, run: Untested<'a>)
        requires { flags_left self.old.chunk ≡ [] }
        ensures { (q : Rect) → hits_left q self.new ≡ hits q (entries_ahead run.entry) }
    {
        self.rest = run;
    }

    // The next number whose box meets q, which is the same at each call.
    pub(crate) fn next(&mut self, q: Rect) -> Option<u32>
        ensures first { YieldsFirst (hits_left q) self.old result self.new }
        ensures done { IfNone result (flags_left self.new.chunk ≡ []) }
    {
        loop {
            if let Some(number) = self.chunk.next() {
                return Some(number);
            }
            if self.rest.len() < FEW {
                return self.rest.next_met(q);
            }
            let chunk = self.rest.test_chunk(q);
            if !chunk.is_unset() {
                self.chunk = chunk;
            }
        }
    }
}
