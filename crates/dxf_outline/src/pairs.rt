// Reads one pair of lines: a group code and a value.
ghost use Rattle.std.specs.Prelude.{◌≡◌, ◌+◌, ◌<◌, ◌≤◌, ◌^◌, ◌&&◌, bytes_eq, length};
ghost use Rattle.std.specs.Ordering.{int_eq};
ghost use Rattle.dxf_outline.specs.Pairs.{code_of, pairs_from};
ghost use Rattle.dxf_outline.specs.State.{IfNext, headed_by};

use crate::texts::Texts;
use grid_num::read_whole;

/// A pair of lines with its number, from 1.
#[derive(Clone, Copy)]
pub(crate) struct Entry<'a> {
    pub(crate) at: u32,
    pub(crate) code: i32,
    pub(crate) value: &'a [u8],
}

impl<'a> Entry<'a> {
    /// Whether the pair has this code.
    pub(crate) fn has_code(self, code: i32) -> bool
        ensures { result ≡ int_eq self.entry.code code }
    {
        self.code == code
    }

    /// Whether the pair is this one.
    pub(crate) fn is(self, code: i32, value: &[u8]) -> bool
        ensures { result ≡ (int_eq self.entry.code code && bytes_eq self.entry.value.now value.now) }
    {
        self.code == code && self.value == value
    }
}

/// What comes next in a file.
#[derive(Clone, Copy)]
pub(crate) enum Head<'a> {
    /// The pair that ends the file.
    Over,
    /// The pair with this number, whose code is none.
    BadCode(u32),
    /// The end of the text, where the pair with this number should be whole.
    Unended(u32),
    /// A pair.
    Next(Entry<'a>),
}

/// The pair with the number `at`, from the lines that are left.
pub(crate) fn read_pair<'a>(texts: &mut Texts<'a>, at: u32) -> Head<'a>
    ensures pair { pairs_from at texts.old ≡ headed_by result (pairs_from (at + 1) texts.new) }
    ensures fewer { length texts.new ≤ length texts.old }
    ensures both { IfNext result (length texts.new + 2 ≡ length texts.old) }
{
    let Some(code) = texts.next() else {
        return Head::Unended(at);
    };
    let Some(code) = read_code(code) else {
        return Head::BadCode(at);
    };
    let Some(value) = texts.next() else {
        return Head::Unended(at);
    };
    let entry = Entry { at, code, value };
    if entry.is(0, b"EOF") {
        Head::Over
    } else {
        Head::Next(entry)
    }
}

// The code that an optional minus and one to four digits write.
fn read_code(text: &[u8]) -> Option<i32>
    ensures { result ≡ code_of text.now }
{
    let digits = match text {
        [b'-', digits @ ..] => digits,
        _ => text,
    };
    if digits.len() > 4 {
        return None;
    }
    read_whole(text)
}
