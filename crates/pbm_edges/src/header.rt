// What stands before the pixels of a PBM file: white space with comments, and the two sides of the image.
ghost use Rattle.std.specs.Prelude.{◌≡◌, ◌≤◌, IfNone, IfSome, false, length};
ghost use Rattle.std.specs.Char.{is_ascii_digit};
ghost use Rattle.std.specs.List.{prefix_len};
ghost use Rattle.pbm_edges.specs.Header.{begins_space, behind_space, ended, first_number, heading_of, is_space, next_number};
ghost use Rattle.pbm_edges.specs.State.{heading_value};

use grid_num::read_digits;

/// The most digits of a side.
const MOST_DIGITS: usize = 5;

/// The sides of an image, and the text behind the byte that ends them.
#[derive(Clone, Copy)]
pub(crate) struct Heading<'a> {
    pub(crate) width: u32,
    pub(crate) height: u32,
    pub(crate) rest: &'a [u8],
}

/// Whether the byte is white space.
pub(crate) fn is_space(byte: u8) -> bool
    ensures { result ≡ is_space byte }
{
    matches!(byte, b' ' | 9..=13)
}

/// The heading behind the magic number, or None where there is none.
#[tactic(auto, unfolding(crate::specs::Header::heading_of))]
pub(crate) fn read_heading(text: &[u8]) -> Option<Heading<'_>>
    ensures none { IfNone result (heading_of text.now ≡ None) }
    ensures some { IfSome result (λ h. heading_of text.now ≡ Some (heading_value h)) }
{
    let (width, rest) = next_number(text)?;
    let (height, rest) = next_number(rest)?;
    end(width, height, rest)
}

// The heading with these sides, where one byte of white space ends it.
fn end(width: u32, height: u32, text: &[u8]) -> Option<Heading<'_>>
    ensures none { IfNone result (ended width height text.now ≡ None) }
    ensures some { IfSome result (λ h. ended width height text.now ≡ Some (heading_value h)) }
{
    match text {
        [byte, rest @ ..] if is_space(*byte) => Some(Heading {
            width,
            height,
            rest,
        }),
        _ => None,
    }
}

// The number behind white space, and the text behind it.
fn next_number(text: &[u8]) -> Option<(u32, &[u8])>
    ensures none { IfNone result (next_number text.now ≡ None) }
    ensures some { IfSome result (λ found. next_number text.now ≡ Some (found.0, found.1.now)) }
{
    if begins_space(text) {
        first_number(skip_space(text))
    } else {
        None
    }
}

fn begins_space(text: &[u8]) -> bool
    ensures { result ≡ begins_space text.now }
{
    match text {
        [byte, ..] => is_space(*byte) || *byte == b'#',
        [] => false,
    }
}

// The text behind white space and comments.
fn skip_space(text: &[u8]) -> &[u8]
    ensures { result.now ≡ behind_space false text.now }
{
    let mut is_comment = false;
    let mut left = text;
    while let [byte, rest @ ..] = left {
        if is_comment {
            is_comment = *byte != b'\n';
        } else if *byte == b'#' {
            is_comment = true;
        } else if !is_space(*byte) {
            return left;
        }
        left = rest;
    }
    left
}

// The number of one to five digits that the text begins with, and the text behind it.
fn first_number(text: &[u8]) -> Option<(u32, &[u8])>
    ensures none { IfNone result (first_number text.now ≡ None) }
    ensures some { IfSome result (λ found. first_number text.now ≡ Some (found.0, found.1.now)) }
{
    let count = digits_at_front(text);
    if count > MOST_DIGITS {
        return None;
    }
    Some((read_digits(&text[..count])?, &text[count..]))
}

// How many digits the text begins with.
fn digits_at_front(text: &[u8]) -> usize
    ensures value { result ≡ prefix_len is_ascii_digit text.now }
    ensures within { result ≤ length text.now }
{
    for (i, byte) in text.iter().enumerate() {
        if !byte.is_ascii_digit() {
            return i;
        }
    }
    text.len()
}
