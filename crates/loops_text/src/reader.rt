// Reads a drawing in loops form: a loop a line, its points `x,y` in words between blanks.
//
// The bytes are judged in order, by one function for each part: a line, a loop, a point. The first fault is answered.
ghost use Rattle.std.specs.Prelude.{◌≡◌, ◌≢◌, ◌<◌, ◌≤◌, [], Err, IfErr, IfOk, None, Ok, OnOk, Some, if◌then◌else◌, length};
ghost use Rattle.text_lines.specs.Cutting.{piece_of};
ghost use Rattle.text_lines.specs.Pieces.{words_of};
ghost use Rattle.loops_text.specs.Grammar.{closed, is_last, is_skipped, loop_of, loops_of, next_point, place_of_first, point_of};

use crate::drawing::{Drawing, PushFault};
use crate::fault::{LoopsFault, LoopsKind, OUT_OF_MEMORY};
use engrave_model::MOST_EDGES;
use grid_num::read_whole_pair;
use plane_exact::{Point, is_same_point};
use std::alloc::Global;
use text_lines::{Lines, Piece, Words};

/// The most bytes of a drawing's text.
pub const MOST_DRAWING_BYTES: usize = 16_777_216;

/// The drawing of a text of at most `MOST_DRAWING_BYTES` bytes, or its first fault.
pub fn read_loops(alloc: Global, bytes: &[u8]) -> Result<Drawing, LoopsFault>
    requires { length bytes.now ≤ MOST_DRAWING_BYTES }
    ensures drawing { IfOk result (λ d. loops_of bytes.now ≡ Ok d) }
    ensures fault { IfErr result (λ f. f.kind ≢ LoopsKind.Memory → loops_of bytes.now ≡ Err f) }
    ensures memory { IfErr result (λ f. f.kind ≡ LoopsKind.Memory → f.at ≡ 0) }
{
    let mut drawing = Drawing::empty(alloc);
    // The points of the line, whose memory serves one line after another.
    let mut points = Vec::new(alloc);
    for line in Lines::of(bytes) {
        let Some(first) = loop_start(line) else {
            continue;
        };
        points.clear();
        let room = MOST_EDGES - drawing.edges();
        read_loop(Words::of(line), first, room, &mut points)?;
        if let Err(fault) = drawing.push_loop(&points) {
            // The points were judged as they were read.
            prove!(matches!(&fault, PushFault::Memory));
            return Err(OUT_OF_MEMORY);
        }
    }
    Ok(drawing)
}

// The place of the first word of a line that is a loop, or None where the line is skipped.
fn loop_start(line: Piece<'_>) -> Option<u32>
    ensures { result ≡ (if is_skipped (words_of (piece_of line.entry)) then None else Some (place_of_first (words_of (piece_of line.entry)))) }
{
    let first = Words::of(line).next()?;
    match first.bytes {
        [b'#', ..] => None,
        _ => Some(first.at),
    }
}

// Reads the points of a loop's words, the first of which stands at `first`, where the drawing has room for so many
// more.
fn read_loop(
    words: Words<'_>,
    first: u32,
    room: u32,
    points: &mut Vec<Point>,
) -> Result<(), LoopsFault>
    requires none_yet { points.old.items ≡ [] }
    requires place { first ≡ place_of_first words }
    ensures points { OnOk result (loop_of room words.entry ≡ Ok points.new.items) }
    ensures fault { IfErr result (λ f. f.kind ≢ LoopsKind.Memory → loop_of room words.entry ≡ Err f) }
    ensures memory { IfErr result (λ f. f.kind ≡ LoopsKind.Memory → f.at ≡ 0) }
{
    let mut last = 0;
    for word in words {
        let room_left = room - points.len() as u32;
        let point = read_next_point(word, points, room_left)?;
        points.push(point)?;
        last = word.at;
    }
    judge_closed(points, first, last)
}

// Whether the points make a closed loop; its first and last word stand at these places.
fn judge_closed(points: &[Point], first: u32, last: u32) -> Result<(), LoopsFault>
    ensures closed { OnOk result (closed first last points.now ≡ Ok points.now) }
    ensures fault { IfErr result (λ f. closed first last points.now ≡ Err f) }
{
    match points {
        [] | [_] => Err(LoopsFault {
            at: first,
            kind: LoopsKind::Short,
        }),
        [start, rest @ ..] if is_last(rest, *start) => Err(LoopsFault {
            at: last,
            kind: LoopsKind::SamePoint,
        }),
        _ => Ok(()),
    }
}

// The point of a word after the earlier ones of its loop, where the drawing has room for so many more.
fn read_next_point(word: Piece<'_>, earlier: &[Point], room: u32) -> Result<Point, LoopsFault>
    ensures value { result ≡ next_point earlier.now room (piece_of word.entry) }
    ensures fits { OnOk result (0 < room) }
    ensures kind { IfErr result (λ f. f.kind ≢ LoopsKind.Memory) }
{
    let point = read_point(word)?;
    if is_last(earlier, point) {
        return Err(LoopsFault {
            at: word.at,
            kind: LoopsKind::SamePoint,
        });
    }
    if room == 0 {
        return Err(LoopsFault {
            at: word.at,
            kind: LoopsKind::TooMany,
        });
    }
    Ok(point)
}

// The point that a word writes.
fn read_point(word: Piece<'_>) -> Result<Point, LoopsFault>
    ensures value { result ≡ point_of (piece_of word.entry) }
    ensures kind { IfErr result (λ f. f.kind ≢ LoopsKind.Memory) }
{
    let Some((x, y)) = read_whole_pair(word.bytes, b',') else {
        return Err(LoopsFault {
            at: word.at,
            kind: LoopsKind::Syntax,
        });
    };
    match Point::new(i64::from(x), i64::from(y)) {
        Some(point) => Ok(point),
        None => Err(LoopsFault {
            at: word.at,
            kind: LoopsKind::OutOfRange,
        }),
    }
}

// Whether the last of the points is this one.
fn is_last(points: &[Point], point: Point) -> bool
    ensures { result ≡ is_last points.now point }
{
    match points.split_last() {
        Some((last, _)) => is_same_point(*last, point),
        None => false,
    }
}
