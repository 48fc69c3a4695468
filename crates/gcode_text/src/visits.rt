// The program of a path of visits, spots to which the bit goes one after the other: its text, and what a reader of it finds.
ghost use Rattle.std.specs.Prelude.{◌≡◌, ◌*◌, ◌≤◌, ◌++◌, ◌∷◌, [], All, IfOk, OnOk, Ok, length, pos};
ghost use Rattle.plane_exact.specs.Cone.{IsFromOneTo};
ghost use Rattle.plane_exact.specs.Same.{same_point};
ghost use Rattle.gcode_text.specs.Moves.{moves_of};
ghost use Rattle.gcode_text.specs.Visits.{IsVisit, motion_to, opening_lines, over_line, repair_note, rise_line, spot_over, tenths_word, visit_line, visit_lines, visit_moves, visiting_lines, visits_text};
ghost use Rattle.gcode_text.specs.Written.{Note, code_text, word_text};
ghost use Rattle.gcode_text.specs.declared.job.TheConstants.{MOST_FEED, MOST_SAFE_HEIGHT};
ghost use Rattle.gcode_text.specs.declared.modal.TheConstants.{MOST_MOVES};

use crate::report::write_count;
use crate::written::{Motion, motion_text, write_end, write_modes};
use grid_num::{Units, write_decimal};
use plane_exact::Spot;
use std::alloc::{AllocError, Global};

/// The text of the program that takes the bit over the first visit's point at the safe height, and from there to each visit in
/// turn. A note says how many moves were changed of how many. The safe height is in grid units, the feed in millimetres or inches
/// a minute. The error is running out of memory.
pub fn write_visits(
    alloc: Global,
    units: Units,
    safe: u32,
    feed: u32,
    visits: &[Spot],
    changed: u32,
    count: u32,
) -> Result<Vec<u8>, AllocError>
    requires safe { IsFromOneTo MOST_SAFE_HEIGHT safe }
    requires feed { IsFromOneTo MOST_FEED feed }
    // The text of the program.
    ensures text { IfOk result (λ code. code.items ≡ visits_text units safe feed changed count visits.now) }
    // It is read as exactly the moves through the visits.
    ensures read_back { IfOk result (λ code. length visits.now ≤ MOST_MOVES → moves_of units code.items ≡ Ok (visit_moves safe visits.now)) }
{
    let mut code = Vec::new(alloc);
    write_repaired(changed, count, &mut code)?;
    write_opening(units, safe, feed, &mut code)?;
    write_path(units, safe, visits, &mut code)?;
    write_end(&mut code)?;
    Ok(code)
}

// The note of how many moves were changed.
fn write_repaired(changed: u32, count: u32, code: &mut Vec<u8>) -> Result<(), AllocError>
    ensures { OnOk result (code.new.items ≡ code.old.items ++ code_text (Note (repair_note changed count) ∷ [])) }
{
    write_count("(repaired ", u64::from(changed), code)?;
    write_count(" of ", u64::from(count), code)?;
    code.extend_from_slice(b")\n")
}

// The modes, and up to the safe height.
fn write_opening(units: Units, safe: u32, feed: u32, code: &mut Vec<u8>) -> Result<(), AllocError>
    requires { safe ≤ MOST_SAFE_HEIGHT }
    ensures { OnOk result (code.new.items ≡ code.old.items ++ code_text (opening_lines units safe feed)) }
{
    write_modes(units, feed, code)?;
    write_rise(units, safe, code)
}

fn write_rise(units: Units, safe: u32, code: &mut Vec<u8>) -> Result<(), AllocError>
    requires { safe ≤ MOST_SAFE_HEIGHT }
    ensures { OnOk result (code.new.items ≡ code.old.items ++ code_text (rise_line units safe ∷ [])) }
{
    code.extend_from_slice(b"G0")?;
    write_tenths(units, b'Z', tenths_of_safe(safe), code)?;
    code.extend_from_slice(b"\n")
}

// Over the first visit's point, and through all of them.
fn write_path(
    units: Units,
    safe: u32,
    visits: &[Spot],
    code: &mut Vec<u8>,
) -> Result<(), AllocError>
    requires { safe ≤ MOST_SAFE_HEIGHT }
    ensures text { OnOk result (code.new.items ≡ code.old.items ++ code_text (visiting_lines units safe visits.now)) }
    ensures range { OnOk result (All IsVisit visits.now) }
{
    let [first, ..] = visits else {
        return Ok(());
    };
    let start = over(*first, safe);
    write_over(units, start, code)?;
    write_each(units, start, visits, code)
}

// Over the spot's point, at the height that there is.
fn write_over(units: Units, spot: Spot, code: &mut Vec<u8>) -> Result<(), AllocError>
    ensures { OnOk result (code.new.items ≡ code.old.items ++ code_text (over_line units spot.at ∷ [])) }
{
    code.extend_from_slice(b"G0")?;
    write_tenths(units, b'X', spot.x, code)?;
    write_tenths(units, b'Y', spot.y, code)?;
    code.extend_from_slice(b"\n")
}

// From the spot before to each visit in turn.
fn write_each(
    units: Units,
    start: Spot,
    visits: &[Spot],
    code: &mut Vec<u8>,
) -> Result<(), AllocError>
    ensures text { OnOk result (code.new.items ≡ code.old.items ++ code_text (visit_lines units start visits.now)) }
    ensures range { OnOk result (All IsVisit visits.now) }
{
    let mut before = start;
    for visit in visits {
        write_visit(units, before, *visit, code)?;
        before = *visit;
    }
    Ok(())
}

fn write_visit(
    units: Units,
    before: Spot,
    visit: Spot,
    code: &mut Vec<u8>,
) -> Result<(), AllocError>
    ensures text { OnOk result (code.new.items ≡ code.old.items ++ code_text (visit_line units before visit ∷ [])) }
    ensures range { IsVisit visit }
{
    code.extend_from_slice(motion_text(motion_to(before, visit)).as_bytes())?;
    write_tenths(units, b'X', visit.x, code)?;
    write_tenths(units, b'Y', visit.y, code)?;
    write_tenths(units, b'Z', visit.h, code)?;
    code.extend_from_slice(b"\n")
}

// At the feed below the surface, and from there to another point.
fn motion_to(before: Spot, visit: Spot) -> Motion
    ensures { result ≡ motion_to before visit }
{
    let leaves = before.h < 0 && !is_upright(before, visit);
    if visit.h < 0 || leaves {
        Motion::Straight
    } else {
        Motion::Rapid
    }
}

// Whether both spots are over or under one point.
fn is_upright(before: Spot, visit: Spot) -> bool
    ensures { result ≡ same_point before.at visit.at }
{
    before.x == visit.x && before.y == visit.y
}

// The safe height over the spot's point.
fn over(spot: Spot, safe: u32) -> Spot
    requires { safe ≤ MOST_SAFE_HEIGHT }
    ensures { result ≡ spot_over safe spot.at }
{
    Spot {
        h: tenths_of_safe(safe),
        ..spot
    }
}

// The safe height in tenths of a grid unit.
fn tenths_of_safe(safe: u32) -> i32
    requires { safe ≤ MOST_SAFE_HEIGHT }
    ensures { result ≡ pos (10 * safe) }
{
    10 * safe as i32
}

// A space, the letter, and the length, which is in tenths of a grid unit, in the job's units.
fn write_tenths(units: Units, letter: u8, value: i32, code: &mut Vec<u8>) -> Result<(), AllocError>
    ensures { OnOk result (code.new.items ≡ code.old.items ++ 32 ∷ word_text (tenths_word units letter value)) }
{
    code.extend_from_slice(&[b' ', letter])?;
    write_decimal(i64::from(value), 10 * units.per_unit(), code)
}
