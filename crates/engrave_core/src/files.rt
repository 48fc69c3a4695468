// The files that a command names: loaded and read, or refused.
ghost use Rattle.std.specs.Prelude.{◌≡◌, ◌≤◌, length, IfOk, IfErr};
ghost use Rattle.gcode_text.specs.Following.{AreFollowing};
ghost use Rattle.gcode_text.specs.declared.modal.TheConstants.{MOST_MOVES};
ghost use Rattle.engrave_core.specs.Stored.{AnswersFrom, IsReadAs, bytes_of, code_of, stored_code};
ghost use Rattle.engrave_core.specs.Outcome.{outcome_of};
ghost use Rattle.engrave_core.specs.Refusals.{IsRefusalOfCode, IsRefusalOfFile, IsRefusalOfStoredCode};

use crate::outcome::{InputFault, Which};
use crate::refusal::Refusal;
use gcode_text::{MOST_CODE_BYTES, MOST_MOVES};
use grid_num::Units;
use plane_exact::LineMove;
use shop_port::{Depot, LoadFault, load};
use std::alloc::Global;

/// The moves of the G-code program in the file of this name, or the refusal.
#[tactic(auto, unfolding(crate::specs::Stored::stored_code))]
pub fn load_code<D: Depot>(
    alloc: Global,
    name: &str,
    units: Units,
    depot: &mut D,
) -> Result<Vec<LineMove>, Refusal>
    ensures value { AnswersFrom D.held D.faults D.misses depot.old depot.new (λ files. IsReadAs (λ moves. moves.items) (stored_code files units name.now)) result }
    ensures few { IfOk result (λ moves. length moves.items ≤ MOST_MOVES) }
    ensures follow { IfOk result (λ moves. AreFollowing moves.items) }
    ensures refusal { IfErr result (λ refusal. IsRefusalOfStoredCode (outcome_of refusal)) }
{
    let bytes = load_file(alloc, name, Which::Code, u64::from(MOST_CODE_BYTES), depot)?;
    read_code(alloc, units, &bytes)
}

/// The bytes of the file of this name, which may have up to `cap` bytes, or the refusal.
pub fn load_file<D: Depot>(
    alloc: Global,
    name: &str,
    which: Which,
    cap: u64,
    depot: &mut D,
) -> Result<Vec<u8>, Refusal>
    ensures value { AnswersFrom D.held D.faults D.misses depot.old depot.new (λ files. IsReadAs (λ bytes. bytes.items) (bytes_of which cap (files name.now))) result }
    ensures range { IfOk result (λ bytes. length bytes.items ≤ cap) }
    ensures refusal { IfErr result (λ refusal. IsRefusalOfFile which (outcome_of refusal)) }
{
    match load(alloc, depot, name, cap) {
        Ok(bytes) => Ok(bytes),
        Err(LoadFault::Absent) => Err(Refusal::Absent(which)),
        Err(LoadFault::ReadFault) => Err(Refusal::ReadFault),
        Err(LoadFault::TooLong) => Err(Refusal::Input(InputFault::TooLong(which))),
        Err(LoadFault::Memory) => Err(Refusal::Memory),
    }
}

/// The moves of a G-code program, or the refusal.
#[tactic(auto, unfolding(crate::specs::Stored::code_of))]
fn read_code(alloc: Global, units: Units, bytes: &[u8]) -> Result<Vec<LineMove>, Refusal>
    requires { length bytes.now ≤ MOST_CODE_BYTES }
    ensures value { IsReadAs (λ moves. moves.items) (code_of units bytes.now) result }
    ensures few { IfOk result (λ moves. length moves.items ≤ MOST_MOVES) }
    ensures follow { IfOk result (λ moves. AreFollowing moves.items) }
    ensures refusal { IfErr result (λ refusal. IsRefusalOfCode (outcome_of refusal)) }
{
    Ok(gcode_text::read_code(alloc, units, bytes)?)
}
