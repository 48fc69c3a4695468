// A program's repair.
ghost use Rattle.std.specs.Prelude.{◌<◌, ◌≤◌, ◌^◌, length, IfOk, MatchResult};
ghost use Rattle.engrave_model.specs.Drawing.{edges_of};
ghost use Rattle.gcode_text.specs.Following.{AreFollowing};
ghost use Rattle.gcode_text.specs.Visits.{visit_moves};
ghost use Rattle.gcode_text.specs.declared.job.TheConstants.{MOST_SAFE_HEIGHT};
ghost use Rattle.plane_exact.specs.Cone.{IsFromOneTo};
ghost use Rattle.code_repair.specs.Fault.{IsRepairFault};
ghost use Rattle.code_repair.specs.Law.{IsRepaired};
ghost use Rattle.code_repair.specs.Repair.{BeginsAt, IsRepair};

use crate::fault::RepairFault;
use crate::visits::Visits;
use depth_rule::Scene;
use gcode_text::MOST_SAFE_HEIGHT;
use plane_exact::{Bit, LineMove, Spot};
use std::alloc::{AllocError, Global};

/// The most places that a repaired program visits, which is the most moves of a program.
pub const MOST_VISITS: usize = 8_388_608;

/// A repaired program.
#[derive(Debug, Drop)]
pub struct Repaired {
    /// The places that the bit visits in turn, in tenths of a grid unit.
    pub visits: Vec<Spot>,
    /// How many moves were changed.
    pub changed: u32,
}

/// What the bit visits when the program's moves that aren't clear become lifts to the safe height, which is from 1 to 32,767 grid units.
///
/// A clear move stays: its end is visited from where it begins. For another the bit is lifted where that begins, goes over its end, and
/// down onto that where the end isn't below the surface or the way down is clear; else it stays up until the end of a later move can be
/// visited. Last it is lifted. Without moves nothing is visited.
///
/// The error is that there would be more than 8,388,608 visits, or that memory ran out.
pub fn repair(
    alloc: Global,
    scene: &Scene,
    bit: &Bit,
    safe: u32,
    moves: &[LineMove],
) -> Result<Repaired, RepairFault>
    requires safe { IsFromOneTo MOST_SAFE_HEIGHT safe }
    requires few { length moves.now < 2 ^ 32 }
    ensures value { MatchResult result (λ repaired. IsRepair (edges_of scene.now) bit.now safe moves.now repaired.visits.items repaired.changed) (IsRepairFault (edges_of scene.now) bit.now safe moves.now) }
    ensures few { IfOk result (λ repaired. length repaired.visits.items ≤ MOST_VISITS) }
    // Where the moves follow each other, the repaired program is clear, removes no more, and keeps what was clear.
    ensures worth { IfOk result (λ repaired. AreFollowing moves.now → IsRepaired (edges_of scene.now) bit.now moves.now (visit_moves safe repaired.visits.items) repaired.changed) }
{
    // That the bit has some width is known from its slope.
    let _slope = bit.sn();
    let repaired = repaired_by(alloc, scene, bit, safe, moves)?;
    if repaired.visits.len() > MOST_VISITS {
        return Err(RepairFault::TooMany);
    }
    Ok(repaired)
}

// The repaired program, of however many visits.
fn repaired_by(
    alloc: Global,
    scene: &Scene,
    bit: &Bit,
    safe: u32,
    moves: &[LineMove],
) -> Result<Repaired, AllocError>
    requires safe { IsFromOneTo MOST_SAFE_HEIGHT safe }
    requires few { length moves.now < 2 ^ 32 }
    ensures { IfOk result (λ repaired. IsRepair (edges_of scene.now) bit.now safe moves.now repaired.visits.items repaired.changed) }
{
    let Some(first) = moves.first() else {
        return Ok(Repaired {
            visits: Vec::new(alloc),
            changed: 0,
        });
    };
    let visits = visits_of(alloc, scene, bit, safe, first.mv.from, moves)?;
    Ok(Repaired {
        visits: visits.spots,
        changed: visits.changed,
    })
}

// What is visited for the moves, of which the first begins at `start`.
fn visits_of(
    alloc: Global,
    scene: &Scene,
    bit: &Bit,
    safe: u32,
    start: Spot,
    moves: &[LineMove],
) -> Result<Visits, AllocError>
    requires safe { IsFromOneTo MOST_SAFE_HEIGHT safe }
    requires few { length moves.now < 2 ^ 32 }
    ensures { IfOk result (λ visits. BeginsAt (edges_of scene.now) bit.now safe start moves.now visits.spots.items visits.changed) }
{
    let mut visits = Visits {
        safe,
        spots: Vec::new(alloc),
        up: false,
        last: start,
        changed: 0,
    };
    visits.spots.push(start)?;
    visits.follow(scene, bit, moves)?;
    let last = visits.last;
    visits.rise(last)?;
    Ok(visits)
}
