// A walk along a line of a floor, from run to run.
ghost use Rattle.std.specs.Prelude.{MatchOption};
ghost use Rattle.plane_exact.specs.Plane.{IsCoordinate};
ghost use Rattle.cleanup_pocket.specs.Floors.{IsJoinedBy};
ghost use Rattle.cleanup_pocket.specs.Walk.{IsBounded, IsFirstGood, IsLastJoined, IsNoneGood, IsRunFrom};

use crate::floor::Floor;
use crate::line::{Line, Run};

/// The next run of the line from the place on; None where no place from there on is good.
pub fn next_run<F: Floor>(floor: &F, line: &Line, from: i32) -> Option<Run>
    requires from { IsCoordinate from }
    requires bounded { IsBounded (F.is_good floor.now line.now.axis line.now.at) line.now.low line.now.high }
    ensures { MatchOption result (IsNoneGood (F.is_good floor.now line.now.axis line.now.at) from) (IsRunFrom (F.is_good floor.now line.now.axis line.now.at) (IsJoinedBy (F.is_good floor.now) (F.is_way floor.now) line.now.axis line.now.at) from) }
{
    let first = next_good(floor, line, from)?;
    let last = last_joined(floor, line, first);
    Some(Run { first, last })
}

// The first good place from this one on.
fn next_good<F: Floor>(floor: &F, line: &Line, from: i32) -> Option<i32>
    requires from { IsCoordinate from }
    requires bounded { IsBounded (F.is_good floor.now line.now.axis line.now.at) line.now.low line.now.high }
    ensures { MatchOption result (IsNoneGood (F.is_good floor.now line.now.axis line.now.at) from) (IsFirstGood (F.is_good floor.now line.now.axis line.now.at) from) }
{
    let mut place = from;
    while place <= line.high {
        let bad = floor.bad_ahead(line, place);
        if bad == 0 {
            return Some(place);
        }
        place += bad as i32;
    }
    None
}

// The last place of the run that begins at this one.
fn last_joined<F: Floor>(floor: &F, line: &Line, first: i32) -> i32
    requires good { F.is_good floor.now line.now.axis line.now.at first }
    requires bounded { IsBounded (F.is_good floor.now line.now.axis line.now.at) line.now.low line.now.high }
    ensures { IsLastJoined (IsJoinedBy (F.is_good floor.now) (F.is_way floor.now) line.now.axis line.now.at) first result }
{
    let mut place = first;
    loop {
        let ahead = floor.joined_ahead(line, place);
        if ahead == 0 {
            return place;
        }
        place += ahead as i32;
    }
}
