// The chains of a floor as they come, line by line.
ghost use Rattle.std.specs.Prelude.{◌≡◌, ◌≤◌, ◌∷◌, [], ◌*◌, ℤ, pos, ◌+ℤ◌, MatchOption, OnOk};
ghost use Rattle.plane_exact.specs.Cone.{IsFromOneTo};
ghost use Rattle.plane_exact.specs.Plane.{IsCoordinate};
ghost use Rattle.evenodd_region.specs.Bounds.{IsBoxOf, points_of};
ghost use Rattle.depth_rule.specs.Ticks.{AreTicks};
ghost use Rattle.cleanup_pocket.specs.Kept.{IsGrown};
ghost use Rattle.cleanup_pocket.specs.Floors.{AreAxisChains, AreLineChains, AreWayChains, IsLine, chain_along, line_of};
ghost use Rattle.cleanup_pocket.specs.Walk.{IsBounded};

use crate::axis::{Axis, Way};
use crate::floor::Floor;
use crate::line::{Line, Run, line_of};
use crate::pockets::MOST_OVER;
use crate::walk::next_run;
use depth_rule::{Bounds, Ticks, ticks_between};
use plane_exact::{Chain, MOST_CHAINS, MOST_DEPTH};
use std::alloc::{AllocError, Global};

/// The chains that have come, or word that there are more than a path may have.
#[derive(Drop)]
pub struct Kept {
    /// All of them, if there are no more than that.
    pub chains: Vec<Chain>,
    pub has_more: bool,
}

impl Kept {
    /// Adds the chains of the lines through the box that have a multiple of `over` as their coordinate: rows, columns, or both.
    pub fn add_way<F: Floor>(
        &mut self,
        alloc: Global,
        floor: &F,
        bounds: &Bounds,
        over: u32,
        way: Way,
    ) -> Result<(), AllocError>
        requires over { IsFromOneTo MOST_OVER over }
        requires bounds { IsBoxOf (points_of (F.loops_of floor.now)) bounds.now.low bounds.now.high }
        ensures { OnOk result (IsGrown (AreWayChains (F.is_good floor.now) (F.is_way floor.now) (F.depth_of floor.now) over bounds.now.low bounds.now.high way) self.old.chains.items self.old.has_more self.new.chains.items self.new.has_more) }
    {
        match way {
            Way::X => self.add_axis(alloc, floor, bounds, over, Axis::X),
            Way::Y => self.add_axis(alloc, floor, bounds, over, Axis::Y),
            Way::Both => {
                self.add_axis(alloc, floor, bounds, over, Axis::X)?;
                self.add_axis(alloc, floor, bounds, over, Axis::Y)
            }
        }
    }

    // Adds the chains of the lines along one axis.
    fn add_axis<F: Floor>(
        &mut self,
        alloc: Global,
        floor: &F,
        bounds: &Bounds,
        over: u32,
        axis: Axis,
    ) -> Result<(), AllocError>
        requires over { IsFromOneTo MOST_OVER over }
        requires bounds { IsBoxOf (points_of (F.loops_of floor.now)) bounds.now.low bounds.now.high }
        ensures { OnOk result (IsGrown (AreAxisChains (F.is_good floor.now) (F.is_way floor.now) (F.depth_of floor.now) over bounds.now.low bounds.now.high axis) self.old.chains.items self.old.has_more self.new.chains.items self.new.has_more) }
    {
        let Some(ticks) = lines_between(bounds, axis, over) else {
            return Ok(());
        };
        for k in 0..ticks.count {
            let at = tick(ticks.first, over, k);
            self.add_line(alloc, floor, &Line::through(bounds, axis, at))?;
        }
        Ok(())
    }

    // Adds the chains along the runs of a line.
    fn add_line<F: Floor>(
        &mut self,
        alloc: Global,
        floor: &F,
        line: &Line,
    ) -> Result<(), AllocError>
        requires { IsBounded (F.is_good floor.now line.now.axis line.now.at) line.now.low line.now.high }
        ensures { OnOk result (IsGrown (AreLineChains (F.is_good floor.now) (F.is_way floor.now) (F.depth_of floor.now) line.now.axis line.now.at) self.old.chains.items self.old.has_more self.new.chains.items self.new.has_more) }
    {
        let mut from = line.low;
        while let Some(run) = next_run(floor, line, from) {
            self.add_run(alloc, line, run, floor.depth())?;
            from = run.behind();
        }
        Ok(())
    }

    // Adds the chain along a run at this depth.
    fn add_run(
        &mut self,
        alloc: Global,
        line: &Line,
        run: Run,
        depth: u32,
    ) -> Result<(), AllocError>
        requires first { IsCoordinate run.first }
        requires last { IsCoordinate run.last }
        requires depth { depth ≤ MOST_DEPTH }
        ensures { OnOk result (IsGrown (λ part. part ≡ chain_along line.now.axis line.now.at depth run ∷ []) self.old.chains.items self.old.has_more self.new.chains.items self.new.has_more) }
    {
        if self.has_more || self.chains.len() >= MOST_CHAINS {
            self.has_more = true;
        } else {
            self.chains.push(line.chain(alloc, run, depth)?)?;
        }
        Ok(())
    }
}

// The lines along the axis through the box: their coordinates are multiples of `over`.
fn lines_between(bounds: &Bounds, axis: Axis, over: u32) -> Option<Ticks>
    requires { IsFromOneTo MOST_OVER over }
    ensures low { IsCoordinate (line_of axis bounds.now.low) }
    ensures high { IsCoordinate (line_of axis bounds.now.high) }
    ensures value { MatchOption result ((line : ℤ) → ¬ IsLine (line_of axis bounds.now.low) (line_of axis bounds.now.high) over line) (λ ticks. AreTicks (line_of axis bounds.now.low) (line_of axis bounds.now.high) over ticks.first ticks.count) }
{
    let low = line_of(axis, bounds.low);
    let high = line_of(axis, bounds.high);
    ticks_between(low, high, over)
}

// The multiple of this number, from 0, of those that begin with the first.
fn tick(first: i32, over: u32, k: u32) -> i32
    requires first { IsCoordinate first }
    requires range { IsCoordinate (first +ℤ pos (k * over)) }
    ensures value { result ≡ first +ℤ pos (k * over) }
    ensures range { IsCoordinate result }
{
    first + (k * over) as i32
}
