// A line of grid points, and the runs of places on it.
ghost use Rattle.std.specs.Prelude.{◌≡◌, ◌≤◌, pos, ◌+ℤ◌, ◌<ℤ◌, ◌≤ℤ◌, IfOk};
ghost use Rattle.plane_exact.specs.Plane.{IsCoordinate, IsOnGrid};
ghost use Rattle.depth_rule.specs.Along.{move_between};
ghost use Rattle.cleanup_pocket.specs.Floors.{chain_along, line_of, node_on, place_of, point_on};

use crate::axis::Axis;
use depth_rule::Bounds;
use plane_exact::{Chain, MOST_DEPTH, Move, Node, Point};
use std::alloc::{AllocError, Global};
use std::marker::Model;

/// A row or column of grid points through a drawing's bounding box, in grid units.
#[derive(Clone, Copy)]
pub struct Line {
    /// Along which axis it goes.
    pub axis: Axis,
    /// The coordinate that all its points have.
    pub at: i32,
    /// The box's least and greatest coordinate along the line.
    pub low: i32,
    pub high: i32,
    ghost at_range: { IsCoordinate at },
    ghost low_range: { IsCoordinate low },
    ghost high_range: { IsCoordinate high },
}

impl Line {
    /// The line along the axis at this coordinate, through the box.
    pub fn through(bounds: &Bounds, axis: Axis, at: i32) -> Line
        requires { IsCoordinate at }
        ensures axis { result.axis ≡ axis }
        ensures at { result.at ≡ at }
        ensures low { result.low ≡ place_of axis bounds.now.low }
        ensures high { result.high ≡ place_of axis bounds.now.high }
    {
        Line {
            axis,
            at,
            low: place_of(axis, bounds.low),
            high: place_of(axis, bounds.high),
        }
    }

    /// The point at the place.
    pub fn point(&self, place: i32) -> Point
        requires { IsCoordinate place }
        ensures { result ≡ point_on self.now.axis self.now.at place }
    {
        match self.axis {
            Axis::X => grid_point(place, self.at),
            Axis::Y => grid_point(self.at, place),
        }
    }

    /// How many places there are from this one to the end of the box, no more than the greatest depth.
    pub fn left(&self, place: i32) -> u32
        requires place { IsCoordinate place }
        requires within { place ≤ℤ self.now.high }
        ensures { result ≤ MOST_DEPTH }
    {
        ((self.high - place + 1) as u32).min(MOST_DEPTH)
    }

    /// The node at the place, at this depth.
    pub fn node(&self, place: i32, depth: u32) -> Node
        requires place { IsCoordinate place }
        requires depth { depth ≤ MOST_DEPTH }
        ensures { result ≡ node_on self.now.axis self.now.at depth place }
    {
        Node {
            at: self.point(place),
            depth,
        }
    }

    /// The chain along the run at this depth: from its first place to its last, or its one place. The error is running out of memory.
    pub fn chain(&self, alloc: Global, run: Run, depth: u32) -> Result<Chain, AllocError>
        requires first { IsCoordinate run.first }
        requires last { IsCoordinate run.last }
        requires depth { depth ≤ MOST_DEPTH }
        ensures { IfOk result (λ chain. chain ≡ chain_along self.now.axis self.now.at depth run) }
    {
        let mut chain = Chain::one(alloc, self.node(run.first, depth))?;
        if run.first < run.last {
            chain.push(self.node(run.last, depth))?;
        }
        Ok(chain)
    }

    /// The move from the place to the next, at this depth.
    pub fn step(&self, place: i32, depth: u32) -> Move
        requires place { IsCoordinate place }
        requires within { place <ℤ self.now.high }
        requires depth { depth ≤ MOST_DEPTH }
        ensures { result ≡ move_between (node_on self.now.axis self.now.at depth place) (node_on self.now.axis self.now.at depth (place +ℤ pos 1)) }
    {
        Move::between(self.node(place, depth), self.node(place + 1, depth))
    }
}

// The place of a point on its line along the axis.
fn place_of(axis: Axis, p: Point) -> i32
    ensures value { result ≡ place_of axis p }
    ensures range { IsCoordinate result }
{
    match axis {
        Axis::X => p.x(),
        Axis::Y => p.y(),
    }
}

/// The line of a point along the axis.
pub fn line_of(axis: Axis, p: Point) -> i32
    ensures value { result ≡ line_of axis p }
    ensures range { IsCoordinate result }
{
    match axis {
        Axis::X => p.y(),
        Axis::Y => p.x(),
    }
}

// The point with these coordinates.
fn grid_point(x: i32, y: i32) -> Point
    requires { IsOnGrid x y }
    ensures { result ≡ record { x = x; y = y } }
{
    Point::new(i64::from(x), i64::from(y)).unwrap()
}

/// Successive places of a line, from the first to the last.
#[derive(Clone, Copy, Debug, PartialEq, Eq)]
pub struct Run {
    pub first: i32,
    pub last: i32,
}

impl Model for Run {
    ghost use Rattle.cleanup_pocket.specs.Runs.{Run as LineRun};

    ghost Value = { LineRun };

    ghost view = { λ r. record { first = r.first; last = r.last } };

    ghost inverse = { λ r. record { first = r.first; last = r.last } };
}

impl Run {
    ghost use Rattle.std.specs.Prelude.{◌≡◌, pos, ◌+ℤ◌};
    ghost use Rattle.plane_exact.specs.Plane.{IsCoordinate};

    /// The place behind the last one.
    pub fn behind(&self) -> i32
        requires last { IsCoordinate self.now.last }
        requires next { IsCoordinate (self.now.last +ℤ pos 1) }
        ensures { result ≡ self.now.last +ℤ pos 1 }
    {
        self.last + 1
    }
}
