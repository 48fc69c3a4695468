// Drawings: closed loops of grid points, kept with their edges in order.
ghost use Rattle.std.specs.Prelude.{◌≡◌, ◌≢◌, ◌+◌, ◌<◌, ◌≤◌, ◌++◌, ◌∷◌, [], false, None, Some, MatchResult, OnErr, OnOk, length, replicate, vec_capacity, vec_len};
ghost use Rattle.std.specs.List.{list_any, slice_get};
ghost use Rattle.plane_exact.specs.Same.{same_point};
ghost use Rattle.engrave_model.specs.Drawing.{AreOnGrid, IsDrawing, edges_of, edges_of_loop};
ghost use Rattle.loops_text.specs.Edges.{loop_number, push_fault};

use engrave_model::MOST_EDGES;
use plane_exact::{Point, Seg, is_same_point};
use std::alloc::{AllocError, Global};
use std::marker::Model;

/// Why a loop can't be added to a drawing, or memory ran out.
#[derive(Clone, Copy, Debug, PartialEq, Eq)]
pub enum PushFault {
    /// The loop has fewer than two points.
    Short,
    /// Successive points are equal, the last and the first among them.
    SamePoint,
    /// The drawing would have more than 131,072 edges.
    TooMany,
    /// Memory ran out.
    Memory,
}

impl From<AllocError> for PushFault {
    ghost use Rattle.loops_text.specs.declared.drawing.PushFault.TheVariants.{Memory};

    ghost from_gives = { λ _ fault. fault ≡ Memory };

    fn from(_error: AllocError) -> PushFault {
        PushFault::Memory
    }
}

/// Closed loops of grid points, at most 131,072 points in all. A loop has at least two points, of which successive ones
/// differ, the last and the first among them. Its edges lead from each of its points to the next, the last one back
/// to the first; the edges of the drawing are numbered from 0, loop by loop.
#[derive(Debug, Drop)]
pub struct Drawing {
    loops: Vec<Vec<Point>>,
    // The edges, by their numbers.
    edges: Vec<Seg>,
    // For each edge the number of its loop.
    loop_numbers: Vec<u32>,
}

impl Model for Drawing {
    ghost use Rattle.std.specs.Prelude.{List, map};
    ghost use Rattle.plane_exact.specs.Plane.{GridPoint};
    ghost use Rattle.loops_text.specs.Kept.{IsKept};

    ghost Value = { List (List GridPoint) };

    ghost view = { λ d. map (λ points. points.items) d.loops.items };

    ghost invariant = { λ d. IsKept (map (λ points. points.items) d.loops.items) d.edges.items d.loop_numbers.items };
}

impl Drawing {
    /// A drawing without loops, which will keep its loops in this allocator. It takes no memory.
    pub fn empty(alloc: Global) -> Drawing
        ensures { result ≡ [] }
    {
        Drawing {
            loops: Vec::new(alloc),
            edges: Vec::new(alloc),
            loop_numbers: Vec::new(alloc),
        }
    }

    /// Adds a loop at the end. On an error the drawing is as before.
    pub fn push_loop(&mut self, points: &[Point]) -> Result<(), PushFault>
        ensures ok { OnOk result (self.new ≡ self.old ++ points.now ∷ []) }
        ensures fault { MatchResult result (λ _. push_fault self.old points.now ≡ None) (λ f. f ≢ PushFault.Memory → push_fault self.old points.now ≡ Some f) }
        ensures unchanged { OnErr result (self.new ≡ self.old) }
    {
        if let Some(fault) = self.fault_of(points) {
            return Err(fault);
        }
        let kept = Vec::from_slice(*self.loops.allocator(), points)?;
        self.loops.reserve(1)?;
        self.edges.reserve(points.len())?;
        self.loop_numbers.reserve(points.len())?;
        let number = self.loops.len() as u32;
        append_repeated(&mut self.loop_numbers, number, points.len());
        append_edges(&mut self.edges, points);
        self.loops.push_reserved(kept);
        Ok(())
    }

    /// The number of loops.
    pub fn loops(&self) -> u32
        ensures count { result ≡ length self.now }
        ensures drawing { IsDrawing self.now }
    {
        self.loops.len() as u32
    }

    /// The points of the loop with this number.
    pub fn points(&self, i: u32) -> &[Point]
        requires { i < length self.now }
        ensures points { slice_get self.now i ≡ Some result.now }
        ensures drawing { IsDrawing self.now }
    {
        &self.loops[i as usize]
    }

    /// The number of edges, which is that of points.
    pub fn edges(&self) -> u32
        ensures count { result ≡ length (edges_of self.now) }
        ensures few { result ≤ MOST_EDGES }
        ensures drawing { IsDrawing self.now }
    {
        self.edges.len() as u32
    }

    /// The edge with this number.
    pub fn edge(&self, e: u32) -> Seg
        requires { e < length (edges_of self.now) }
        ensures edge { slice_get (edges_of self.now) e ≡ Some result }
        ensures drawing { IsDrawing self.now }
    {
        self.edges[e as usize]
    }

    /// The number of the loop that the edge stands in.
    pub fn loop_of(&self, e: u32) -> u32
        requires { e < length (edges_of self.now) }
        ensures { result ≡ loop_number self.now e }
    {
        self.loop_numbers[e as usize]
    }

    /// The edges, by their numbers.
    pub fn all_edges(&self) -> &[Seg]
        ensures edges { result.now ≡ edges_of self.now }
        ensures drawing { IsDrawing self.now }
    {
        &self.edges
    }

    // The first rule that the drawing would break with this loop at its end.
    fn fault_of(&self, points: &[Point]) -> Option<PushFault>
        ensures value { result ≡ push_fault self.now points.now }
        ensures on_grid { result ≡ None → AreOnGrid points.now }
    {
        if points.len() < 2 {
            Some(PushFault::Short)
        } else if repeats_a_point(points) {
            Some(PushFault::SamePoint)
        } else if self.edges.len() + points.len() > MOST_EDGES as usize {
            Some(PushFault::TooMany)
        } else {
            None
        }
    }
}

// Whether an edge of the loop begins and ends at one point.
fn repeats_a_point(points: &[Point]) -> bool
    ensures on_grid { result ≡ false → AreOnGrid points.now }
    ensures value { result ≡ list_any (λ e. same_point e.a e.b) (edges_of_loop points.now) }
{
    let Some((first, rest)) = points.split_first() else {
        return false;
    };
    let mut before = *first;
    for point in rest {
        if is_same_point(before, *point) {
            return true;
        }
        before = *point;
    }
    is_same_point(before, *first)
}

// Appends the loop's edges, for which there is room.
fn append_edges(edges: &mut Vec<Seg>, points: &[Point])
    requires { vec_len edges.old + length points.now ≤ vec_capacity edges.old }
    ensures { edges.new.items ≡ edges.old.items ++ edges_of_loop points.now }
{
    let Some((first, rest)) = points.split_first() else {
        return;
    };
    let mut before = *first;
    for point in rest {
        edges.push_reserved(Seg {
            a: before,
            b: *point,
        });
        before = *point;
    }
    edges.push_reserved(Seg {
        a: before,
        b: *first,
    });
}

// Appends the number so often; there is room.
fn append_repeated(numbers: &mut Vec<u32>, number: u32, count: usize)
    requires { vec_len numbers.old + count ≤ vec_capacity numbers.old }
    ensures { numbers.new.items ≡ numbers.old.items ++ replicate count number }
{
    for _ in 0..count {
        numbers.push_reserved(number);
    }
}
