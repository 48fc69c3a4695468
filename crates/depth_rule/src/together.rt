// Edges that follow each other lie near the same ones: whether any of some crosses an edge behind it is asked once for all of them.
ghost use Rattle.std.specs.Prelude.{◌≡◌, ◌<◌, ◌≤◌, ◌-◌, ℕ, All, IsTrue, drop, length, take};
ghost use Rattle.plane_exact.specs.Plane.{GridPoint};
ghost use Rattle.engrave_model.specs.Crossing.{IsCrossPair, IsCrossing};
ghost use Rattle.engrave_model.specs.Drawing.{edges_of};
ghost use Rattle.depth_rule.specs.Together.{IsHeldIn, IsInRect};

use crate::scene::Scene;
use lane_kernels::Rect;
use loops_text::crosses;
use plane_exact::{Point, Seg};
use segment_grid::box_of;

// So many edges are asked about at once, where their box isn't wider or higher than this many grid units: more edges are near a wide
// box than near each of the edges.
const MOST_TOGETHER: u32 = 8;

const WIDEST: u32 = 512;

/// A number from `i` on: no edge from `i` to the one before it crosses or overlaps an edge behind it. It is `i` where that isn't seen
/// at once.
pub(crate) fn clear_end(scene: &Scene, i: u32) -> u32
    requires { i < length (edges_of scene.now) }
    ensures clear { (k l : ℕ) → i ≤ k → k < result → ¬ IsCrossPair (edges_of scene.now) k l }
    ensures range { (i ≤ result) × (result ≤ length (edges_of scene.now)) }
{
    let edges = some_from(scene.drawing().all_edges(), i);
    let q = box_round(edges);
    if is_wide(q) {
        return i;
    }
    for j in scene.near(q) {
        if !are_clear_of(some_before(edges, i, j), &scene.edge(j)) {
            return i;
        }
    }
    i.saturating_add(MOST_TOGETHER).min(scene.drawing().edges())
}

// The edge `i` and those that follow it, as many as are asked about at once.
fn some_from(edges: &[Seg], i: u32) -> &[Seg]
    ensures { result.now ≡ take MOST_TOGETHER (drop i edges.now) }
{
    let first = (i as usize).min(edges.len());
    let rest = &edges[first..];
    &rest[..(MOST_TOGETHER as usize).min(rest.len())]
}

// Of edges of the numbers from `i` on those whose numbers are below `j`.
fn some_before(edges: &[Seg], i: u32, j: u32) -> &[Seg]
    ensures { result.now ≡ take (j - i) edges.now }
{
    let count = j.saturating_sub(i) as usize;
    &edges[..count.min(edges.len())]
}

// A box that holds the edges.
fn box_round(edges: &[Seg]) -> Rect
    ensures { All (IsHeldIn result) edges.now }
{
    let mut q = match edges.first() {
        Some(edge) => box_of(*edge),
        None => Rect::default(),
    };
    for edge in edges {
        q = widened(widened(q, edge.a), edge.b);
    }
    q
}

// The box, made as wide and high as holds the point too.
fn widened(q: Rect, p: Point) -> Rect
    ensures kept { (r : GridPoint) → IsInRect q r → IsInRect result r }
    ensures held { IsInRect result p }
{
    Rect {
        x0: q.x0.min(p.x()),
        y0: q.y0.min(p.y()),
        x1: q.x1.max(p.x()),
        y1: q.y1.max(p.y()),
    }
}

fn is_wide(q: Rect) -> bool {
    q.x0.abs_diff(q.x1) > WIDEST || q.y0.abs_diff(q.y1) > WIDEST
}

// Whether none of the edges crosses or overlaps the other one.
fn are_clear_of(edges: &[Seg], other: &Seg) -> bool
    ensures { IsTrue result → All (λ e. ¬ IsCrossing e other.now) edges.now }
{
    edges.iter().all(|edge| is_clear_of(edge, other))
}

// Whether the two edges are seen not to cross or overlap.
fn is_clear_of(edge: &Seg, other: &Seg) -> bool
    ensures { IsTrue result → ¬ IsCrossing edge.now other.now }
{
    if !box_of(*edge).is_met(box_of(*other)) {
        return true;
    }
    edge.a != edge.b && other.a != other.b && !crosses(edge, other)
}
