// What a move meets in a drawing: the first edge against which a test fails, or the outside.
ghost use Rattle.std.specs.Prelude.{◌≡◌, ◌⊎◌, ◌↔◌, ◌<◌, ℕ, length, slice_index_or, IfOk, IfSome, IfNone, All, IsTrue};
ghost use Rattle.plane_exact.specs.Moves.{IsDeep, IsTooDeep};
ghost use Rattle.plane_exact.specs.declared.point.Seg.{Seg};
ghost use Rattle.swept_move.specs.Clear.{PassesEdge};
ghost use Rattle.engrave_model.specs.Drawing.{edges_of};
ghost use Rattle.depth_rule.specs.Least.{AtMost};
ghost use Rattle.depth_rule.specs.Met.{IsFirstMet, IsMet, IsMetAt};
ghost use Rattle.depth_rule.specs.Parts.{IsMetBy, IsSettled};

use crate::around::{PARTS, box_between};
use crate::least::is_at_most;
use crate::scene::Scene;
use lane_kernels::Rect;
use plane_exact::{Bit, Move, Seg};
use segment_grid::box_of;
use swept_move::clear_of;

/// What a move meets.
#[derive(Clone, Copy, Debug, PartialEq, Eq)]
pub enum Met {
    /// The edge of this number, from 0, is the first against which one of the three tests fails.
    Edge(u32),
    /// The first end below the surface isn't inside.
    Outside,
    /// No test fails, and the first end below the surface is inside.
    Nothing,
}

// Up to so many edges near the box round a whole move are tested; where there are more, its way is cut into parts.
const FEW: u32 = 64;

// There are more than a few edges near a move.
#[derive(Clone, Copy)]
struct Crowded;

/// What a move that goes below the surface meets: the least edge against which a test fails, or else the outside, or else
/// nothing.
pub fn first_met(scene: &Scene, bit: &Bit, mv: &Move) -> Met
    requires narrow { ¬ IsTooDeep bit.now mv.now }
    requires deep { IsDeep mv.now }
    ensures { IsMet (edges_of scene.now) bit.now mv.now result }
{
    match first_edge_met(scene, bit, mv) {
        Some(e) => Met::Edge(e),
        None if scene.holds(mv.first_deep_end()) => Met::Nothing,
        None => Met::Outside,
    }
}

/// The number of the least edge against which a test fails, by the edges near the move alone, which come in any order.
fn first_edge_met(scene: &Scene, bit: &Bit, mv: &Move) -> Option<u32>
    requires narrow { ¬ IsTooDeep bit.now mv.now }
    requires deep { IsDeep mv.now }
    ensures met { IfSome result (IsFirstMet (edges_of scene.now) bit.now mv.now) }
    ensures none { IfNone result (All (PassesEdge bit.now mv.now) (edges_of scene.now)) }
{
    match least_of_few(scene, bit, mv) {
        Ok(least) => least,
        Err(Crowded) => least_by_parts(scene, bit, mv),
    }
}

// The same by the edges near the box of the whole way, where they are few.
fn least_of_few(scene: &Scene, bit: &Bit, mv: &Move) -> Result<Option<u32>, Crowded>
    requires narrow { ¬ IsTooDeep bit.now mv.now }
    requires deep { IsDeep mv.now }
    ensures met { IfOk result (λ least. IfSome least (IsFirstMet (edges_of scene.now) bit.now mv.now)) }
    ensures none { IfOk result (λ least. IfNone least (All (PassesEdge bit.now mv.now) (edges_of scene.now))) }
{
    let mut least = None;
    let mut tested = 0;
    for e in scene.near(box_between(mv, bit, 0, PARTS)) {
        if tested == FEW {
            return Err(Crowded);
        }
        tested += 1;
        least = lesser_met(least, e, &scene.edge(e), bit, mv);
    }
    Ok(least)
}

// The same by the edges near each of the parts of its way: the box round a long slanted way holds far more edges.
fn least_by_parts(scene: &Scene, bit: &Bit, mv: &Move) -> Option<u32>
    requires narrow { ¬ IsTooDeep bit.now mv.now }
    requires deep { IsDeep mv.now }
    ensures met { IfSome result (IsFirstMet (edges_of scene.now) bit.now mv.now) }
    ensures none { IfNone result (All (PassesEdge bit.now mv.now) (edges_of scene.now)) }
{
    let mut least = None;
    let mut before = None;
    for k in 0..PARTS {
        let q = box_between(mv, bit, k, k + 1);
        least = least_near(scene, bit, mv, q, before, least);
        before = Some(q);
    }
    least
}

// The least so far, or a lesser one against which a test fails and that is near the box `q`. Those whose boxes meet the box before
// it are left out: they were judged with it.
fn least_near(
    scene: &Scene,
    bit: &Bit,
    mv: &Move,
    q: Rect,
    before: Option<Rect>,
    least: Option<u32>,
) -> Option<u32>
    requires narrow { ¬ IsTooDeep bit.now mv.now }
    requires deep { IsDeep mv.now }
    requires met { IfSome least (IsMetAt (edges_of scene.now) bit.now mv.now) }
    ensures met { IfSome result (IsMetAt (edges_of scene.now) bit.now mv.now) }
    ensures keeps { (k : ℕ) → AtMost least k → AtMost result k }
    ensures judged { (k : ℕ) (d : Seg) → k < length (edges_of scene.now) → IsSettled q before bit.now mv.now (slice_index_or (edges_of scene.now) k d) ⊎ AtMost result k }
{
    let mut lesser = least;
    for e in scene.near(q) {
        lesser = lesser_new(before, lesser, e, &scene.edge(e), bit, mv);
    }
    lesser
}

// As `lesser_met`, of an edge whose box doesn't meet the box before.
fn lesser_new(
    before: Option<Rect>,
    least: Option<u32>,
    e: u32,
    edge: &Seg,
    bit: &Bit,
    mv: &Move,
) -> Option<u32>
    requires narrow { ¬ IsTooDeep bit.now mv.now }
    requires deep { IsDeep mv.now }
    ensures keeps { (k : ℕ) → AtMost least k → AtMost result k }
    ensures judged { IsMetBy before edge.now ⊎ (PassesEdge bit.now mv.now edge.now ⊎ AtMost result e) }
    ensures found { (result ≡ least) ⊎ ((result ≡ Some e) × ¬ PassesEdge bit.now mv.now edge.now) }
{
    if is_met_by(before, edge) {
        least
    } else {
        lesser_met(least, e, edge, bit, mv)
    }
}

// Whether the box of the edge meets the box, where there is one.
fn is_met_by(q: Option<Rect>, edge: &Seg) -> bool
    ensures { IsTrue result ↔ IsMetBy q edge.now }
{
    match q {
        Some(q) => q.is_met(box_of(*edge)),
        None => false,
    }
}

/// The number of the edge where it is below the least so far and a test against it fails, else the least so far.
fn lesser_met(least: Option<u32>, e: u32, edge: &Seg, bit: &Bit, mv: &Move) -> Option<u32>
    requires narrow { ¬ IsTooDeep bit.now mv.now }
    requires deep { IsDeep mv.now }
    ensures keeps { (k : ℕ) → AtMost least k → AtMost result k }
    ensures judged { PassesEdge bit.now mv.now edge.now ⊎ AtMost result e }
    ensures found { (result ≡ least) ⊎ ((result ≡ Some e) × ¬ PassesEdge bit.now mv.now edge.now) }
{
    if is_at_most(least, e) || clear_of(mv, bit, *edge) {
        least
    } else {
        Some(e)
    }
}
