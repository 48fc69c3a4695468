// Joins loose segments to closed loops.
ghost use Rattle.std.specs.Prelude.{◌≡◌, ◌≢◌, ◌≤◌, All, Err, IfErr, IfOk, Ok, length};
ghost use Rattle.loop_join.specs.Even.{IsEvenWith};
ghost use Rattle.loop_join.specs.Join.{join_of};
ghost use Rattle.loop_join.specs.Once.{HasEachOnce};
ghost use Rattle.loop_join.specs.Walks.{IsJoin, IsLoopFrom};

use crate::ends::other_end;
use crate::odd::open_point;
use crate::unused::Unused;
use engrave_model::MOST_EDGES;
use loops_text::{Drawing, PushFault};
use plane_exact::{Point, Seg, is_same_point};
use std::alloc::{AllocError, Global};

/// Why segments can't be joined, or memory ran out.
#[derive(Clone, Copy, Debug, PartialEq, Eq)]
pub enum JoinFault {
    /// A point at which an odd number of segments end.
    Open(Point),
    /// Memory ran out.
    Memory,
}

impl From<AllocError> for JoinFault {
    ghost use Rattle.loop_join.specs.declared.joining.JoinFault.TheVariants.{Memory};

    ghost from_gives = { λ _ fault. fault ≡ Memory };

    fn from(_error: AllocError) -> JoinFault {
        JoinFault::Memory
    }
}

/// Joins segments, whose ends differ, to closed loops: each of them becomes an edge of the loops once.
///
/// Where an odd number of segments end at some point, the fault is `Open` with the first such point, in the order of the segments,
/// `a` before `b`. Else loops are taken until no segment is left. A loop begins with the unused segment of the lowest number, from
/// its `a` to its `b`; at each point that isn't the loop's start, the unused segment of the lowest number that ends there is taken to
/// its other end; the loop ends when its start is reached. Its points are its start and each further point before the start is
/// reached.
pub fn join(alloc: Global, segs: &[Seg]) -> Result<Drawing, JoinFault>
    requires few { length segs.now ≤ MOST_EDGES }
    requires apart { All (λ s. s.a ≢ s.b) segs.now }
    ensures value { IfOk result (λ loops. join_of segs.now ≡ Ok loops) }
    ensures rule { IfOk result (λ loops. IsJoin segs.now loops) }
    ensures each_once { IfOk result (λ loops. HasEachOnce segs.now loops) }
    ensures fault { IfErr result (λ f. f ≢ JoinFault.Memory → join_of segs.now ≡ Err f) }
{
    if let Some(point) = open_point(alloc, segs)? {
        return Err(JoinFault::Open(point));
    }
    let mut unused = Unused::all(alloc, segs)?;
    let mut drawing = Drawing::empty(alloc);
    while let Some(first) = unused.take_first() {
        let points = walk(alloc, first, &mut unused)?;
        if let Err(fault) = drawing.push_loop(&points) {
            // A closed walk along segments whose ends differ breaks no rule of a drawing.
            prove!(matches!(&fault, PushFault::Memory));
            return Err(JoinFault::Memory);
        }
    }
    Ok(drawing)
}

// The points of the loop that begins with the segment, which is taken already.
fn walk(alloc: Global, first: Seg, unused: &mut Unused) -> Result<Vec<Point>, AllocError>
    requires { IsEvenWith first.a first.b unused.old }
    ensures { IfOk result (λ points. IsLoopFrom first unused.old points.items first.a unused.new) }
{
    let mut points = Vec::new(alloc);
    points.push(first.a)?;
    let mut place = first.b;
    while !is_same_point(place, first.a) {
        points.push(place)?;
        let Some(next) = unused.take_at(place) else {
            unreachable!();
        };
        place = other_end(place, next);
    }
    Ok(points)
}
