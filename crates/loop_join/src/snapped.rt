// Makes points that are near each other one.
ghost use Rattle.std.specs.Prelude.{◌≡◌, ◌≢◌, ◌≤◌, ◌++◌, [], All, IfOk, OnOk, length};
ghost use Rattle.loop_join.specs.Snap.{snap_of, unless_dropped};

use crate::kept::Kept;
use plane_exact::Seg;
use std::alloc::{AllocError, Global};

/// The segments with points that are near each other made one: those that differ by at most the tolerance, in grid units, in
/// each coordinate. The segments are taken in order, `a` before `b`. A point becomes the earliest kept point that is near it; a
/// point that is near none is kept as it is. A segment whose ends become one point is dropped. It may answer that memory
/// ran out.
pub fn snap(alloc: Global, segs: &[Seg], tolerance: u32) -> Result<Vec<Seg>, AllocError>
    ensures value { IfOk result (λ moved. moved.items ≡ snap_of tolerance segs.now) }
    ensures apart { IfOk result (λ moved. All (λ s. s.a ≢ s.b) moved.items) }
    ensures few { IfOk result (λ moved. length moved.items ≤ length segs.now) }
{
    let mut kept = Kept::none(alloc, tolerance);
    let mut moved = Vec::new(alloc);
    for s in segs {
        let a = kept.place(s.a)?;
        let b = kept.place(s.b)?;
        push_unless_dropped(Seg { a, b }, &mut moved)?;
    }
    Ok(moved)
}

fn push_unless_dropped(s: Seg, segs: &mut Vec<Seg>) -> Result<(), AllocError>
    ensures { OnOk result (segs.new.items ≡ segs.old.items ++ unless_dropped s []) }
{
    if s.a != s.b {
        segs.push(s)?;
    }
    Ok(())
}
