// The bounding box of a drawing.
ghost use Rattle.std.specs.Prelude.{◌≡◌, [], map, MatchOption};
ghost use Rattle.evenodd_region.specs.Bounds.{IsBoxOf};

use plane_exact::{Point, Seg};

/// A box with sides along the axes. It may be flat.
#[derive(Clone, Copy, Debug, PartialEq, Eq)]
pub struct Bounds {
    /// The lower left corner.
    pub low: Point,
    /// The upper right corner.
    pub high: Point,
}

// The least box that holds the starts of all edges; None where there is no edge.
pub(crate) fn bounds_of_starts(edges: &[Seg]) -> Option<Bounds>
    ensures { MatchOption result (edges.now ≡ []) (λ b. IsBoxOf (map (λ e. e.a) edges.now) b.low b.high) }
{
    let Some((first, _)) = edges.split_first() else {
        return None;
    };
    let mut low = first.a;
    let mut high = first.a;
    for edge in edges {
        low = low.lower_left(edge.a);
        high = high.upper_right(edge.a);
    }
    Some(Bounds { low, high })
}
