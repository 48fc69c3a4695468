// The boxes of edges.
ghost use Rattle.std.specs.Prelude.{◌≡◌};
ghost use Rattle.segment_grid.specs.Near.{box_of, greater, lesser};

use lane_kernels::Rect;
use plane_exact::Seg;

/// The least box that holds the edge.
pub fn box_of(e: Seg) -> Rect
    ensures { result ≡ box_of e }
{
    Rect {
        x0: lesser(e.a.x(), e.b.x()),
        y0: lesser(e.a.y(), e.b.y()),
        x1: greater(e.a.x(), e.b.x()),
        y1: greater(e.a.y(), e.b.y()),
    }
}

fn lesser(a: i32, b: i32) -> i32
    ensures { result ≡ lesser a b }
{
    if a <= b { a } else { b }
}

fn greater(a: i32, b: i32) -> i32
    ensures { result ≡ greater a b }
{
    if a <= b { b } else { a }
}

// The least box that holds the edges; where there are none, that of the origin.
pub(crate) fn bounds_of(edges: &[Seg]) -> Rect {
    let mut bounds = match edges.first() {
        Some(e) => box_of(*e),
        None => Rect::default(),
    };
    for e in edges {
        let b = box_of(*e);
        bounds = Rect {
            x0: bounds.x0.min(b.x0),
            y0: bounds.y0.min(b.y0),
            x1: bounds.x1.max(b.x1),
            y1: bounds.y1.max(b.y1),
        };
    }
    bounds
}
