// Whether a drawing holds a grid point, by the even-odd rule counted over all edges.
ghost use Rattle.std.specs.Prelude.{◌≡◌, ◌↔◌, ◌%◌, IsTrue, count_by, pos, int_le, int_lt};
ghost use Rattle.plane_exact.specs.Plane.{rational};
ghost use Rattle.plane_exact.specs.Product.{cross_of};
ghost use Rattle.engrave_model.specs.Inside.{IsOnOutline, IsInside, is_counted};

use plane_exact::{Point, Seg, cross, passes_through};

// Whether the point lies on an edge.
fn is_on_outline(edges: &[Seg], p: Point) -> bool
    ensures { IsTrue result ↔ IsOnOutline edges.now (rational p) }
{
    edges.iter().any(|e| passes_through(*e, p))
}

// Whether `p` isn't above the row of `w`.
fn is_at_or_below(p: Point, w: Point) -> bool
    ensures { result ≡ int_le p.y w.y }
{
    p.y() <= w.y()
}

// Whether `p` lies strictly to the left of the line from `a` through `b`.
fn is_left_of(a: Point, b: Point, p: Point) -> bool
    ensures { result ≡ int_lt (pos 0) (cross_of a b p) }
{
    cross(a, b, p) > 0
}

// Whether `p` lies strictly to the right of the line from `a` through `b`.
fn is_right_of(a: Point, b: Point, p: Point) -> bool
    ensures { result ≡ int_lt (cross_of a b p) (pos 0) }
{
    cross(a, b, p) < 0
}

// Whether the edge passes the row of the point strictly to the right of it. An edge passes a row where exactly one of its
// ends isn't above it.
fn is_edge_counted(p: Point, e: Seg) -> bool
    ensures { result ≡ is_counted (rational p) e }
{
    match (is_at_or_below(e.a, p), is_at_or_below(e.b, p)) {
        (true, false) => is_left_of(e.a, e.b, p),
        (false, true) => is_right_of(e.a, e.b, p),
        _ => false,
    }
}

// Whether an odd number of edges is counted at the point.
fn is_count_odd(edges: &[Seg], p: Point) -> bool
    ensures { IsTrue result ↔ (count_by (is_counted (rational p)) edges.now % 2 ≡ 1) }
{
    edges.iter().filter(|e| is_edge_counted(p, **e)).count() % 2 == 1
}

/// Whether the point is inside: on no edge, and to the left of an odd number of edges that pass its row.
pub fn is_inside(edges: &[Seg], p: Point) -> bool
    ensures { IsTrue result ↔ IsInside edges.now (rational p) }
{
    is_count_odd(edges, p) && !is_on_outline(edges, p)
}
