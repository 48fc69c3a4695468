// How segments meet, of plane_exact, which the program doesn't call.

use plane_exact::{Meet, Point, Seg, cross_kind};

fn seg(a: (i64, i64), b: (i64, i64)) -> Option<Seg> {
    Some(Seg {
        a: Point::new(a.0, a.1)?,
        b: Point::new(b.0, b.1)?,
    })
}

/// How two segments whose ends differ meet.
fn met(edge: Seg, other: Seg) -> Option<Meet> {
    if edge.a != edge.b && other.a != other.b {
        Some(cross_kind(edge, other))
    } else {
        None
    }
}

#[test]
fn edges_meet_as_their_points_say(rt: HostRuntime) {
    for (b, c, d, meet) in [
        ((9, 0), (0, 1), (9, 1), Meet::Apart),
        ((9, 0), (5, 1), (5, 9), Meet::Apart),
        ((9, 0), (9, 0), (9, 9), Meet::AtEnds),
        ((9, 0), (9, 0), (12, 0), Meet::AtEnds),
        ((9, 0), (5, -1), (5, 9), Meet::Crosses),
        ((9, 0), (5, 0), (5, 9), Meet::Crosses),
        ((9, 0), (5, 0), (12, 0), Meet::Overlaps),
        ((9, 0), (9, 0), (0, 0), Meet::Overlaps),
    ] {
        let ends = seg((0, 0), b).zip(seg(c, d));
        let found = ends.and_then(|(edge, other)| met(edge, other));
        assert_eq!(rt; found, Some(meet), "{c:?} {d:?}");
    }
}
