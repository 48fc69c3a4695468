// Links over an L-shaped drawing, whose inner corner is at (200, 200). The expected steps come from plain programs of the definitions.
use crate::small::{ANGLE, scene_of};
use depth_rule::Scene;
use link_split::{MOST_HALVINGS, Step, link};
use plane_exact::{Bit, Node, Point};
use std::alloc::{AllocError, Global};
use std::test::Fail;

const LIMIT: u32 = 200;

// A point and a depth.
type Place = (i64, i64, u32);

fn node(place: Place) -> Option<Node> {
    let (x, y, depth) = place;
    if depth > LIMIT {
        return None;
    }
    let at = Point::new(x, y)?;
    Some(Node { at, depth })
}

// The steps as text: `to X Y DEPTH; ` or `lift X Y DEPTH; ` a step.
fn text_of(alloc: Global, steps: &[Step]) -> Result<String, AllocError> {
    let mut text = String::new(alloc);
    for step in steps {
        let (word, node) = match step {
            Step::To(node) => ("to", node),
            Step::Lift(node) => ("lift", node),
        };
        let (x, y, depth) = (node.at.x(), node.at.y(), node.depth);
        write!(text, "{word} {x} {y} {depth}; ")?;
    }
    Ok(text)
}

// The link of the bit whose depth is its radius.
fn linked(alloc: Global, scene: &Scene, from: Place, to: Place, halvings: u32) -> Option<String> {
    if halvings > MOST_HALVINGS {
        return None;
    }
    let bit = Bit::new(1, 1, 200)?;
    let steps = link(alloc, scene, &bit, LIMIT, node(from)?, node(to)?, halvings).ok()?;
    text_of(alloc, &steps).ok()
}

#[test]
fn links_go_straight_where_that_is_clear(rt: HostRuntime) -> Result<(), Fail> {
    let alloc = rt.alloc();
    let scene = scene_of(alloc, ANGLE).ok_or("a scene")?;
    for (from, to, halvings, want) in [
        // Halfway is the inner corner, where no depth but 0 fits.
        ((100, 300, 100), (300, 100, 100), 8, "lift 300 100 100; "),
        ((100, 300, 100), (100, 300, 100), 8, ""),
        ((100, 300, 100), (100, 100, 100), 0, "to 100 100 100; "),
        ((100, 300, 0), (100, 100, 0), 8, "lift 100 100 0; "),
        ((100, 250, 100), (250, 100, 100), 0, "lift 250 100 100; "),
        (
            (100, 250, 100),
            (250, 100, 100),
            2,
            "to 137 212 63; lift 175 175 35; lift 212 137 63; to 250 100 100; ",
        ),
    ] {
        let got = linked(alloc, &scene, from, to, halvings).ok_or("a link")?;
        assert_eq!(rt; got.as_str(), want, "with {halvings}");
    }
    Ok(())
}

#[test]
fn over_an_empty_drawing_each_link_is_a_lift(rt: HostRuntime) -> Result<(), Fail> {
    let alloc = rt.alloc();
    let scene = scene_of(alloc, "").ok_or("a scene")?;
    let got = linked(alloc, &scene, (100, 300, 100), (100, 100, 100), 8).ok_or("a link")?;
    assert_eq!(rt; got.as_str(), "lift 100 100 100; ");
    Ok(())
}
