// Small drawings, and chains as text, for the tests of every plan.
use depth_rule::Scene;
use loops_text::read_loops;
use plane_exact::Chain;
use std::alloc::{AllocError, Global};

/// An L of 4 mm whose arms are 2 mm wide; its inner corner is at (200, 200).
pub const ANGLE: &str = "0,0 400,0 400,200 200,200 200,400 0,400";

/// The scene of a short text in the loops form.
pub fn scene_of(alloc: Global, loops: &str) -> Option<Scene> {
    let text = loops.as_bytes();
    if text.len() > 1000 {
        return None;
    }
    Scene::new(alloc, read_loops(alloc, text).ok()?).ok()
}

/// The chains as text: `X Y DEPTH, ` a node, and `up; ` behind each chain.
pub fn text_of(alloc: Global, chains: &[Chain]) -> Result<String, AllocError> {
    let mut text = String::new(alloc);
    for chain in chains {
        for node in chain.nodes() {
            let (x, y, depth) = (node.at.x(), node.at.y(), node.depth);
            write!(text, "{x} {y} {depth}, ")?;
        }
        text.push_str("up; ")?;
    }
    Ok(text)
}
