// The steps of a link.
use plane_exact::Node;

/// How the bit goes to the next node.
#[derive(Clone, Copy, Debug, PartialEq, Eq)]
pub enum Step {
    /// Straight to the node, below or at the surface.
    To(Node),
    /// Up from where the bit is, over to the node and down to it.
    Lift(Node),
}
