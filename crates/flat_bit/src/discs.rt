// The discs of a flat bit along chains, as those that a conical bit cuts at the surface.
ghost use Rattle.std.specs.Prelude.{◌≡◌, ◌++◌, IfOk, OnOk};
ghost use Rattle.plane_exact.specs.Cone.{IsFromOneTo};
ghost use Rattle.plane_exact.specs.declared.bit.TheConstants.{MOST_RADIUS};
ghost use Rattle.flat_bit.specs.Discs.{at_radius, disc_moves, moves_over, right_cone};

use plane_exact::{Bit, Chain, LineMove, MOST_RADIUS, Move, Node};
use std::alloc::{AllocError, Global};

/// The bit whose radius at each depth is that depth: at the depth of a flat bit's radius it cuts the flat bit's disc.
pub fn right_angled_bit() -> Bit
    ensures { result ≡ right_cone }
{
    Bit::new(1, 1, MOST_RADIUS).unwrap()
}

/// The moves along the chains at the depth of a flat bit's radius, in grid units. The first of each chain stays at its first node, as the
/// bit does where it goes down.
pub fn disc_moves(alloc: Global, chains: &[Chain], radius: u32) -> Result<Vec<LineMove>, AllocError>
    requires { IsFromOneTo MOST_RADIUS radius }
    ensures { IfOk result (λ moves. moves.items ≡ disc_moves radius chains.now) }
{
    let mut moves = Vec::new(alloc);
    for chain in chains {
        push_moves(chain.nodes(), radius, &mut moves)?;
    }
    Ok(moves)
}

// Adds those of one chain.
fn push_moves(nodes: &[Node], radius: u32, moves: &mut Vec<LineMove>) -> Result<(), AllocError>
    requires { IsFromOneTo MOST_RADIUS radius }
    ensures { OnOk result (moves.new.items ≡ moves.old.items ++ moves_over radius nodes.now) }
{
    let Some(first) = nodes.first() else {
        return Ok(());
    };
    let mut from = at_radius(first, radius);
    for node in nodes {
        let to = at_radius(node, radius);
        moves.push(LineMove {
            line: 1,
            mv: Move::between(from, to),
        })?;
        from = to;
    }
    Ok(())
}

// The node at the depth of the radius in place of its own.
fn at_radius(node: &Node, radius: u32) -> Node
    requires { IsFromOneTo MOST_RADIUS radius }
    ensures { result ≡ at_radius radius node.now }
{
    Node {
        at: node.at,
        depth: radius,
    }
}
