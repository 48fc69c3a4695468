// Nodes of a carved path, and chains of them.
ghost use Rattle.std.specs.Prelude.{◌≡◌, ◌++◌, ◌∷◌, [], IfOk, OnErr, OnOk};

use crate::moves::{MOST_DEPTH, Move, Spot};
use crate::point::Point;
use std::alloc::{AllocError, Global};
use std::marker::Model;

/// A point of the grid, and how deep the bit goes there, in grid units, at most 32,767.
#[derive(Clone, Copy, Debug, PartialEq, Eq)]
pub struct Node {
    pub at: Point,
    pub depth: u32,
}

impl Model for Node {
    ghost use Rattle.std.specs.Prelude.{◌≤◌};
    ghost use Rattle.plane_exact.specs.Nodes.{GridNode};

    ghost Value = { GridNode };

    ghost view = { λ n. record { at = n.at; depth = n.depth } };

    ghost invariant = { λ n. n.depth ≤ 32767 };

    ghost inverse = { λ g. record { at = g.at; depth = g.depth } };
}

impl Node {
    ghost use Rattle.plane_exact.specs.Nodes.{node_place};
    ghost use Rattle.std.specs.Prelude.{◌≡◌};

    /// Where the tip is at the node, in tenths of a grid unit.
    pub fn spot(&self) -> Spot
        ensures { result ≡ node_place self.now }
    {
        Spot {
            x: 10 * self.at.x(),
            y: 10 * self.at.y(),
            h: -10 * self.depth as i32,
        }
    }
}

impl Move {
    ghost use Rattle.plane_exact.specs.Nodes.{node_place};
    ghost use Rattle.std.specs.Prelude.{◌≡◌};

    /// The straight move from one node to another.
    pub fn between(p: Node, q: Node) -> Move
        ensures { result ≡ record { from = node_place p; to = node_place q } }
    {
        Move {
            from: p.spot(),
            to: q.spot(),
        }
    }
}

/// The most chains of a path.
pub const MOST_CHAINS: usize = 131_072;

/// The most nodes of a path, those of all its chains together.
pub const MOST_NODES: usize = 4_194_304;

/// Nodes in turn, at least one, between which the bit stays below or at the surface.
#[derive(Debug, Drop)]
pub struct Chain {
    nodes: Vec<Node>,
}

impl Model for Chain {
    ghost use Rattle.std.specs.Prelude.{List};
    ghost use Rattle.plane_exact.specs.Nodes.{GridNode, IsChain};

    ghost Value = { List GridNode };

    ghost view = { λ c. c.nodes.items };

    ghost invariant = { λ c. IsChain c.nodes.items };
}

impl Chain {
    ghost use Rattle.std.specs.Prelude.{◌≡◌, ◌++◌, ◌∷◌, [], IfOk, OnErr, OnOk};
    ghost use Rattle.plane_exact.specs.Nodes.{IsChain};

    /// The chain of the one node. The error is running out of memory.
    pub fn one(alloc: Global, node: Node) -> Result<Chain, AllocError>
        ensures { IfOk result (λ chain. chain ≡ node ∷ []) }
    {
        let mut nodes = Vec::new(alloc);
        nodes.push(node)?;
        Ok(Chain { nodes })
    }

    /// Adds a node at the end. Where memory runs out, the chain is as before.
    pub fn push(&mut self, node: Node) -> Result<(), AllocError>
        ensures pushed { OnOk result (self.new ≡ self.old ++ node ∷ []) }
        ensures unchanged { OnErr result (self.new ≡ self.old) }
    {
        self.nodes.push(node)?;
        Ok(())
    }

    /// The nodes in turn.
    pub fn nodes(&self) -> &[Node]
        ensures nodes { result.now ≡ self.now }
        ensures range { IsChain self.now }
    {
        &self.nodes
    }
}
