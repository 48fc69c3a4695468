// The moves of a written program, from its chains alone.
ghost use Rattle.std.specs.Prelude.{◌≡◌, ◌+◌, ◌<◌, ◌≤◌, ◌++◌, ◌∷◌, [], IfOk, OnOk, length, map, pos};
ghost use Rattle.plane_exact.specs.Nodes.{AreWithinLimits, node_place, place_over};
ghost use Rattle.gcode_text.specs.Path.{IsJob, chain_moves, chain_places, moves_along};
ghost use Rattle.gcode_text.specs.declared.job.TheConstants.{MOST_SAFE_HEIGHT};

use crate::job::{Job, MOST_SAFE_HEIGHT};
use plane_exact::{Chain, LineMove, MOST_CHAINS, MOST_NODES, Move, Node, Point, Spot};
use std::alloc::{AllocError, Global};
use std::marker::Model;

/// The moves of the text that `write_code` writes, each with its line. The error is running out of memory.
pub fn chain_moves(alloc: Global, job: &Job, chains: &[Chain]) -> Result<Vec<LineMove>, AllocError>
    requires job { IsJob job.now }
    requires few { AreWithinLimits chains.now }
    ensures { IfOk result (λ moves. moves.items ≡ chain_moves job.now chains.now) }
{
    let mut walk = Walk::new(alloc);
    for chain in chains {
        walk.go_along(job, chain)?;
    }
    Ok(walk.into_moves())
}

// The most places of a walk: those of all nodes, and for each chain one over its first node and one over its last.
const MOST_PLACES: usize = MOST_NODES + 2 * MOST_CHAINS;

// The line of the first move: the lines before it set the machine up and take the bit over the first place.
const FIRST_LINE: u32 = 7;

// The places that the bit has gone to.
#[derive(Drop)]
struct Walk {
    moves: Vec<LineMove>,
    at: Option<Spot>,
}

impl Model for Walk {
    ghost use Rattle.std.specs.Prelude.{◌≡◌, List};
    ghost use Rattle.plane_exact.specs.Heights.{GridPlace};
    ghost use Rattle.gcode_text.specs.Path.{moves_along};
    ghost use Rattle.gcode_text.specs.Walk.{places_of};

    ghost Value = { List GridPlace };

    ghost view = { λ w. places_of w.moves.items w.at };

    ghost invariant = { λ w. w.moves.items ≡ moves_along (places_of w.moves.items w.at) };
}

impl Walk {
    // Nowhere yet.
    fn new(alloc: Global) -> Walk
        ensures { result ≡ [] }
    {
        Walk {
            moves: Vec::new(alloc),
            at: None,
        }
    }

    // To the next place. Only from a place on is that a move.
    fn go_to(&mut self, to: Spot) -> Result<(), AllocError>
        requires { length self.old < MOST_PLACES }
        ensures { OnOk result (self.new ≡ self.old ++ to ∷ []) }
    {
        if let Some(from) = self.at {
            let line = FIRST_LINE + self.moves.len() as u32;
            self.moves.push(LineMove {
                line,
                mv: Move { from, to },
            })?;
        }
        self.at = Some(to);
        Ok(())
    }

    fn go_through(&mut self, nodes: &[Node]) -> Result<(), AllocError>
        requires { length self.old + length nodes.now ≤ MOST_PLACES }
        ensures { OnOk result (self.new ≡ self.old ++ map node_place nodes.now) }
    {
        for node in nodes {
            self.go_to(node.spot())?;
        }
        Ok(())
    }

    // Over the chain's first node, through its nodes, and up from the last.
    fn go_along(&mut self, job: &Job, chain: &Chain) -> Result<(), AllocError>
        requires job { IsJob job.now }
        requires room { length self.old + (2 + length chain.now) ≤ MOST_PLACES }
        ensures { OnOk result (self.new ≡ self.old ++ chain_places job.now chain.now) }
    {
        let nodes = chain.nodes();
        let first = nodes[0];
        let last = nodes[nodes.len() - 1];
        self.go_to(spot_over(first.at, job.safe))?;
        self.go_through(nodes)?;
        self.go_to(spot_over(last.at, job.safe))
    }

    fn into_moves(self) -> Vec<LineMove>
        ensures { result.items ≡ moves_along self }
    {
        self.moves
    }
}

// Over the point, at a height in grid units.
fn spot_over(at: Point, height: u32) -> Spot
    requires { height ≤ MOST_SAFE_HEIGHT }
    ensures { result ≡ place_over at (pos height) }
{
    Spot {
        x: 10 * at.x(),
        y: 10 * at.y(),
        h: 10 * height as i32,
    }
}
