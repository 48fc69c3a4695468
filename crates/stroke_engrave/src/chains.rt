// The chains of strokes.
ghost use Rattle.std.specs.Prelude.{◌≡◌, ◌++◌, ◌∷◌, [], IfOk};
ghost use Rattle.plane_exact.specs.Cone.{IsFromOneTo};
ghost use Rattle.plane_exact.specs.declared.moves.TheConstants.{MOST_DEPTH};
ghost use Rattle.stroke_engrave.specs.Chains.{chains_of, node_at};

use crate::node::node_at;
use plane_exact::{Chain, MOST_DEPTH, Seg, is_same_point};
use std::alloc::{AllocError, Global};
use std::mem::replace;

/// The chains of the strokes, in order: a stroke that begins where the one before it ends goes on its chain, and another begins a chain.
/// All nodes have the depth, in grid units, from 1 to 32,767. The error is running out of memory.
pub fn stroke_chains(alloc: Global, strokes: &[Seg], depth: u32) -> Result<Vec<Chain>, AllocError>
    requires { IsFromOneTo MOST_DEPTH depth }
    ensures value { IfOk result (λ chains. chains.items ≡ chains_of depth strokes.now) }
{
    let mut chains = Vec::new(alloc);
    let Some((first, others)) = strokes.split_first() else {
        return Ok(chains);
    };
    let mut going = chain_of(alloc, first, depth)?;
    let mut end = first.b;
    for stroke in others {
        if is_same_point(stroke.a, end) {
            going.push(node_at(stroke.b, depth))?;
        } else {
            let next = chain_of(alloc, stroke, depth)?;
            chains.push(replace(&mut going, next))?;
        }
        end = stroke.b;
    }
    chains.push(going)?;
    Ok(chains)
}

// The chain of one stroke.
fn chain_of(alloc: Global, stroke: &Seg, depth: u32) -> Result<Chain, AllocError>
    requires { IsFromOneTo MOST_DEPTH depth }
    ensures { IfOk result (λ chain. chain ≡ node_at depth stroke.now.a ∷ node_at depth stroke.now.b ∷ []) }
{
    let mut chain = Chain::one(alloc, node_at(stroke.a, depth))?;
    chain.push(node_at(stroke.b, depth))?;
    Ok(chain)
}
