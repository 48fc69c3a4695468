// Chains put in an order.
ghost use Rattle.std.specs.Prelude.{◌≡◌, IfOk, List, Some, map};
ghost use Rattle.plane_exact.specs.Nodes.{GridNode};
ghost use Rattle.path_order.specs.Order.{IsOrder, chain_at};

use plane_exact::Chain;
use std::alloc::{AllocError, Global};

/// The chains of these numbers in turn, where each chain's number stands there once. The error is running out of memory.
pub fn in_order(alloc: Global, chains: Vec<Chain>, order: &[u32]) -> Result<Vec<Chain>, AllocError>
    requires { IsOrder chains.items order.now }
    ensures { IfOk result (λ plan. plan.items ≡ map (chain_at chains.items) order.now) }
{
    let mut slots = slots_of(alloc, chains)?;
    let mut plan = Vec::with_capacity(alloc, order.len())?;
    for number in order {
        match slots[*number as usize].take() {
            Some(chain) => plan.push(chain)?,
            None => unreachable!(),
        }
    }
    Ok(plan)
}

// Each chain in a slot, from which it can be taken.
fn slots_of(alloc: Global, chains: Vec<Chain>) -> Result<Vec<Option<Chain>>, AllocError>
    ensures { IfOk result (λ slots. slots.items ≡ map (λ (chain : List GridNode). Some chain) chains.items) }
{
    chains.into_iter().map(|chain| Some(chain)).collect(alloc)
}
