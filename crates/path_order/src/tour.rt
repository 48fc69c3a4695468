// The order of the chains.
ghost use Rattle.std.specs.Prelude.{◌≤◌, IfOk, length};
ghost use Rattle.plane_exact.specs.declared.node.TheConstants.{MOST_CHAINS};
ghost use Rattle.path_order.specs.Order.{IsOrder};

use crate::ends::{last_of, start};
use crate::left::Left;
use plane_exact::Chain;
use std::alloc::{AllocError, Global};

/// The numbers of the chains, from 0, in the order in which they are cut.
///
/// The bit begins at the origin. The next chain is always the one that isn't cut yet whose first node lies nearest to the place of
/// the bit, the one of the least number where several do; it leaves the bit at its last node. There are at most 131,072 chains. The
/// error is running out of memory.
pub fn order(alloc: Global, chains: &[Chain]) -> Result<Vec<u32>, AllocError>
    requires { length chains.now ≤ MOST_CHAINS }
    ensures { IfOk result (λ order. IsOrder chains.now order.items) }
{
    let mut left = Left::of(alloc, chains)?;
    let mut order = Vec::with_capacity(alloc, chains.len())?;
    let mut place = start();
    while let Some(number) = left.take_nearest(place) {
        order.push(number)?;
        place = last_of(&chains[number as usize]);
    }
    Ok(order)
}
