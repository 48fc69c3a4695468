// Orders of a few chains, worked out by hand.
use path_order::order;
use plane_exact::{Chain, MOST_CHAINS, Node, Point};
use std::alloc::Global;
use std::test::Fail;

// Chains by their places, and the order that is due.
struct Case {
    chains: &'static [&'static [(i64, i64)]],
    want: &'static [u32],
}

const CASES: &[Case] = &[
    Case {
        chains: &[],
        want: &[],
    },
    Case {
        chains: &[&[(5, 0)], &[(0, 5)], &[(1, 1)]],
        want: &[2, 0, 1],
    },
    // All are as far from the origin.
    Case {
        chains: &[&[(3, 4)], &[(5, 0)], &[(-5, 0)], &[(0, -5)]],
        want: &[0, 1, 3, 2],
    },
    // All begin at one place.
    Case {
        chains: &[&[(7, 7), (9, 9)], &[(7, 7)], &[(7, 7), (0, 1)]],
        want: &[0, 1, 2],
    },
    // Each ends far from where it begins.
    Case {
        chains: &[
            &[(1, 0), (50, 3), (100, 0)],
            &[(2, 0), (0, 0)],
            &[(99, 0), (3, 0)],
        ],
        want: &[0, 2, 1],
    },
    // Corners of the grid.
    Case {
        chains: &[
            &[(-32_768, -32_768)],
            &[(32_767, -32_768)],
            &[(32_767, 32_767)],
        ],
        want: &[2, 1, 0],
    },
];

fn node_at(place: (i64, i64)) -> Option<Node> {
    let at = Point::new(place.0, place.1)?;
    Some(Node { at, depth: 0 })
}

fn chain_through(alloc: Global, places: &[(i64, i64)]) -> Option<Chain> {
    let (first, others) = places.split_first()?;
    let mut chain = Chain::one(alloc, node_at(*first)?).ok()?;
    for place in others {
        chain.push(node_at(*place)?).ok()?;
    }
    Some(chain)
}

fn chains_through(alloc: Global, places: &[&[(i64, i64)]]) -> Option<Vec<Chain>> {
    let mut chains = Vec::new(alloc);
    for chain in places {
        chains.push(chain_through(alloc, chain)?).ok()?;
    }
    Some(chains)
}

#[test]
fn orders(rt: HostRuntime) -> Result<(), Fail> {
    for case in CASES {
        let chains = chains_through(rt.alloc(), case.chains).ok_or("chains")?;
        assert!(rt; chains.len() <= MOST_CHAINS);
        let found = order(rt.alloc(), &chains)?;
        assert_eq!(rt; found.as_slice(), case.want);
    }
    Ok(())
}
