// Where a chain begins and ends.
ghost use Rattle.std.specs.Prelude.{◌≡◌};
ghost use Rattle.plane_exact.specs.Nodes.{first_place, last_place, origin};

use plane_exact::{Chain, Point};

// Where the bit is before the first chain.
pub fn start() -> Point
    ensures { result ≡ origin }
{
    match Point::new(0, 0) {
        Some(point) => point,
        None => unreachable!(),
    }
}

pub fn first_of(chain: &Chain) -> Point
    ensures { result ≡ first_place chain.now }
{
    let first = chain.nodes()[0];
    first.at
}

pub fn last_of(chain: &Chain) -> Point
    ensures { result ≡ last_place chain.now }
{
    let nodes = chain.nodes();
    let last = nodes[nodes.len() - 1];
    last.at
}
