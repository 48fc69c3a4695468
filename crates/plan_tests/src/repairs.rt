// Repairs of short programs in an L of 4 by 4 whose arms are 2 wide, worked by hand from the rule. Places are in tenths of a grid unit.
use crate::small::{ANGLE, scene_of};
use code_repair::{Repaired, repair};
use plane_exact::{Bit, LineMove, Move, Spot};
use std::alloc::{AllocError, Global};
use std::test::Fail;

type Place = (i32, i32, i32);

// Above the arm that goes up, in it, and in the other arm.
const OVER: Place = (1000, 3000, 2000);

const UP: Place = (1000, 3000, -1000);

const ALONG: Place = (3000, 1000, -1000);

// Between the arms, and so outside.
const OUTSIDE: Place = (3000, 3000, -100);

fn spot_of(place: Place) -> Spot {
    let (x, y, h) = place;
    Spot {
        x: x.clamp(-327_680, 327_670),
        y: y.clamp(-327_680, 327_670),
        h: h.clamp(-327_670, 327_670),
    }
}

// The moves from each place to the next.
fn moves_of(alloc: Global, places: &[Place]) -> Result<Vec<LineMove>, AllocError> {
    let mut moves = Vec::new(alloc);
    let mut before: Option<Spot> = None;
    for place in places {
        let to = spot_of(*place);
        if let Some(from) = before {
            let mv = Move { from, to };
            moves.push(LineMove { line: 1, mv })?;
        }
        before = Some(to);
    }
    Ok(moves)
}

// The repair of the moves along these places.
fn repaired(alloc: Global, rmax: u32, places: &[Place]) -> Option<Repaired> {
    let moves = moves_of(alloc, places).ok()?;
    if moves.len() > 100 {
        return None;
    }
    let scene = scene_of(alloc, ANGLE)?;
    let bit = Bit::new(1, 1, rmax)?;
    repair(alloc, &scene, &bit, 200, &moves).ok()
}

// The repair as text: `X,Y,H ` a visit, and the number of changed moves.
fn text_of(alloc: Global, repaired: &Repaired) -> Result<String, AllocError> {
    let mut text = String::new(alloc);
    for spot in &repaired.visits {
        let (x, y, h) = (spot.x, spot.y, spot.h);
        write!(text, "{x},{y},{h} ")?;
    }
    let changed = repaired.changed;
    write!(text, "{changed}")?;
    Ok(text)
}

#[test]
fn moves_that_leave_the_drawing_become_lifts(rt: HostRuntime) -> Result<(), Fail> {
    for (rmax, places, want) in [
        (200, [].as_slice(), "0"),
        // A clear plunge stays.
        (
            200,
            &[OVER, UP],
            "1000,3000,2000 1000,3000,-1000 1000,3000,2000 0",
        ),
        // A cut across the corner between the arms: up, over, and down again.
        (
            200,
            &[OVER, UP, ALONG],
            "1000,3000,2000 1000,3000,-1000 1000,3000,2000 3000,1000,2000 3000,1000,-1000 3000,1000,2000 1",
        ),
        // A plunge outside: the bit stays up.
        (
            200,
            &[(3000, 3000, 2000), OUTSIDE],
            "3000,3000,2000 3000,3000,2000 3000,3000,2000 3000,3000,2000 1",
        ),
        // It stays up until the end of a later move can be visited, and a clear move behind that stays.
        (
            200,
            &[
                (3000, 3000, 2000),
                OUTSIDE,
                (1000, 3000, -100),
                (1000, 1000, -100),
            ],
            "3000,3000,2000 3000,3000,2000 3000,3000,2000 1000,3000,2000 1000,3000,-100 1000,1000,-100 1000,1000,2000 2",
        ),
        // Too deep for the bit.
        (
            50,
            &[OVER, UP],
            "1000,3000,2000 1000,3000,2000 1000,3000,2000 1000,3000,2000 1",
        ),
    ] {
        let repaired = repaired(rt.alloc(), rmax, places).ok_or("a repair")?;
        let got = text_of(rt.alloc(), &repaired)?;
        assert_eq!(rt; got.as_str(), want);
    }
    Ok(())
}
