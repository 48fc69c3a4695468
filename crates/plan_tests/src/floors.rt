// The ways of flat bits over small drawings. The expected chains follow from the definitions by hand: the bit keeps off each edge by its
// radius and the conical bit's width at the deepest depth.
ghost use Rattle.cleanup_pocket.specs.declared.pockets.TheConstants.{MOST_OVER};
ghost use Rattle.plane_exact.specs.Cone.{IsFromOneTo};
ghost use Rattle.plane_exact.specs.declared.bit.TheConstants.{MOST_RADIUS};
ghost use Rattle.plane_exact.specs.declared.moves.TheConstants.{MOST_DEPTH};

use crate::small::{scene_of, text_of};
use cleanup_pocket::{MOST_OVER, Way};
use flat_bit::flat;
use plane_exact::{Bit, MOST_DEPTH, MOST_RADIUS};
use std::alloc::Global;
use std::test::Fail;

const SQUARE: &str = "0,0 1000,0 1000,1000 0,1000";

const SMALL_SQUARE: &str = "0,0 300,0 300,300 0,300";

const PLATE_WITH_HOLE: &str = "0,0 20,0 20,12 0,12\n9,5 11,5 11,7 9,7";

// The chains of a flat bit of this radius as text, behind a conical bit of the slope sn / sd and a greatest radius of 600.
fn flat_text(
    alloc: Global,
    loops: &str,
    slope: (u32, u32),
    limit: u32,
    radius: u32,
    over: u32,
    way: Way,
) -> Option<String>
    requires limit { IsFromOneTo MOST_DEPTH limit }
    requires radius { IsFromOneTo MOST_RADIUS radius }
    requires over { IsFromOneTo MOST_OVER over }
{
    let scene = scene_of(alloc, loops)?;
    let bit = Bit::new(slope.0, slope.1, 600)?;
    let chains = flat(alloc, &scene, &bit, limit, radius, over, way).ok()?;
    text_of(alloc, &chains).ok()
}

#[test]
fn rows_columns_or_both(rt: HostRuntime) -> Result<(), Fail> {
    let alloc = rt.alloc();
    for (way, want) in [
        (
            Way::X,
            "150 300 100, 850 300 100, up; 150 600 100, 850 600 100, up; ",
        ),
        (
            Way::Y,
            "300 150 100, 300 850 100, up; 600 150 100, 600 850 100, up; ",
        ),
        (
            Way::Both,
            "150 300 100, 850 300 100, up; 150 600 100, 850 600 100, up; 300 150 100, 300 850 100, up; 600 150 100, 600 850 100, up; ",
        ),
    ] {
        let got = flat_text(alloc, SQUARE, (1, 1), 100, 50, 300, way).ok_or("a floor")?;
        assert_eq!(rt; got.as_str(), want);
    }
    Ok(())
}

#[test]
fn nothing_to_mill(rt: HostRuntime) -> Result<(), Fail> {
    let alloc = rt.alloc();
    let empty = flat_text(alloc, "", (1, 1), 100, 50, 300, Way::Both).ok_or("a floor")?;
    assert_eq!(rt; empty.as_str(), "");
    // The conical bit is wider than it may be at each depth.
    let steep = flat_text(alloc, SQUARE, (2000, 1), 100, 50, 300, Way::Both).ok_or("a floor")?;
    assert_eq!(rt; steep.as_str(), "");
    // No point of the square is 550 from its edges.
    let wide = flat_text(alloc, SQUARE, (1, 1), 100, 450, 1, Way::X).ok_or("a floor")?;
    assert_eq!(rt; wide.as_str(), "");
    Ok(())
}

#[test]
fn a_run_of_one_point_is_one_node(rt: HostRuntime) -> Result<(), Fail> {
    let got = flat_text(rt.alloc(), SMALL_SQUARE, (1, 1), 100, 50, 150, Way::X).ok_or("a floor")?;
    assert_eq!(rt; got.as_str(), "150 150 100, up; ");
    Ok(())
}

#[test]
fn a_hole_parts_the_rows_by_two_and_a_half(rt: HostRuntime) -> Result<(), Fail> {
    // A radius of 1 and half of a depth of 3. From (7, 3) the hole's corner is as far as two across and two up.
    let got = flat_text(rt.alloc(), PLATE_WITH_HOLE, (1, 2), 3, 1, 3, Way::X).ok_or("a floor")?;
    assert_eq!(rt;
        got.as_str(),
        "3 3 3, 7 3 3, up; 13 3 3, 17 3 3, up; 3 6 3, 6 6 3, up; 14 6 3, 17 6 3, up; 3 9 3, 7 9 3, up; 13 9 3, 17 9 3, up; "
    );
    Ok(())
}
