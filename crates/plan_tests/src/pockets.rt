// Pockets of small drawings. The expected chains follow from the definitions by hand: at a depth of 2 the bit is 2 wide to each side, so
// the good points are those at least 2 from every edge.
ghost use Rattle.cleanup_pocket.specs.declared.pockets.TheConstants.{MOST_OVER};
ghost use Rattle.plane_exact.specs.Cone.{IsFromOneTo};
ghost use Rattle.plane_exact.specs.declared.moves.TheConstants.{MOST_DEPTH};

mod random;

use crate::small::{scene_of, text_of};
use cleanup_pocket::{MOST_OVER, Way, pocket};
use plane_exact::{Bit, MOST_DEPTH};
use std::alloc::Global;
use std::test::Fail;

const SQUARE: &str = "0,0 10,0 10,10 0,10";

const SMALL_SQUARE: &str = "0,0 4,0 4,4 0,4";

const PLATE_WITH_HOLE: &str = "0,0 20,0 20,10 0,10\n9,4 11,4 11,6 9,6";

// The sliver is between x = 0 and x = 1 on the row y = 3.
const FRAME_WITH_SLIVER: &str = "-4,0 5,0 5,6 -4,6\n0,2 1,4 1,5";

// The pocket as text, for a bit of the slope sn / sd.
fn pocket_text(
    alloc: Global,
    loops: &str,
    slope: (u32, u32),
    rmax: u32,
    limit: u32,
    over: u32,
    way: Way,
) -> Option<String>
    requires limit { IsFromOneTo MOST_DEPTH limit }
    requires over { IsFromOneTo MOST_OVER over }
{
    let scene = scene_of(alloc, loops)?;
    let bit = Bit::new(slope.0, slope.1, rmax)?;
    let chains = pocket(alloc, &scene, &bit, limit, over, way).ok()?;
    text_of(alloc, &chains).ok()
}

#[test]
fn rows_columns_or_both(rt: HostRuntime) -> Result<(), Fail> {
    let alloc = rt.alloc();
    for (way, want) in [
        (Way::X, "2 3 2, 8 3 2, up; 2 6 2, 8 6 2, up; "),
        (Way::Y, "3 2 2, 3 8 2, up; 6 2 2, 6 8 2, up; "),
        (
            Way::Both,
            "2 3 2, 8 3 2, up; 2 6 2, 8 6 2, up; 3 2 2, 3 8 2, up; 6 2 2, 6 8 2, up; ",
        ),
    ] {
        let got = pocket_text(alloc, SQUARE, (1, 1), 2, 2, 3, way).ok_or("a pocket")?;
        assert_eq!(rt; got.as_str(), want);
    }
    Ok(())
}

#[test]
fn nothing_to_mill(rt: HostRuntime) -> Result<(), Fail> {
    let alloc = rt.alloc();
    let empty = pocket_text(alloc, "", (1, 1), 2, 2, 3, Way::Both).ok_or("a pocket")?;
    assert_eq!(rt; empty.as_str(), "");
    // The bit is wider than it may be at each depth.
    let wide = pocket_text(alloc, SQUARE, (2000, 1), 1, 2, 3, Way::Both).ok_or("a pocket")?;
    assert_eq!(rt; wide.as_str(), "");
    // The square has no good point.
    let narrow = pocket_text(alloc, SMALL_SQUARE, (1, 1), 3, 3, 1, Way::Both).ok_or("a pocket")?;
    assert_eq!(rt; narrow.as_str(), "");
    Ok(())
}

#[test]
fn a_run_of_one_point_is_one_node(rt: HostRuntime) -> Result<(), Fail> {
    let got = pocket_text(rt.alloc(), SMALL_SQUARE, (1, 1), 2, 2, 2, Way::X).ok_or("a pocket")?;
    assert_eq!(rt; got.as_str(), "2 2 2, up; ");
    Ok(())
}

#[test]
fn a_hole_parts_a_row(rt: HostRuntime) -> Result<(), Fail> {
    let got = pocket_text(rt.alloc(), PLATE_WITH_HOLE, (1, 1), 2, 2, 5, Way::X).ok_or("a pocket")?;
    assert_eq!(rt; got.as_str(), "2 5 2, 7 5 2, up; 13 5 2, 18 5 2, up; ");
    Ok(())
}

#[test]
fn a_hole_between_two_good_points_parts_a_row(rt: HostRuntime) -> Result<(), Fail> {
    // The bit is a tenth wide to each side, and both points are farther from the sliver, which the way between them crosses.
    let got = pocket_text(rt.alloc(), FRAME_WITH_SLIVER, (1, 10), 1, 1, 3, Way::X).ok_or(
        "a pocket",
    )?;
    assert_eq!(rt; got.as_str(), "-3 3 1, 0 3 1, up; 1 3 1, 4 3 1, up; ");
    Ok(())
}
