// Programs of visits by their whole text. The expected texts are written by hand.
ghost use Rattle.plane_exact.specs.Heights.{IsSpot};

use gcode_text::write_visits;
use grid_num::Units;
use plane_exact::Spot;
use std::alloc::Global;
use std::test::Fail;

// Two places that are left straight up.
const UPRIGHT: &str =
    "(repaired 1 of 2)\nG21\nG90\nF500\nG0 Z2.000\nG0 X1.000 Y3.000\nG0 X1.000 Y3.000 Z2.000\n\
    G1 X1.000 Y3.000 Z-1.000\nG0 X1.000 Y3.000 Z2.000\nG0 X3.000 Y1.000 Z2.000\n\
    G1 X3.000 Y1.000 Z-1.000\nG0 X3.000 Y1.000 Z2.000\nM2\n";

// Slanted up out of the cut, along the surface, and up, on tenths of the grid.
const SLANTED: &str =
    "(repaired 0 of 4294967295)\nG20\nG90\nF500\nG0 Z0.2000\nG0 X1.0005 Y-32.7680\n\
    G1 X1.0005 Y-32.7680 Z-0.0001\nG1 X1.0005 Y32.7670 Z0.0000\nG0 X1.0006 Y32.7670 Z0.0000\n\
    G0 X1.0006 Y32.7670 Z32.7670\nM2\n";

const NOWHERE: &str = "(repaired 0 of 0)\nG21\nG90\nF500\nG0 Z2.000\nM2\n";

fn text_of(
    alloc: Global,
    units: Units,
    visits: &[Spot],
    changed: u32,
    count: u32,
) -> Result<String, Fail> {
    let code = write_visits(alloc, units, 200, 500, visits, changed, count)?;
    Ok(String::from_utf8(code).map_err(|_| "text")?)
}

fn spot(x: i32, y: i32, h: i32) -> Spot
    requires { IsSpot x y h }
{
    Spot { x, y, h }
}

#[test]
fn texts_of_visits(rt: HostRuntime) -> Result<(), Fail> {
    let alloc = rt.alloc();
    let upright = [
        spot(1000, 3000, 2000),
        spot(1000, 3000, -1000),
        spot(1000, 3000, 2000),
        spot(3000, 1000, 2000),
        spot(3000, 1000, -1000),
        spot(3000, 1000, 2000),
    ];
    let slanted = [
        spot(10_005, -327_680, -1),
        spot(10_005, 327_670, 0),
        spot(10_006, 327_670, 0),
        spot(10_006, 327_670, 327_670),
    ];
    let text = text_of(alloc, Units::Mm100, &upright, 1, 2)?;
    assert_eq!(rt; text.as_str(), UPRIGHT);
    let text = text_of(alloc, Units::In1000, &slanted, 0, u32::MAX)?;
    assert_eq!(rt; text.as_str(), SLANTED);
    let text = text_of(alloc, Units::Mm100, &[], 0, 0)?;
    assert_eq!(rt; text.as_str(), NOWHERE);
    Ok(())
}
