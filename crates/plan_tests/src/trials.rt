// Small fields, by the definition written out by hand, and the greatest one's counts.
use plane_exact::Point;
use std::alloc::AllocError;
use std::test::Fail;
use trial_field::trial_field;

#[test]
fn one_cell_is_an_octagon(rt: HostRuntime) -> Result<(), Fail> {
    let field = trial_field(rt.alloc(), 1)?;
    assert_eq!(rt; field.loops(), 1);
    assert_eq!(rt; field.edges(), 8);
    Ok(())
}

#[test]
fn the_second_cell_is_two_squares(rt: HostRuntime) -> Result<(), Fail> {
    let field = trial_field(rt.alloc(), 2)?;
    assert_eq!(rt; field.loops(), 3);
    assert_eq!(rt; field.edges(), 16);
    assert!(rt; field.points(1).first().copied() == Point::new(4910, 1910));
    assert!(rt; field.points(2).first().copied() == Point::new(4705, 1705));
    Ok(())
}

#[test]
fn the_greatest_field_has_640_edges(rt: HostRuntime) -> Result<(), Fail> {
    let field = trial_field(rt.alloc(), 80)?;
    assert_eq!(rt; field.loops(), 120);
    assert_eq!(rt; field.edges(), 640);
    Ok(())
}
