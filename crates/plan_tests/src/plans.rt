// Plans of small squares. The expected nodes follow from the definitions by hand: in the middle of a side the greatest disc is as wide
// as the bit and the square allow, and at a corner there is none, so that only the depth 0 fits there.
use crate::small::{scene_of, text_of};
use carve_plan::{PlanFault, plan};
use cleanup_pocket::Way;
use plane_exact::{Bit, Chain, MOST_DEPTH};
use std::alloc::Global;
use std::test::Fail;
use tangent_disc::{ContactFault, MOST_STEP};

const SQUARE: &str = "0,0 4,0 4,4 0,4";

const FAR_SQUARE_AND_SQUARE: &str = "100,0 104,0 104,4 100,4\n0,0 4,0 4,4 0,4";

// Its sides are a unit longer than the most pieces of an edge.
const WIDE_SQUARE: &str = "0,0 8193,0 8193,8193 0,8193";

// The plan for the bit whose depth is its radius, or the fault.
fn planned(
    alloc: Global,
    loops: &str,
    rmax: u32,
    step: u32,
) -> Option<Result<Vec<Chain>, PlanFault>> {
    if step < 1 || step > MOST_STEP {
        return None;
    }
    let scene = scene_of(alloc, loops)?;
    let bit = Bit::new(1, 1, rmax)?;
    Some(plan(alloc, &scene, &bit, MOST_DEPTH, step, None))
}

// The plan's text.
fn plan_text(alloc: Global, loops: &str, rmax: u32, step: u32) -> Option<String> {
    let chains = planned(alloc, loops, rmax, step)?.ok()?;
    text_of(alloc, &chains).ok()
}

#[test]
fn the_bit_stays_down_round_a_square(rt: HostRuntime) -> Result<(), Fail> {
    for (rmax, step, want) in [
        (
            2,
            2,
            "0 0 0, 2 2 2, 4 0 0, 2 2 2, 4 4 0, 2 2 2, 0 4 0, 2 2 2, 0 0 0, up; ",
        ),
        (
            1,
            2,
            "0 0 0, 2 1 1, 4 0 0, 3 2 1, 4 4 0, 2 3 1, 0 4 0, 1 2 1, 0 0 0, up; ",
        ),
        // Contacts at the corners alone: the bit is lifted between any two, and comes back to the first before it goes on.
        (
            2,
            4,
            "0 0 0, up; 0 0 0, up; 4 0 0, up; 4 4 0, up; 0 4 0, up; ",
        ),
    ] {
        let got = plan_text(rt.alloc(), SQUARE, rmax, step).ok_or("a plan")?;
        assert_eq!(rt; got.as_str(), want, "with {rmax} and {step}");
    }
    Ok(())
}

#[test]
fn the_nearer_square_comes_first(rt: HostRuntime) -> Result<(), Fail> {
    let got = plan_text(rt.alloc(), FAR_SQUARE_AND_SQUARE, 2, 2).ok_or("a plan")?;
    assert_eq!(rt;
        got.as_str(),
        "0 0 0, 2 2 2, 4 0 0, 2 2 2, 4 4 0, 2 2 2, 0 4 0, 2 2 2, 0 0 0, up; \
         100 0 0, 102 2 2, 104 0 0, 102 2 2, 104 4 0, 102 2 2, 100 4 0, 102 2 2, 100 0 0, up; "
    );
    Ok(())
}

#[test]
fn an_empty_drawing_has_no_chain(rt: HostRuntime) -> Result<(), Fail> {
    let got = plan_text(rt.alloc(), "", 2, 2).ok_or("a plan")?;
    assert_eq!(rt; got.as_str(), "");
    Ok(())
}

#[test]
fn a_step_may_be_too_fine(rt: HostRuntime) {
    let fault = planned(rt.alloc(), WIDE_SQUARE, 2, 1);
    assert!(rt;
        matches!(
            fault,
            Some(Err(PlanFault::Contact(ContactFault::StepTooFine(0))))
        )
    );
}

// The plan of a square for a bit at most 2 wide and deep, with a pocket.
fn text_with_rows(alloc: Global) -> Option<String> {
    let scene = scene_of(alloc, "0,0 10,0 10,10 0,10")?;
    let bit = Bit::new(1, 1, 2)?;
    let chains = plan(alloc, &scene, &bit, 2, 10, Some((Way::X, 3))).ok()?;
    text_of(alloc, &chains).ok()
}

#[test]
fn the_rows_of_a_pocket_are_among_the_chains(rt: HostRuntime) -> Result<(), Fail> {
    let got = text_with_rows(rt.alloc()).ok_or("a plan")?;
    // Of the two rows the lower is nearest to the corner at which the bit is twice, and the upper to the corner above it.
    assert_eq!(rt;
        got.as_str(),
        "0 0 0, up; 0 0 0, up; 2 3 2, 8 3 2, up; 10 0 0, up; 10 10 0, up; 2 6 2, 8 6 2, up; 0 10 0, up; "
    );
    Ok(())
}
