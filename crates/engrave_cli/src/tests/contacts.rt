// `contacts`: worked examples by their whole text, and refusals. The expected discs were computed in fractions by another program.

use super::{Case, SQUARE, expect, plain_run};
use std::alloc::{AllocError, Global};
use std::test::Fail;

/// The greatest square.
const GREATEST: &str = "-32768,-32768 32767,-32768 32767,32767 -32768,32767\n";

const CASES: &[Case<'static>] = &[
    // A corner that points inwards limits the discs at its own two edges by their neighbours.
    (
        "contacts --drawing=d --step=20 --rmax=60",
        ("0,0 40,0 40,20 20,20 20,40 0,40", ""),
        (
            0,
            "0 0 0/2 none 0 0,0\n\
             0 0 1/2 left 10 20,10\n\
             0 0 2/2 none 0 40,0\n\
             0 1 0/1 none 0 40,0\n\
             0 1 1/1 none 0 40,20\n\
             0 2 0/1 none 0 40,20\n\
             0 2 1/1 left 10 20,10\n\
             0 3 0/1 left 10 10,20\n\
             0 3 1/1 none 0 20,40\n\
             0 4 0/1 none 0 20,40\n\
             0 4 1/1 none 0 0,40\n\
             0 5 0/2 none 0 0,40\n\
             0 5 1/2 left 10 10,20\n\
             0 5 2/2 none 0 0,0\n",
        ),
    ),
    // A sliver: at most places no disc is free.
    (
        "contacts --drawing=d --step=50 --rmax=60",
        ("0,0 100,0 100,3", ""),
        (
            0,
            "0 0 0/2 none 0 0,0\n\
             0 0 1/2 none 0 50,0\n\
             0 0 2/2 none 0 100,0\n\
             0 1 0/1 none 0 100,0\n\
             0 1 1/1 none 0 100,3\n\
             0 2 0/3 none 0 100,3\n\
             0 2 1/3 left 1 67,1\n\
             0 2 2/3 none 0 33,1\n\
             0 2 3/3 none 0 0,0\n",
        ),
    ),
    // Three loops that meet in a point.
    (
        "contacts --drawing=d --step=40 --rmax=60",
        ("0,0 30,0 0,30\n0,0 -30,0 -30,-30\n0,0 30,-30 0,-30", ""),
        (
            0,
            "0 0 0/1 none 0 0,0\n\
             0 0 1/1 none 0 30,0\n\
             0 1 0/2 none 0 30,0\n\
             0 1 1/2 left 8 9,9\n\
             0 1 2/2 none 0 0,30\n\
             0 2 0/1 none 0 0,30\n\
             0 2 1/1 none 0 0,0\n\
             1 3 0/1 none 0 0,0\n\
             1 3 1/1 none 0 -30,0\n\
             1 4 0/1 none 0 -30,0\n\
             1 4 1/1 none 0 -30,-30\n\
             1 5 0/2 none 0 -30,-30\n\
             1 5 1/2 left 8 -21,-9\n\
             1 5 2/2 none 0 0,0\n\
             2 6 0/2 none 0 0,0\n\
             2 6 1/2 right 8 9,-21\n\
             2 6 2/2 none 0 30,-30\n\
             2 7 0/1 none 0 30,-30\n\
             2 7 1/1 none 0 0,-30\n\
             2 8 0/1 none 0 0,-30\n\
             2 8 1/1 none 0 0,0\n",
        ),
    ),
    // The vertex of another loop limits the disc at the middle of the plate's lower side.
    (
        "contacts --drawing=d --step=30 --rmax=60",
        ("0,0 60,0 60,60 0,60\n30,20 40,40 20,40", ""),
        (
            0,
            "0 0 0/2 none 0 0,0\n\
             0 0 1/2 left 10 30,10\n\
             0 0 2/2 none 0 60,0\n\
             0 1 0/2 none 0 60,0\n\
             0 1 1/2 left 11 49,30\n\
             0 1 2/2 none 0 60,60\n\
             0 2 0/2 none 0 60,60\n\
             0 2 1/2 left 10 30,50\n\
             0 2 2/2 none 0 0,60\n\
             0 3 0/2 none 0 0,60\n\
             0 3 1/2 left 11 11,30\n\
             0 3 2/2 none 0 0,0\n\
             1 4 0/1 right 14 42,14\n\
             1 4 1/1 right 10 49,36\n\
             1 5 0/1 right 10 40,50\n\
             1 5 1/1 right 10 20,50\n\
             1 6 0/1 right 10 11,36\n\
             1 6 1/1 right 14 18,14\n",
        ),
    ),
    // Two plates side by side: a disc in each.
    (
        "contacts --drawing=d --step=10 --rmax=60",
        ("0,0 10,0 10,20 0,20\n12,0 32,0 32,20 12,20", ""),
        (
            0,
            "0 0 0/1 none 0 0,0\n\
             0 0 1/1 none 0 10,0\n\
             0 1 0/2 none 0 10,0\n\
             0 1 1/2 left 5 5,10\n\
             0 1 2/2 none 0 10,20\n\
             0 2 0/1 none 0 10,20\n\
             0 2 1/1 none 0 0,20\n\
             0 3 0/2 none 0 0,20\n\
             0 3 1/2 left 5 5,10\n\
             0 3 2/2 none 0 0,0\n\
             1 4 0/2 none 0 12,0\n\
             1 4 1/2 left 10 22,10\n\
             1 4 2/2 none 0 32,0\n\
             1 5 0/2 none 0 32,0\n\
             1 5 1/2 left 10 22,10\n\
             1 5 2/2 none 0 32,20\n\
             1 6 0/2 none 0 32,20\n\
             1 6 1/2 left 10 22,10\n\
             1 6 2/2 none 0 12,20\n\
             1 7 0/2 none 0 12,20\n\
             1 7 1/2 left 10 22,10\n\
             1 7 2/2 none 0 12,0\n",
        ),
    ),
    // A trapezium whose slanted sides limit the disc.
    (
        "contacts --drawing=d --step=30 --rmax=60",
        ("0,0 60,0 50,10 10,10", ""),
        (
            0,
            "0 0 0/2 none 0 0,0\n\
             0 0 1/2 left 5 30,5\n\
             0 0 2/2 none 0 60,0\n\
             0 1 0/1 none 0 60,0\n\
             0 1 1/1 none 0 50,10\n\
             0 2 0/2 none 0 50,10\n\
             0 2 1/2 left 5 30,5\n\
             0 2 2/2 none 0 10,10\n\
             0 3 0/1 none 0 10,10\n\
             0 3 1/1 none 0 0,0\n",
        ),
    ),
    ("contacts --drawing=d --step=1 --rmax=60", ("", ""), (0, "")),
    // Contacts are refused in their order.
    (
        "contacts --drawing=d --step=7 --rmax=1",
        (GREATEST, ""),
        (3, "input step too fine 0\n"),
    ),
    (
        "contacts --drawing=d --step=5 --rmax=1",
        ("0,-9 9,-1 9,-9\n0,0 32767,32766 32767,32767 0,1", ""),
        (3, "input step too fine 3\n"),
    ),
    (
        "contacts --drawing=e --step=7 --rmax=1",
        (GREATEST, ""),
        (4, "absent drawing\n"),
    ),
    (
        "contacts --drawing=d --step=7 --rmax=1",
        ("5,5", ""),
        (3, "input loops 0 short\n"),
    ),
    (
        "contacts --drawing=d --step=0 --rmax=1",
        (GREATEST, ""),
        (2, "usage\n"),
    ),
    (
        "contacts --drawing=d --step=32768 --rmax=1",
        (GREATEST, ""),
        (2, "usage\n"),
    ),
    (
        "contacts --drawing=d --step=9 --rmax=0",
        (GREATEST, ""),
        (2, "usage\n"),
    ),
    (
        "contacts --drawing=d --step=9 --rmax=8192",
        (GREATEST, ""),
        (2, "usage\n"),
    ),
    (
        "contacts --drawing=d --rmax=1",
        (GREATEST, ""),
        (2, "usage\n"),
    ),
    (
        "contacts --drawing=d --step=9 --rmax=1 --bit=1/1",
        (GREATEST, ""),
        (2, "usage\n"),
    ),
];

#[test]
fn each_contact_is_printed_with_its_disc_or_refused(rt: HostRuntime) {
    expect(&rt, rt.alloc(), "", CASES);
}

#[test]
fn discs_of_a_square_follow_its_middle_whichever_way_it_goes(rt: HostRuntime) {
    let words = "contacts --drawing=d --step=250 --rmax=600";
    let (status, text) = plain_run(rt.alloc(), &[words], (SQUARE, ""));
    assert_eq!(rt; (status, text.as_str().lines().count()), (0, 20));
    assert!(rt;
        text.as_str().starts_with(
            "0 0 0/4 none 0 0,0\n0 0 1/4 left 250 250,250\n0 0 2/4 left 500 500,500\n\
             0 0 3/4 left 250 750,250\n0 0 4/4 none 0 1000,0\n"
        )
    );
    let mirrored = "0,0 0,1000 1000,1000 1000,0";
    let (_, text) = plain_run(rt.alloc(), &[words], (mirrored, ""));
    let disc = text.as_str().lines().nth(16);
    assert_eq!(rt; disc, Some("0 3 1/4 right 250 750,250"));
}

#[test]
fn the_finest_step_of_the_greatest_square_is_printed(rt: HostRuntime) {
    let words = "contacts --drawing=d --step=8 --rmax=8191";
    let (status, text) = plain_run(rt.alloc(), &[words], (GREATEST, ""));
    assert_eq!(rt; (status, text.as_str().lines().count()), (0, 32_772));
    // No disc is free at the last corner.
    let last = "\n0 3 8192/8192 none 0 -32768,-32768\n";
    assert!(rt; text.as_str().ends_with(last));
}

/// Squares around one another: 132 edges of 8128 to 8192 pieces each.
fn squares_in_squares(alloc: Global) -> Result<String, AllocError> {
    let mut many = String::new(alloc);
    for number in 0..33u32 {
        let (low, high) = (32_768 - 8 * number, 32_767 - 8 * number);
        writeln!(
            many,
            "-{low},-{low} {high},-{low} {high},{high} -{low},{high}"
        )?;
    }
    Ok(many)
}

#[test]
fn too_many_contacts_are_refused(rt: HostRuntime) -> Result<(), Fail> {
    let many = squares_in_squares(rt.alloc())?;
    let words = "contacts --drawing=d --step=8 --rmax=1";
    let refused = (3, "input too many contacts\n");
    expect(
        &rt,
        rt.alloc(),
        words,
        &[("", (many.as_str(), ""), refused)],
    );
    Ok(())
}
