// Contacts and discs of small drawings. The expected discs were computed in fractions by another program.
use crate::scenes::{drawing_of, push_square, scene_of};
use depth_rule::Scene;
use loops_text::Drawing;
use plane_exact::Point;
use std::alloc::Global;
use tangent_disc::{Contact, ContactFault, Disc, Side, contacts, tangent};

const SQUARE: &[u8] = b"0,0 1000,0 1000,1000 0,1000\n";

// The same square the other way round.
const MIRRORED: &[u8] = b"0,0 0,1000 1000,1000 1000,0\n";

const SLIVER: &[u8] = b"0,0 3000,7 3000,0\n";

// With a corner at (300, 300) that points inwards.
const ANGLE: &[u8] = b"0,0 900,0 900,300 300,300 300,900 0,900\n";

// A plate, and a hole in it with a corner towards its lower edge.
const PLATE: &[u8] = b"0,0 2000,0 2000,2000 0,2000\n1000,301 1100,900 900,900\n";

// An edge, with k and n of a contact on it, and rmax; and what is wanted there.
type Row = ((u32, u32, u32), u32, Side, u32, (i64, i64));

const IN_SQUARE: [Row; 6] = [
    ((0, 0, 4), 600, Side::Nowhere, 0, (0, 0)),
    ((0, 1, 4), 600, Side::Left, 250, (250, 250)),
    ((0, 2, 4), 600, Side::Left, 500, (500, 500)),
    ((0, 2, 4), 31, Side::Left, 31, (500, 31)),
    ((0, 3, 4), 600, Side::Left, 250, (750, 250)),
    ((0, 4, 4), 600, Side::Nowhere, 0, (1000, 0)),
];

const IN_MIRRORED: [Row; 2] = [
    ((3, 1, 4), 600, Side::Right, 250, (750, 250)),
    ((0, 2, 4), 600, Side::Right, 500, (500, 500)),
];

const IN_SLIVER: [Row; 3] = [
    ((0, 2, 3), 600, Side::Right, 2, (2000, 3)),
    ((1, 1, 2), 8191, Side::Right, 3, (2997, 4)),
    ((0, 3000, 3001), 600, Side::Nowhere, 0, (2999, 7)),
];

const IN_ANGLE: [Row; 2] = [
    ((2, 1, 1), 600, Side::Left, 150, (300, 150)),
    ((3, 0, 1), 600, Side::Left, 150, (150, 300)),
];

const ROUND_HOLE: [Row; 3] = [
    ((0, 1, 2), 8191, Side::Left, 150, (1000, 150)),
    ((0, 1, 3), 8191, Side::Left, 324, (667, 324)),
    ((4, 0, 1), 8191, Side::Right, 258, (1254, 259)),
];

// The disc at k / n of the edge; None where there is no such contact.
fn disc_at(scene: &Scene, edge: u32, k: u32, n: u32, rmax: u32) -> Option<Disc> {
    if edge >= scene.drawing().edges() || n < 1 || n > 8192 || k > n || rmax < 1 || rmax > 8191 {
        return None;
    }
    let c = Contact {
        loop_no: scene.drawing().loop_of(edge),
        edge,
        k,
        n,
    };
    Some(tangent(scene, &c, rmax))
}

// Whether the drawing of the text answers each row as it is wanted.
fn are_right(alloc: Global, loops: &[u8], rows: &[Row]) -> bool {
    let Some(scene) = scene_of(alloc, loops) else {
        return false;
    };
    rows.iter().all(|row| is_right(&scene, row))
}

fn is_right(scene: &Scene, row: &Row) -> bool {
    let ((edge, k, n), rmax, side, j, (x, y)) = *row;
    let Some(disc) = disc_at(scene, edge, k, n, rmax) else {
        return false;
    };
    disc.side == side && disc.j == j && Point::new(x, y) == Some(disc.centre)
}

// The contacts that the square is to have: at each quarter of each of its four edges.
fn in_quarters(alloc: Global) -> Option<Vec<Contact>> {
    let mut expected = Vec::new(alloc);
    for edge in 0..4u32 {
        for k in 0..5u32 {
            let contact = Contact {
                loop_no: 0,
                edge,
                k,
                n: 4,
            };
            expected.push(contact).ok()?;
        }
    }
    Some(expected)
}

fn are_in_quarters(alloc: Global) -> Option<bool> {
    let drawing = drawing_of(alloc, SQUARE)?;
    let listed = contacts(alloc, &drawing, 250).ok()?;
    let expected = in_quarters(alloc)?;
    Some(listed.as_slice() == expected.as_slice())
}

#[test]
fn contacts_go_edge_by_edge(rt: HostRuntime) {
    assert_eq!(rt; are_in_quarters(rt.alloc()), Some(true));
}

// So many times the greatest square.
fn wholes(alloc: Global, count: u32) -> Option<Drawing> {
    let mut drawing = Drawing::empty(alloc);
    for _ in 0..count {
        push_square(&mut drawing, -32_768, -32_768, 65_535)?;
    }
    Some(drawing)
}

// How many contacts so many of the greatest squares have at this step, which is from 1 on.
fn count_in_wholes(alloc: Global, count: u32, step: u8) -> Result<usize, ContactFault> {
    let Some(drawing) = wholes(alloc, count) else {
        return Err(ContactFault::Memory);
    };
    match contacts(alloc, &drawing, u32::from(step.max(1))) {
        Ok(listed) => Ok(listed.len()),
        Err(fault) => Err(fault),
    }
}

#[test]
fn faults_of_contacts(rt: HostRuntime) {
    // 31 of these squares have 1,015,932 contacts, and 32 more than are taken.
    for (count, step, want) in [
        (1, 8, Ok(32_772)),
        (1, 7, Err(ContactFault::StepTooFine(0))),
        (31, 8, Ok(1_015_932)),
        (32, 8, Err(ContactFault::TooMany)),
    ] {
        assert_eq!(rt;
            count_in_wholes(rt.alloc(), count, step),
            want,
            "{count} squares at {step}"
        );
    }
}

#[test]
fn discs_at_contacts(rt: HostRuntime) {
    assert!(rt; are_right(rt.alloc(), SQUARE, &IN_SQUARE));
    assert!(rt; are_right(rt.alloc(), MIRRORED, &IN_MIRRORED));
    assert!(rt; are_right(rt.alloc(), SLIVER, &IN_SLIVER));
    assert!(rt; are_right(rt.alloc(), ANGLE, &IN_ANGLE));
    assert!(rt; are_right(rt.alloc(), PLATE, &ROUND_HOLE));
}

// 128 rows of 128 squares with a side of 100.
fn many_squares(alloc: Global) -> Option<Drawing> {
    let mut drawing = Drawing::empty(alloc);
    for row in 0..128i64 {
        for column in 0..128i64 {
            push_square(
                &mut drawing,
                column.wrapping_mul(200),
                row.wrapping_mul(200),
                100,
            )?;
        }
    }
    Some(drawing)
}

// How many discs are found at the contact, one in the middle of an edge and none at a corner; None where it isn't so.
fn discs_found(scene: &Scene, c: &Contact) -> Option<u32> {
    let disc = disc_at(scene, c.edge, c.k, c.n, 16)?;
    let want = if c.k == 1 {
        (Side::Left, 16)
    } else {
        (Side::Nowhere, 0)
    };
    if (disc.side, disc.j) == want {
        Some(disc.j / 16)
    } else {
        None
    }
}

// How many contacts the squares have, how many discs are found there, and the first contact where it isn't so.
fn counts_of_squares(alloc: Global) -> Option<(usize, u32, Option<Contact>)> {
    let drawing = many_squares(alloc)?;
    let listed = contacts(alloc, &drawing, 50).ok()?;
    let scene = Scene::new(alloc, drawing).ok()?;
    let mut found: u32 = 0;
    for c in &listed {
        let Some(count) = discs_found(&scene, c) else {
            return Some((listed.len(), found, Some(*c)));
        };
        found = found.wrapping_add(count);
    }
    Some((listed.len(), found, None))
}

// In the middle of each of the 65,536 edges a disc of the greatest number is free, and at the corners none is.
#[test]
fn discs_of_many_squares(rt: HostRuntime) {
    let counts = counts_of_squares(rt.alloc());
    assert_eq!(rt; counts, Some((196_608, 65_536, None)));
}
