// The greatest tangent disc at a contact.
ghost use Rattle.std.specs.Prelude.{◌≡◌, ◌↔◌, ◌≤◌, IsTrue, IfSome, IfNone};
ghost use Rattle.plane_exact.specs.Cone.{IsFromOneTo};
ghost use Rattle.engrave_model.specs.Drawing.{IsDrawing, edges_of};
ghost use Rattle.tangent_disc.specs.Contacts.{IsContactOf};
ghost use Rattle.tangent_disc.specs.Tangent.{IsCentreInside, IsEdgePoint, IsRefused, IsRounded, IsTaken, IsTangent, IsTangentOf, centre_over, centre_x, centre_y};
ghost use Rattle.tangent_disc.specs.Touch.{IsCentreOnGrid};

use crate::contact::Contact;
use crate::disc::{Disc, Side};
use crate::edge_point::EdgePoint;
use crate::greatest::{greatest_free, greatest_free_within};
use crate::rounding::nearest;
use crate::touch::Touch;
use depth_rule::Scene;
use plane_exact::{MOST_RADIUS, Point};

// The number up to which a disc is looked for before its side is.
const FIRST_MOST: u32 = 32;

/// The greatest disc that touches the outline at a contact of the scene's drawing: on the left side of the contact's edge where that is
/// inside, else on the right side where that is, else none. Its number is at most `rmax`. It takes no memory.
pub fn tangent(scene: &Scene, c: &Contact, rmax: u32) -> Disc
    requires contact { IsContactOf scene.now c.now }
    requires rmax { IsFromOneTo MOST_RADIUS rmax }
    ensures { IsTangentOf scene.now c.now rmax result }
{
    let point = EdgePoint::of(scene.drawing(), c);
    tangent_at(scene, &point, rmax)
}

// The same at a point of an edge.
fn tangent_at(scene: &Scene, point: &EdgePoint, rmax: u32) -> Disc
    requires drawing { IsDrawing scene.now }
    requires point { IsEdgePoint point.now }
    requires rmax { IsFromOneTo MOST_RADIUS rmax }
    ensures { IsTangent (edges_of scene.now) point.now rmax result }
{
    let left = Touch::of(point, Side::Left);
    if let Some(j) = taken(scene, &left, rmax) {
        return disc_at(&left, j);
    }
    let right = Touch::of(point, Side::Right);
    if let Some(j) = taken(scene, &right, rmax) {
        return disc_at(&right, j);
    }
    disc_at(&Touch::of(point, Side::Nowhere), 0)
}

// The greatest free number on a side, where it isn't 0 and the centre is inside.
fn taken(scene: &Scene, touch: &Touch, rmax: u32) -> Option<u32>
    requires drawing { IsDrawing scene.now }
    requires rmax { IsFromOneTo MOST_RADIUS rmax }
    ensures taken { IfSome result (IsTaken (edges_of scene.now) touch.now.side touch.now.point rmax) }
    ensures refused { IfNone result (IsRefused (edges_of scene.now) touch.now.side touch.now.point rmax) }
    ensures on_grid { IfSome result (IsCentreOnGrid touch.now.side touch.now.point) }
{
    let first = rmax.min(FIRST_MOST);
    let small = greatest_free_within(scene, touch, first);
    if small == 0 {
        return None;
    }
    // Up to a free disc, one centre is inside where another is. So a small one tells which side is out, where no more edges are asked.
    if !is_centre_inside(scene, touch, small) {
        return None;
    }
    if small < first {
        return Some(small);
    }
    Some(greatest_free(scene, touch, rmax.min(2 * first), rmax))
}

// Whether the centre of the disc `j` is inside.
fn is_centre_inside(scene: &Scene, touch: &Touch, j: u32) -> bool
    requires { j ≤ MOST_RADIUS }
    ensures { IsTrue result ↔ IsCentreInside (edges_of scene.now) touch.now.side touch.now.point j }
{
    let disc = touch.disc(j);
    scene.inside_at(
        i128::from(disc.x),
        i128::from(disc.y),
        i128::from(disc.over),
    )
}

// The disc `j`, with its centre rounded to the grid.
fn disc_at(touch: &Touch, j: u32) -> Disc
    requires number { j ≤ MOST_RADIUS }
    requires on_grid { IsCentreOnGrid touch.now.side touch.now.point j }
    ensures side { result.side ≡ touch.now.side }
    ensures number { result.j ≡ j }
    ensures across { IsRounded (centre_x touch.now.side touch.now.point j) (centre_over touch.now.point) result.centre.x }
    ensures up { IsRounded (centre_y touch.now.side touch.now.point j) (centre_over touch.now.point) result.centre.y }
{
    let disc = touch.disc(j);
    let x = nearest(disc.x, disc.over);
    let y = nearest(disc.y, disc.over);
    match Point::new(x, y) {
        Some(centre) => Disc {
            side: touch.side,
            j,
            centre,
        },
        None => unreachable!(),
    }
}
