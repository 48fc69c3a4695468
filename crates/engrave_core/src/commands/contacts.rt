// `contacts`: a line for each contact, with the greatest disc that touches the outline there.
ghost use Rattle.std.specs.Prelude.{◌≡◌, ◌≤◌, ◌++◌, IfOk, IfErr, OnOk, All};
ghost use Rattle.plane_exact.specs.Cone.{IsFromOneTo};
ghost use Rattle.tangent_disc.specs.Contacts.{IsContactOf};
ghost use Rattle.tangent_disc.specs.Tangent.{IsTangentOf};
ghost use Rattle.job_words.specs.Shape.{IsShapeInRange};
ghost use Rattle.engrave_core.specs.Commands.Contacts.{AreContactLines, IsDueOfContacts, IsRefusalOfTouching, IsTouchedOrRefused, contact_text, disc_text, number_before, point_text, side_text};
ghost use Rattle.engrave_core.specs.Refusals.{IsRefusalOfContacts};
ghost use Rattle.engrave_core.specs.Given.{IsReported};
ghost use Rattle.engrave_core.specs.Stored.{AnswersFrom};
ghost use Rattle.engrave_core.specs.Outcome.{outcome_of};

use crate::drawing::load_drawing;
use crate::refusal::Refusal;
use depth_rule::Scene;
use grid_num::write_decimal;
use job_words::DrawingWords;
use plane_exact::Point;
use shop_port::Depot;
use std::alloc::{AllocError, Global};
use tangent_disc::{Contact, Disc, Side, contacts, tangent};

/// The lines of the contacts, or the refusal of the drawing or of the step.
pub fn run<D: Depot>(
    alloc: Global,
    shape: &DrawingWords,
    step: u32,
    rmax: u32,
    depot: &mut D,
) -> Result<Vec<u8>, Refusal>
    requires shape { IsShapeInRange shape.now }
    requires step { IsFromOneTo 32767 step }
    requires rmax { IsFromOneTo 8191 rmax }
    ensures value { AnswersFrom D.held D.faults D.misses depot.old depot.new
        (λ files. IsReported (IsDueOfContacts files shape.now step rmax)) result }
    ensures refusal { IfErr result (λ refusal. IsRefusalOfTouching shape.now (outcome_of refusal)) }
{
    let loaded = load_drawing(alloc, shape, depot)?;
    contacts_text(alloc, &loaded.scene, step, rmax)
}

/// The lines of the drawing's contacts, or the refusal of the step.
fn contacts_text(alloc: Global, scene: &Scene, step: u32, rmax: u32) -> Result<Vec<u8>, Refusal>
    requires step { IsFromOneTo 32767 step }
    requires rmax { IsFromOneTo 8191 rmax }
    ensures value { IsReported (IsTouchedOrRefused step rmax scene.now) result }
    ensures refusal { IfErr result (λ refusal. IsRefusalOfContacts (outcome_of refusal)) }
{
    let contacts = contacts(alloc, scene.drawing(), step)?;
    Ok(lines_of(alloc, scene, &contacts, rmax)?)
}

fn lines_of(
    alloc: Global,
    scene: &Scene,
    contacts: &[Contact],
    rmax: u32,
) -> Result<Vec<u8>, AllocError>
    requires contacts { All (IsContactOf scene.now) contacts.now }
    requires rmax { IsFromOneTo 8191 rmax }
    ensures { IfOk result (λ text. AreContactLines scene.now rmax contacts.now text.items) }
{
    let mut text = Vec::new(alloc);
    for contact in contacts {
        push_contact(contact, &mut text)?;
        push_disc(&tangent(scene, contact, rmax), &mut text)?;
    }
    Ok(text)
}

/// `LOOP EDGE K/N `.
#[tactic(auto, unfolding(crate::specs::Commands::Contacts::contact_text))]
fn push_contact(contact: &Contact, text: &mut Vec<u8>) -> Result<(), AllocError>
    ensures { OnOk result (text.new.items ≡ text.old.items ++ contact_text contact.now) }
{
    push_number(i64::from(contact.loop_no), b" ", text)?;
    push_number(i64::from(contact.edge), b" ", text)?;
    push_number(i64::from(contact.k), b"/", text)?;
    push_number(i64::from(contact.n), b" ", text)
}

/// `SIDE J X,Y` and the line's end.
#[tactic(auto, unfolding(crate::specs::Commands::Contacts::disc_text))]
fn push_disc(disc: &Disc, text: &mut Vec<u8>) -> Result<(), AllocError>
    ensures { OnOk result (text.new.items ≡ text.old.items ++ disc_text disc.now) }
{
    text.extend_from_slice(side_word(disc.side).as_bytes())?;
    text.extend_from_slice(b" ")?;
    push_number(i64::from(disc.j), b" ", text)?;
    push_point(disc.centre, text)
}

/// `X,Y` and the line's end.
#[tactic(auto, unfolding(crate::specs::Commands::Contacts::point_text))]
fn push_point(p: Point, text: &mut Vec<u8>) -> Result<(), AllocError>
    ensures { OnOk result (text.new.items ≡ text.old.items ++ point_text p) }
{
    push_number(i64::from(p.x()), b",", text)?;
    push_number(i64::from(p.y()), b"\n", text)
}

fn side_word(side: Side) -> &'static str
    ensures { result.now ≡ side_text side }
{
    match side {
        Side::Left => "left",
        Side::Right => "right",
        Side::Nowhere => "none",
    }
}

/// The number, and what follows it.
fn push_number(number: i64, end: &[u8], text: &mut Vec<u8>) -> Result<(), AllocError>
    ensures { OnOk result (text.new.items ≡ text.old.items ++ number_before number end.now) }
{
    write_decimal(number, 1, text)?;
    text.extend_from_slice(end)
}
