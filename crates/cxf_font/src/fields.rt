// The fields of an element, between its commas, and the numbers that they write.
ghost use Rattle.std.specs.Prelude.{◌≡◌, ◌≢◌, ◌<◌, ◌^◌, ◌∷◌, [], IfErr, IfOk, length, nat_le, true, unsigned_abs};
ghost use Rattle.cxf_font.specs.Elements.{is_angle, is_element, is_length, is_radius};
ghost use Rattle.cxf_font.specs.Lines.{arc_of, fields_of, line_of, number_in};
ghost use Rattle.cxf_font.specs.State.{fields_left};

use crate::element::{Element, MOST_ANGLE, MOST_LENGTH};
use crate::fault::CxfKind;
use grid_num::read_real;
use text_lines::{Pieces, Separator, without_blanks};

// How many parts a font unit and a degree have.
const MILLION: u32 = 1_000_000;

/// The line of four fields.
#[tactic(auto, unfolding(crate::specs::Lines::line_of))]
pub(crate) fn read_straight(text: &[u8]) -> Result<Element, CxfKind>
    requires { length text.now < 2 ^ 32 }
    ensures value { result ≡ line_of (fields_of text.now) }
    ensures range { IfOk result (λ element. is_element element ≡ true) }
    ensures kind { IfErr result (λ kind. kind ≢ CxfKind.Memory) }
{
    let mut fields = Pieces::of(text, Separator::Byte(b','));
    let x1 = next_field(&mut fields)?;
    let y1 = next_field(&mut fields)?;
    let x2 = next_field(&mut fields)?;
    let y2 = next_field(&mut fields)?;
    if fields.next().is_some() {
        return Err(CxfKind::Syntax);
    }
    Ok(Element::Line {
        x1: read_length(x1)?,
        y1: read_length(y1)?,
        x2: read_length(x2)?,
        y2: read_length(y2)?,
    })
}

/// The arc of five fields.
#[tactic(auto, unfolding(crate::specs::Lines::arc_of))]
pub(crate) fn read_arc(clockwise: bool, text: &[u8]) -> Result<Element, CxfKind>
    requires { length text.now < 2 ^ 32 }
    ensures value { result ≡ arc_of clockwise (fields_of text.now) }
    ensures range { IfOk result (λ element. is_element element ≡ true) }
    ensures kind { IfErr result (λ kind. kind ≢ CxfKind.Memory) }
{
    let mut fields = Pieces::of(text, Separator::Byte(b','));
    let cx = next_field(&mut fields)?;
    let cy = next_field(&mut fields)?;
    let r = next_field(&mut fields)?;
    let a1 = next_field(&mut fields)?;
    let a2 = next_field(&mut fields)?;
    if fields.next().is_some() {
        return Err(CxfKind::Syntax);
    }
    Ok(Element::Arc {
        cx: read_length(cx)?,
        cy: read_length(cy)?,
        r: read_radius(r)?,
        a1: read_angle(a1)?,
        a2: read_angle(a2)?,
        clockwise,
    })
}

// The next field, without blanks at its ends.
fn next_field<'a>(fields: &mut Pieces<'a>) -> Result<&'a [u8], CxfKind>
    ensures some { IfOk result (λ field. fields_left fields.old ≡ field.now ∷ fields_left fields.new) }
    ensures none { IfErr result (λ kind. (kind ≡ CxfKind.Syntax) × (fields_left fields.old ≡ [])) }
{
    match fields.next() {
        Some(piece) => Ok(without_blanks(piece.bytes)),
        None => Err(CxfKind::Syntax),
    }
}

fn read_length(field: &[u8]) -> Result<i64, CxfKind>
    ensures value { result ≡ number_in is_length field.now }
    ensures range { IfOk result (λ z. is_length z ≡ true) }
    ensures kind { IfErr result (λ kind. kind ≢ CxfKind.Memory) }
{
    read_up_to(MOST_LENGTH, field)
}

fn read_angle(field: &[u8]) -> Result<i64, CxfKind>
    ensures value { result ≡ number_in is_angle field.now }
    ensures range { IfOk result (λ z. is_angle z ≡ true) }
    ensures kind { IfErr result (λ kind. kind ≢ CxfKind.Memory) }
{
    read_up_to(MOST_ANGLE, field)
}

fn read_radius(field: &[u8]) -> Result<i64, CxfKind>
    ensures value { result ≡ number_in is_radius field.now }
    ensures range { IfOk result (λ z. is_radius z ≡ true) }
    ensures kind { IfErr result (λ kind. kind ≢ CxfKind.Memory) }
{
    match read_up_to(MOST_LENGTH, field) {
        Ok(r) if r >= 0 => Ok(r),
        _ => Err(CxfKind::Number),
    }
}

// The number of a field, where it is at most so great in size.
fn read_up_to(most: u64, field: &[u8]) -> Result<i64, CxfKind>
    ensures value { result ≡ number_in (λ z. nat_le (unsigned_abs z) most) field.now }
    ensures range { IfOk result (λ z. nat_le (unsigned_abs z) most ≡ true) }
    ensures kind { IfErr result (λ kind. kind ≡ CxfKind.Number) }
{
    match read_real(field, MILLION) {
        Ok(z) if z.unsigned_abs() <= most => Ok(z),
        _ => Err(CxfKind::Number),
    }
}
