// The values of options: numbers, places, slopes and names out of a list.
ghost use Rattle.std.specs.Prelude.{◌≡◌, ◌≤◌, IfNone, IfSome, None, Some, length};
ghost use Rattle.std.specs.Str.{chars};
ghost use Rattle.plane_exact.specs.Cone.{IsFromOneTo};
ghost use Rattle.job_words.specs.Values.{point_of, slope_of, within, number_of, cross_named, form_named, justify_named, letters_of, pocket_named, units_named, yes_named};

use crate::request::{CrossWord, FormWord, JustifyWord, PocketWord, YesNo};
use grid_num::{Units, read_whole, read_whole_pair};
use plane_exact::Point;

/// `X,Y`: two coordinates.
pub fn read_point(text: &str) -> Option<Point>
    ensures { result ≡ point_of text.now }
{
    let (x, y) = read_whole_pair(text.as_bytes(), b',')?;
    Point::new(i64::from(x), i64::from(y))
}

/// `SN/SD`: two numbers from 1 to 2000.
pub fn read_slope(text: &str) -> Option<(u32, u32)>
    ensures value { result ≡ slope_of text.now }
    ensures range { IfSome result (λ slope. IsFromOneTo 2000 slope.0 × IsFromOneTo 2000 slope.1) }
{
    let (sn, sd) = read_whole_pair(text.as_bytes(), b'/')?;
    Some((in_range(sn, 1, 2000)?, in_range(sd, 1, 2000)?))
}

/// A number from the least to the most.
pub fn read_number(text: &str, least: u32, most: u32) -> Option<u32>
    ensures value { result ≡ number_of least most text.now }
    ensures low { IfSome result (λ number. least ≤ number) }
    ensures high { IfSome result (λ number. number ≤ most) }
{
    in_range(read_whole(text.as_bytes())?, least, most)
}

fn in_range(number: i32, least: u32, most: u32) -> Option<u32>
    ensures value { result ≡ within least most number }
    ensures low { IfSome result (λ number. least ≤ number) }
    ensures high { IfSome result (λ number. number ≤ most) }
{
    let number = u32::try_from(number).ok()?;
    if least <= number && number <= most {
        Some(number)
    } else {
        None
    }
}

/// `loops`, `dxf`, `cxf` or `pbm`.
pub fn read_form(text: &str) -> Option<FormWord>
    ensures { result ≡ form_named text.now }
{
    if text == "loops" {
        Some(FormWord::Loops)
    } else if text == "dxf" {
        Some(FormWord::Dxf)
    } else if text == "cxf" {
        Some(FormWord::Cxf)
    } else if text == "pbm" {
        Some(FormWord::Pbm)
    } else {
        None
    }
}

/// `mm10`, `mm100`, `mm1000`, `in100` or `in1000`.
pub fn read_units(text: &str) -> Option<Units>
    ensures { result ≡ units_named text.now }
{
    if text == "mm10" {
        Some(Units::Mm10)
    } else if text == "mm100" {
        Some(Units::Mm100)
    } else if text == "mm1000" {
        Some(Units::Mm1000)
    } else if text == "in100" {
        Some(Units::In100)
    } else if text == "in1000" {
        Some(Units::In1000)
    } else {
        None
    }
}

/// `left`, `center` or `right`.
pub fn read_justify(text: &str) -> Option<JustifyWord>
    ensures { result ≡ justify_named text.now }
{
    if text == "left" {
        Some(JustifyWord::Left)
    } else if text == "center" {
        Some(JustifyWord::Center)
    } else if text == "right" {
        Some(JustifyWord::Right)
    } else {
        None
    }
}

/// `yes` or `no`.
pub fn read_yes(text: &str) -> Option<YesNo>
    ensures { result ≡ yes_named text.now }
{
    if text == "yes" {
        Some(YesNo::Yes)
    } else if text == "no" {
        Some(YesNo::No)
    } else {
        None
    }
}

/// `refuse` or `evenodd`.
pub fn read_cross(text: &str) -> Option<CrossWord>
    ensures { result ≡ cross_named text.now }
{
    if text == "refuse" {
        Some(CrossWord::Refuse)
    } else if text == "evenodd" {
        Some(CrossWord::Evenodd)
    } else {
        None
    }
}

/// `none`, `x`, `y` or `both`.
pub fn read_pocket(text: &str) -> Option<PocketWord>
    ensures { result ≡ pocket_named text.now }
{
    if text == "none" {
        Some(PocketWord::NoPocket)
    } else if text == "x" {
        Some(PocketWord::X)
    } else if text == "y" {
        Some(PocketWord::Y)
    } else if text == "both" {
        Some(PocketWord::Both)
    } else {
        None
    }
}

/// The text itself, where it has 1 to 200 characters.
pub fn read_letters(text: &str) -> Option<&str>
    ensures none { IfNone result (letters_of text.now ≡ None) }
    ensures some { IfSome result (λ letters. letters_of text.now ≡ Some letters.now) }
    ensures same { IfSome result (λ letters. letters.now ≡ text.now) }
    ensures few { IfSome result (λ letters. length (chars letters.now) ≤ 200) }
{
    let count = count_characters(text);
    if 1 <= count && count <= 200 {
        Some(text)
    } else {
        None
    }
}

fn count_characters(text: &str) -> usize
    ensures { result ≡ length (chars text.now) }
{
    text.chars().count()
}
