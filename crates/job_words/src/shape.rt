// The options that say which drawing a command is about, and their values.
ghost use Rattle.std.specs.Prelude.{◌≡◌, ◌≤◌, IfOk, IfSome, List, Some, None, Err, codes, length, map, option_map};
ghost use Rattle.std.specs.Str.{chars};
ghost use Rattle.clap.specs.Words.{first_value, found_of};
ghost use Rattle.plane_exact.specs.Cone.{IsFromOneTo};
ghost use Rattle.job_words.specs.Options.{row_of};
ghost use Rattle.job_words.specs.Shape.{IsFromTo, IsLetteringInRange, IsShapeInRange, is_worded, lettering_of, shape_of, shape_options};
ghost use Rattle.job_words.specs.Values.{charspace_of, chord_of, cross_of, form_of, height_of, justify_of, linespace_of, pixel_of, snap_of, text_of, width_of, wordspace_of, yes_of};

use crate::fault::WordsFault;
use crate::found::{UNITS, number_in, text_in, units_in};
use crate::options::CommandOption;
use crate::request::{CrossWord, DrawingWords, FormWord, JustifyWord, YesNo};
use crate::text::Text;
use crate::values::{read_cross, read_form, read_justify, read_letters, read_yes};
use clap::ArgMatches;
use std::alloc::Global;

const DRAWING: CommandOption = CommandOption {
    name: "drawing",
    required: true,
};

const FORM: CommandOption = CommandOption {
    name: "form",
    required: false,
};

const CHORD: CommandOption = CommandOption {
    name: "chord",
    required: false,
};

const SNAP: CommandOption = CommandOption {
    name: "snap",
    required: false,
};

const PIXEL: CommandOption = CommandOption {
    name: "pixel",
    required: false,
};

const TEXT: CommandOption = CommandOption {
    name: "text",
    required: false,
};

const HEIGHT: CommandOption = CommandOption {
    name: "height",
    required: false,
};

const WIDTH: CommandOption = CommandOption {
    name: "width",
    required: false,
};

const CHARSPACE: CommandOption = CommandOption {
    name: "charspace",
    required: false,
};

const WORDSPACE: CommandOption = CommandOption {
    name: "wordspace",
    required: false,
};

const LINESPACE: CommandOption = CommandOption {
    name: "linespace",
    required: false,
};

const JUSTIFY: CommandOption = CommandOption {
    name: "justify",
    required: false,
};

const MIRROR: CommandOption = CommandOption {
    name: "mirror",
    required: false,
};

const FLIP: CommandOption = CommandOption {
    name: "flip",
    required: false,
};

const CROSS: CommandOption = CommandOption {
    name: "cross",
    required: false,
};

static OPTIONS: [CommandOption; 16] = [
    DRAWING, FORM, UNITS, CHORD, SNAP, PIXEL, TEXT, HEIGHT, WIDTH, CHARSPACE, WORDSPACE, LINESPACE,
    JUSTIFY, MIRROR, FLIP, CROSS,
];

/// The options that say which drawing a command is about.
#[tactic(auto, unfolding(crate::specs::Shape::shape_options))]
pub fn of_drawing() -> &'static [CommandOption]
    ensures { map row_of result.now ≡ shape_options }
{
    &OPTIONS
}

/// How a text is laid out.
#[derive(Clone, Copy)]
struct Lettering {
    height: u32,
    width: u32,
    charspace: u32,
    wordspace: u32,
    linespace: u32,
    justify: JustifyWord,
    mirror: YesNo,
    flip: YesNo,
}

/// The values of the options that say which drawing a command is about.
#[tactic(auto, unfolding(crate::specs::Shape::shape_of))]
pub fn shape_in(alloc: Global, found: &ArgMatches) -> Result<DrawingWords, WordsFault>
    ensures accepted { IfOk result (λ words. shape_of (first_value (found_of found.now)) ≡ Some words) }
    ensures range { IfOk result IsShapeInRange }
    ensures usage { result ≡ Err WordsFault.Usage
        → shape_of (first_value (found_of found.now)) ≡ None }
{
    let form = form_in(found).ok_or(WordsFault::Usage)?;
    let units = units_in(found).ok_or(WordsFault::Usage)?;
    let chord = chord_in(found).ok_or(WordsFault::Usage)?;
    let snap = snap_in(found).ok_or(WordsFault::Usage)?;
    let pixel = pixel_in(found).ok_or(WordsFault::Usage)?;
    let text = letters_in(alloc, found)?;
    let lettering = lettering_in(found)?;
    let cross = cross_in(found).ok_or(WordsFault::Usage)?;
    let drawing = text_in(alloc, found, "drawing")?;
    if !has_text(form, &text) {
        return Err(WordsFault::Usage);
    }
    Ok(DrawingWords {
        drawing,
        form,
        units,
        chord,
        snap,
        pixel,
        text,
        height: lettering.height,
        width: lettering.width,
        charspace: lettering.charspace,
        wordspace: lettering.wordspace,
        linespace: lettering.linespace,
        justify: lettering.justify,
        mirror: lettering.mirror,
        flip: lettering.flip,
        cross,
    })
}

/// Whether there is a text, where the form needs one.
fn has_text(form: FormWord, text: &Option<Text>) -> bool
    ensures { result ≡ is_worded form text.now }
{
    match (form, text) {
        (FormWord::Cxf, None) => false,
        _ => true,
    }
}

/// The values of the options that say how a text is laid out.
#[tactic(auto, unfolding(crate::specs::Shape::lettering_of))]
fn lettering_in(found: &ArgMatches) -> Result<Lettering, WordsFault>
    ensures accepted { IfOk result (λ lettering. lettering_of (first_value (found_of found.now)) ≡ Some lettering) }
    ensures range { IfOk result (λ l. IsLetteringInRange l.height l.width l.charspace l.wordspace l.linespace) }
    ensures usage { result ≡ Err WordsFault.Usage
        → lettering_of (first_value (found_of found.now)) ≡ None }
{
    let height = height_in(found).ok_or(WordsFault::Usage)?;
    let width = width_in(found).ok_or(WordsFault::Usage)?;
    let charspace = charspace_in(found).ok_or(WordsFault::Usage)?;
    let wordspace = wordspace_in(found).ok_or(WordsFault::Usage)?;
    let linespace = linespace_in(found).ok_or(WordsFault::Usage)?;
    let justify = justify_in(found).ok_or(WordsFault::Usage)?;
    let mirror = yes_in(found, "mirror").ok_or(WordsFault::Usage)?;
    let flip = yes_in(found, "flip").ok_or(WordsFault::Usage)?;
    Ok(Lettering {
        height,
        width,
        charspace,
        wordspace,
        linespace,
        justify,
        mirror,
        flip,
    })
}

/// A copy of the text; none where the option isn't given.
fn letters_in(alloc: Global, found: &ArgMatches) -> Result<Option<Text>, WordsFault>
    ensures accepted { IfOk result (λ text. text_of (first_value (found_of found.now) (codes "text")) ≡ Some text) }
    ensures range { IfOk result (λ text. IfSome text (λ letters. length (chars letters) ≤ 200)) }
    ensures usage { result ≡ Err WordsFault.Usage → text_of (first_value (found_of found.now) (codes "text")) ≡ None }
{
    match found.get_str("text") {
        Some(text) => {
            let letters = read_letters(text).ok_or(WordsFault::Usage)?;
            Ok(Some(Text::new(String::from_str(alloc, letters)?)))
        }
        None => Ok(None),
    }
}

/// 10 where the option isn't given.
fn chord_in(found: &ArgMatches) -> Option<u32>
    ensures value { result ≡ chord_of (first_value (found_of found.now) (codes "chord")) }
    ensures range { IfSome result (IsFromOneTo 90) }
{
    number_in(found, "chord", 10, 1, 90)
}

/// 1 where the option isn't given.
fn snap_in(found: &ArgMatches) -> Option<u32>
    ensures value { result ≡ snap_of (first_value (found_of found.now) (codes "snap")) }
    ensures range { IfSome result (λ snap. snap ≤ 16) }
{
    number_in(found, "snap", 1, 0, 16)
}

/// 10 where the option isn't given.
fn pixel_in(found: &ArgMatches) -> Option<u32>
    ensures value { result ≡ pixel_of (first_value (found_of found.now) (codes "pixel")) }
    ensures range { IfSome result (IsFromOneTo 1000) }
{
    number_in(found, "pixel", 10, 1, 1_000)
}

/// 900 where the option isn't given.
fn height_in(found: &ArgMatches) -> Option<u32>
    ensures value { result ≡ height_of (first_value (found_of found.now) (codes "height")) }
    ensures range { IfSome result (IsFromOneTo 32767) }
{
    number_in(found, "height", 900, 1, 32_767)
}

/// 100 where the option isn't given.
fn width_in(found: &ArgMatches) -> Option<u32>
    ensures value { result ≡ width_of (first_value (found_of found.now) (codes "width")) }
    ensures range { IfSome result (IsFromTo 10 500) }
{
    number_in(found, "width", 100, 10, 500)
}

/// 25 where the option isn't given.
fn charspace_in(found: &ArgMatches) -> Option<u32>
    ensures value { result ≡ charspace_of (first_value (found_of found.now) (codes "charspace")) }
    ensures range { IfSome result (λ space. space ≤ 500) }
{
    number_in(found, "charspace", 25, 0, 500)
}

/// 100 where the option isn't given.
fn wordspace_in(found: &ArgMatches) -> Option<u32>
    ensures value { result ≡ wordspace_of (first_value (found_of found.now) (codes "wordspace")) }
    ensures range { IfSome result (λ space. space ≤ 500) }
{
    number_in(found, "wordspace", 100, 0, 500)
}

/// 150 where the option isn't given.
fn linespace_in(found: &ArgMatches) -> Option<u32>
    ensures value { result ≡ linespace_of (first_value (found_of found.now) (codes "linespace")) }
    ensures range { IfSome result (IsFromTo 10 500) }
{
    number_in(found, "linespace", 150, 10, 500)
}

/// Loops where the option isn't given.
fn form_in(found: &ArgMatches) -> Option<FormWord>
    ensures { result ≡ form_of (first_value (found_of found.now) (codes "form")) }
{
    match found.get_str("form") {
        Some(text) => read_form(text),
        None => Some(FormWord::Loops),
    }
}

/// Left where the option isn't given.
fn justify_in(found: &ArgMatches) -> Option<JustifyWord>
    ensures { result ≡ justify_of (first_value (found_of found.now) (codes "justify")) }
{
    match found.get_str("justify") {
        Some(text) => read_justify(text),
        None => Some(JustifyWord::Left),
    }
}

/// No where the option of this name isn't given.
fn yes_in(found: &ArgMatches, name: &str) -> Option<YesNo>
    ensures { result ≡ yes_of (first_value (found_of found.now) name.now) }
{
    match found.get_str(name) {
        Some(text) => read_yes(text),
        None => Some(YesNo::No),
    }
}

/// Refused where the option isn't given.
fn cross_in(found: &ArgMatches) -> Option<CrossWord>
    ensures { result ≡ cross_of (first_value (found_of found.now) (codes "cross")) }
{
    match found.get_str("cross") {
        Some(text) => read_cross(text),
        None => Some(CrossWord::Refuse),
    }
}
