// The options that commands have, and the values that were found for them, None where one isn't in its form and range.
ghost use Rattle.std.specs.Prelude.{◌≡◌, ◌≤◌, IfOk, IfSome, Some, None, Err, codes};
ghost use Rattle.clap.specs.Words.{first_value, found_of};
ghost use Rattle.plane_exact.specs.Cone.{IsFromOneTo};
ghost use Rattle.job_words.specs.Values.{at_of, bit_of, count_of, rmax_of, step_of, limit_of, lines_of, radius_of, safe_of, feed_of, over_of, pitch_of, pocket_of, depth_of, number_of, or_default, units_of};

use crate::fault::WordsFault;
use crate::options::CommandOption;
use crate::request::PocketWord;
use crate::text::Text;
use crate::values::{read_number, read_pocket, read_point, read_slope, read_units};
use clap::ArgMatches;
use grid_num::Units;
use plane_exact::Point;
use std::alloc::Global;

pub const AT: CommandOption = CommandOption {
    name: "at",
    required: true,
};

pub const BIT: CommandOption = CommandOption {
    name: "bit",
    required: true,
};

pub const RMAX: CommandOption = CommandOption {
    name: "rmax",
    required: true,
};

pub const RADIUS: CommandOption = CommandOption {
    name: "radius",
    required: true,
};

pub const STEP: CommandOption = CommandOption {
    name: "step",
    required: true,
};

pub const LIMIT: CommandOption = CommandOption {
    name: "limit",
    required: false,
};

pub const SAFE: CommandOption = CommandOption {
    name: "safe",
    required: false,
};

pub const FEED: CommandOption = CommandOption {
    name: "feed",
    required: false,
};

pub const PITCH: CommandOption = CommandOption {
    name: "pitch",
    required: false,
};

pub const POCKET: CommandOption = CommandOption {
    name: "pocket",
    required: false,
};

pub const OVER: CommandOption = CommandOption {
    name: "over",
    required: false,
};

pub const DEPTH: CommandOption = CommandOption {
    name: "depth",
    required: true,
};

pub const COUNT: CommandOption = CommandOption {
    name: "count",
    required: true,
};

pub const UNITS: CommandOption = CommandOption {
    name: "units",
    required: false,
};

pub const CODE: CommandOption = CommandOption {
    name: "code",
    required: true,
};

pub fn at_in(found: &ArgMatches) -> Option<Point>
    ensures { result ≡ at_of (first_value (found_of found.now) (codes "at")) }
{
    read_point(found.get_str("at")?)
}

pub fn bit_in(found: &ArgMatches) -> Option<(u32, u32)>
    ensures value { result ≡ bit_of (first_value (found_of found.now) (codes "bit")) }
    ensures range { IfSome result (λ bit. IsFromOneTo 2000 bit.0 × IsFromOneTo 2000 bit.1) }
{
    read_slope(found.get_str("bit")?)
}

pub fn rmax_in(found: &ArgMatches) -> Option<u32>
    ensures value { result ≡ rmax_of (first_value (found_of found.now) (codes "rmax")) }
    ensures range { IfSome result (IsFromOneTo 8191) }
{
    read_number(found.get_str("rmax")?, 1, 8191)
}

pub fn radius_in(found: &ArgMatches) -> Option<u32>
    ensures value { result ≡ radius_of (first_value (found_of found.now) (codes "radius")) }
    ensures range { IfSome result (IsFromOneTo 8191) }
{
    read_number(found.get_str("radius")?, 1, 8191)
}

pub fn step_in(found: &ArgMatches) -> Option<u32>
    ensures value { result ≡ step_of (first_value (found_of found.now) (codes "step")) }
    ensures range { IfSome result (IsFromOneTo 32767) }
{
    read_number(found.get_str("step")?, 1, 32_767)
}

/// 32,767 where the option isn't given.
pub fn limit_in(found: &ArgMatches) -> Option<u32>
    ensures value { result ≡ limit_of (first_value (found_of found.now) (codes "limit")) }
    ensures range { IfSome result (IsFromOneTo 32767) }
{
    number_in(found, "limit", 32_767, 1, 32_767)
}

/// 200 where the option isn't given.
pub fn safe_in(found: &ArgMatches) -> Option<u32>
    ensures value { result ≡ safe_of (first_value (found_of found.now) (codes "safe")) }
    ensures range { IfSome result (IsFromOneTo 32767) }
{
    number_in(found, "safe", 200, 1, 32_767)
}

/// 500 where the option isn't given.
pub fn feed_in(found: &ArgMatches) -> Option<u32>
    ensures value { result ≡ feed_of (first_value (found_of found.now) (codes "feed")) }
    ensures range { IfSome result (IsFromOneTo 10000) }
{
    number_in(found, "feed", 500, 1, 10_000)
}

/// 10 where the option isn't given.
pub fn pitch_in(found: &ArgMatches) -> Option<u32>
    ensures value { result ≡ pitch_of (first_value (found_of found.now) (codes "pitch")) }
    ensures range { IfSome result (IsFromOneTo 32767) }
{
    number_in(found, "pitch", 10, 1, 32_767)
}

/// No pocket where the option isn't given.
pub fn pocket_in(found: &ArgMatches) -> Option<PocketWord>
    ensures { result ≡ pocket_of (first_value (found_of found.now) (codes "pocket")) }
{
    match found.get_str("pocket") {
        Some(text) => read_pocket(text),
        None => Some(PocketWord::NoPocket),
    }
}

/// Rows where the option isn't given.
pub fn lines_in(found: &ArgMatches) -> Option<PocketWord>
    ensures { result ≡ lines_of (first_value (found_of found.now) (codes "pocket")) }
{
    match found.get_str("pocket") {
        Some(text) => read_pocket(text),
        None => Some(PocketWord::X),
    }
}

/// 50 where the option isn't given.
pub fn over_in(found: &ArgMatches) -> Option<u32>
    ensures value { result ≡ over_of (first_value (found_of found.now) (codes "over")) }
    ensures range { IfSome result (IsFromOneTo 8191) }
{
    number_in(found, "over", 50, 1, 8191)
}

pub fn depth_in(found: &ArgMatches) -> Option<u32>
    ensures value { result ≡ depth_of (first_value (found_of found.now) (codes "depth")) }
    ensures range { IfSome result (IsFromOneTo 32767) }
{
    read_number(found.get_str("depth")?, 1, 32_767)
}

pub fn count_in(found: &ArgMatches) -> Option<u32>
    ensures value { result ≡ count_of (first_value (found_of found.now) (codes "count")) }
    ensures range { IfSome result (IsFromOneTo 80) }
{
    read_number(found.get_str("count")?, 1, 80)
}

/// A number from the least to the most, or the default where the option isn't given.
pub fn number_in(found: &ArgMatches, name: &str, default: u32, least: u32, most: u32) -> Option<u32>
    requires low { least ≤ default }
    requires high { default ≤ most }
    ensures value { result ≡ or_default default (number_of least most) (first_value (found_of found.now) name.now) }
    ensures low { IfSome result (λ number. least ≤ number) }
    ensures high { IfSome result (λ number. number ≤ most) }
{
    match found.get_str(name) {
        Some(text) => read_number(text, least, most),
        None => Some(default),
    }
}

/// 100 grid units a millimetre where the option isn't given.
pub fn units_in(found: &ArgMatches) -> Option<Units>
    ensures { result ≡ units_of (first_value (found_of found.now) (codes "units")) }
{
    match found.get_str("units") {
        Some(text) => read_units(text),
        None => Some(Units::Mm100),
    }
}

/// A copy of the value of the option of this name.
pub fn text_in(alloc: Global, found: &ArgMatches, name: &str) -> Result<Text, WordsFault>
    ensures accepted { IfOk result (λ text. first_value (found_of found.now) name.now ≡ Some text) }
    ensures usage { result ≡ Err WordsFault.Usage → first_value (found_of found.now) name.now ≡ None }
{
    let text = found.get_str(name).ok_or(WordsFault::Usage)?;
    Ok(Text::new(String::from_str(alloc, text)?))
}
