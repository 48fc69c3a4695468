// Angles as parts of a full turn.
ghost use Rattle.std.specs.Prelude.{◌≡◌, ◌<◌, pos};
ghost use Rattle.integer_algebra.specs.Ranges.{IsUpTo};
ghost use Rattle.plane_exact.specs.Cone.{IsFromOneTo};
ghost use Rattle.arc_flatten.specs.Turns.{span_between, turn_of};

/// The number of parts of a full turn, 2^22.
pub const TURN: u32 = 4_194_304;

/// The number of parts of a quarter turn, 2^20.
pub(crate) const QUARTER: u32 = 1_048_576;

/// The greatest size of an angle, 100,000 degrees, in millionths of a degree.
pub const MOST_ANGLE: u64 = 100_000_000_000;

/// The direction number of an angle in millionths of a degree, at most 100,000,000,000 in size: the nearest part of a full turn.
pub fn turn(micro: i64) -> u32
    requires { IsUpTo (pos MOST_ANGLE) micro }
    ensures value { result ≡ turn_of micro }
    ensures range { result < TURN }
{
    (8_388_608 * micro + 360_000_000)
        .div_euclid(720_000_000)
        .rem_euclid(TURN as i64) as u32
}

/// The part of a turn from one direction counterclockwise to another, from 1 to 2^22: a full turn where they are one.
pub fn span_between(from: u32, to: u32) -> u32
    requires from { from < TURN }
    requires to { to < TURN }
    ensures value { result ≡ span_between from to }
    ensures range { IsFromOneTo TURN result }
{
    let span = (to + TURN - from) % TURN;
    if span == 0 { TURN } else { span }
}
