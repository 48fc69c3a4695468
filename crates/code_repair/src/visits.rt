// What has been visited on the way through a program.
ghost use Rattle.gcode_text.specs.declared.job.TheConstants.{MOST_SAFE_HEIGHT};
ghost use Rattle.plane_exact.specs.Cone.{IsFromOneTo};

use plane_exact::Spot;

/// What has been visited, and where the bit is.
#[derive(Drop)]
pub struct Visits {
    /// The safe height, in grid units.
    pub safe: u32,
    pub spots: Vec<Spot>,
    /// Whether the bit stays up at the safe height, since it couldn't be set down.
    pub up: bool,
    /// Where the move before ended.
    pub last: Spot,
    /// How many moves were changed.
    pub changed: u32,
    ghost range: { IsFromOneTo MOST_SAFE_HEIGHT safe },
}
