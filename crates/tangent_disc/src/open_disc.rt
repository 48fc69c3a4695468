// Open discs with a rational centre.
ghost use Rattle.tangent_disc.specs.Ways.{IsOpenDisc};

// The open disc about (x / over, y / over) whose radius squared is reach / over^2.
#[derive(Clone, Copy)]
pub(crate) struct OpenDisc {
    pub x: i64,
    pub y: i64,
    pub over: i64,
    pub reach: i128,
    ghost range: { IsOpenDisc x y over reach },
}
