// A disc that touches the outline at a contact.
use plane_exact::Point;

/// A side of an edge, as seen along it.
#[derive(Clone, Copy, Debug, PartialEq, Eq)]
pub enum Side {
    Left,
    Right,
    /// Neither side.
    Nowhere,
}

/// The greatest disc that touches the outline at a contact from inside.
#[derive(Clone, Copy, Debug, PartialEq, Eq)]
pub struct Disc {
    /// The side of the edge on which the disc lies; `Nowhere` where there is no disc on a side that is inside.
    pub side: Side,
    /// Its size: where L is the length of the edge, rounded up, the disc's radius is j / L times the length itself; 0 for no disc.
    pub j: u32,
    /// The grid point nearest to the disc's centre.
    pub centre: Point,
}
