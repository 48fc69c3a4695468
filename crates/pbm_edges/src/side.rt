// The sides of pixels, and the lines of the grid that they lie on.

/// How the boundary runs along a side of a pixel. The first of the two pixels that the side parts is the one above it or to the left.
#[derive(Clone, Copy)]
pub(crate) enum Side {
    /// There is none: the two pixels have one colour.
    Level,
    /// To the right or up: the first pixel alone is black.
    Onward,
    /// To the left or down: the second pixel alone is black.
    Back,
}

impl Side {
    ghost use Rattle.std.specs.Prelude.{◌≡◌};
    ghost use Rattle.pbm_edges.specs.Boundary.{same_side, side_of};

    /// The side between two pixels, by whether they are black.
    pub(crate) fn between(first: bool, second: bool) -> Side
        ensures { result ≡ side_of first second }
    {
        match (first, second) {
            (true, false) => Side::Onward,
            (false, true) => Side::Back,
            (true, true) | (false, false) => Side::Level,
        }
    }

    /// Whether the boundary runs one way along both, or along neither.
    pub(crate) fn is_same(self, other: Side) -> bool
        ensures { result ≡ same_side self other }
    {
        match (self, other) {
            (Side::Level, Side::Level) => true,
            (Side::Onward, Side::Onward) => true,
            (Side::Back, Side::Back) => true,
            _ => false,
        }
    }
}

/// A line of the grid that the sides of pixels lie on.
#[derive(Clone, Copy)]
pub(crate) enum Line {
    /// The line across below so many rows of pixels.
    Across(u32),
    /// The line up behind so many columns of pixels.
    Up(u32),
}

/// A stretch of sides on a line, from one place up to another, along which the boundary runs one way or isn't.
#[derive(Clone, Copy)]
pub(crate) struct Stretch {
    pub(crate) first: u32,
    pub(crate) until: u32,
    pub(crate) side: Side,
}
