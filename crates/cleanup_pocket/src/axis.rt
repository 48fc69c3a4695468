// The directions of a pocket's lines.

/// Along which axis a line of grid points goes.
#[derive(Clone, Copy, Debug, PartialEq, Eq)]
pub enum Axis {
    /// Along x: a row.
    X,
    /// Along y: a column.
    Y,
}

/// By which lines a pocket is milled.
#[derive(Clone, Copy, Debug, PartialEq, Eq)]
pub enum Way {
    /// By rows.
    X,
    /// By columns.
    Y,
    /// By rows, and then by columns.
    Both,
}
