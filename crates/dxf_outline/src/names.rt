// Names of entities and of sections' ends.
ghost use Rattle.std.specs.Prelude.{◌≡◌};
ghost use Rattle.dxf_outline.specs.Outline.{name_of};

/// What a pair of code 0 names.
#[derive(Clone, Copy)]
pub(crate) enum Name {
    Section,
    Endsec,
    Line,
    Circle,
    Arc,
    Polyline,
    Vertex,
    Seqend,
    /// Any other entity.
    Other,
}

/// The name in the value of a pair of code 0.
#[tactic(auto, unfolding(crate::specs::Outline::name_of))]
pub(crate) fn name_of(value: &[u8]) -> Name
    ensures { result ≡ name_of value.now }
{
    if value == b"SECTION".as_slice() {
        Name::Section
    } else if value == b"ENDSEC".as_slice() {
        Name::Endsec
    } else if value == b"LINE".as_slice() {
        Name::Line
    } else if value == b"CIRCLE".as_slice() {
        Name::Circle
    } else if value == b"ARC".as_slice() {
        Name::Arc
    } else if value == b"POLYLINE".as_slice() {
        Name::Polyline
    } else if value == b"VERTEX".as_slice() {
        Name::Vertex
    } else if value == b"SEQEND".as_slice() {
        Name::Seqend
    } else {
        Name::Other
    }
}
