// Where in a DXF file the reader stands.
use crate::corners::Polyline;

/// Where in a file it is read.
#[derive(Drop)]
pub(crate) enum Place {
    /// Outside the section of entities.
    Outside,
    /// Inside it.
    Inside,
    /// Behind a POLYLINE in it, which waits for its SEQEND.
    Along(Polyline),
}
