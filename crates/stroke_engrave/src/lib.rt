//! Stroke engraving: the bit follows open lines at one depth, as those of a single-stroke font.
//!
//! Its promise is `law::strokes_law`: a program along the chains of `stroke_chains` removes exactly the points of the bit's discs at that
//! depth over the strokes. `stroke_cut` counts the points that they cut.
#![tactic(auto)]

mod bounds;
mod chains;
mod cut;
pub mod law;
mod node;

pub use chains::stroke_chains;
pub use coverage_report::CoverFault as CutFault;
pub use cut::stroke_cut;
