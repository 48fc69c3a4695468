// The drawing that a command's words name: loaded, read by its form, joined where it comes in loose segments, and refused where its
// edges cross, unless the words take it by the even-odd rule.
ghost use Rattle.std.specs.Prelude.{◌≡◌, ◌≢◌, ◌≤◌, ◌⊎◌, [], length, All, IfErr, IfOk, MatchResult, true, unwrap_or};
ghost use Rattle.std.specs.Str.{chars};
ghost use Rattle.cxf_font.specs.Layouts.{IsLayout};
ghost use Rattle.engrave_model.specs.Drawing.{edges_of};
ghost use Rattle.engrave_model.specs.declared.TheConstants.{MOST_EDGES};
ghost use Rattle.job_words.specs.Commands.Strokes.{has_strokes};
ghost use Rattle.job_words.specs.Shape.{IsShapeInRange};
ghost use Rattle.engrave_core.specs.Drawing.{IsDrawingOf, IsGuarded, IsReadWhere, IsRefusedCrossing, ReadDrawing, cxf_read, cxf_segments, drawing_of, dxf_read, dxf_segments, is_yes, joined, justify_of, layout_of, loops_read, pbm_read, segments_of, stored_drawing, stored_strokes};
ghost use Rattle.engrave_core.specs.Loaded.{drawing_in, drawing_read, segments_read};
ghost use Rattle.engrave_core.specs.Outcome.{outcome_of};
ghost use Rattle.engrave_core.specs.Refusals.{IsRefusalOfCxf, IsRefusalOfDrawing, IsRefusalOfDxf, IsRefusalOfEdges, IsRefusalOfFile, IsRefusalOfForm, IsRefusalOfOpenForm, IsRefusalOfPbm, IsRefusalOfSegments, IsRefusalOfStroked};
ghost use Rattle.engrave_core.specs.Stored.{AnswersFrom, IsReadAs};
ghost use Rattle.engrave_core.specs.declared.outcome.Which.TheVariants as which;

use crate::files::load_file;
use crate::outcome::{InputFault, Which};
use crate::refusal::Refusal;
use cxf_font::{Justify, Layout, lay, read_font};
use depth_rule::Scene;
use dxf_outline::read_dxf;
use engrave_model::MOST_EDGES;
use job_words::{CrossWord, DrawingWords, FormWord, JustifyWord, YesNo};
use loop_join::{join, snap};
use loops_text::{Drawing, MOST_DRAWING_BYTES, read_loops};
use pbm_edges::{edges, read_pbm};
use plane_exact::Seg;
use shop_port::Depot;
use std::alloc::Global;

/// A drawing, ready to be asked. None of its edges cross, unless the words allow it.
#[derive(Drop)]
pub struct Loaded {
    pub scene: Scene,
    /// How many entities of its file were skipped, where its form skips any.
    pub skipped: Option<u32>,
}

/// A drawing as its file gives it.
#[derive(Drop)]
struct Read {
    drawing: Drawing,
    skipped: Option<u32>,
}

/// The loose segments of a drawing's file. Points that are close are one.
#[derive(Drop)]
struct Segments {
    segs: Vec<Seg>,
    skipped: Option<u32>,
}

/// The drawing that the words name, or the refusal.
#[tactic(auto, unfolding(crate::specs::Drawing::IsDrawingOf))]
pub fn load_drawing<D: Depot>(
    alloc: Global,
    shape: &DrawingWords,
    depot: &mut D,
) -> Result<Loaded, Refusal>
    requires { IsShapeInRange shape.now }
    ensures value { AnswersFrom D.held D.faults D.misses depot.old depot.new (λ files. IsReadWhere drawing_in (IsDrawingOf files shape.now)) result }
    ensures refusal { IfErr result (λ refusal. IsRefusalOfDrawing shape.now (outcome_of refusal)) }
{
    let read = load_any_drawing(alloc, shape, depot)?;
    guard(alloc, read, shape.cross)
}

/// The strokes that the words name: the loose segments of their file, which aren't joined, and may cross. Or the refusal.
#[tactic(auto, unfolding(crate::specs::Drawing::stored_strokes))]
pub fn load_strokes<D: Depot>(
    alloc: Global,
    shape: &DrawingWords,
    depot: &mut D,
) -> Result<Vec<Seg>, Refusal>
    requires shape { IsShapeInRange shape.now }
    requires form { has_strokes shape.now.form ≡ true }
    ensures value { AnswersFrom D.held D.faults D.misses depot.old depot.new (λ files. IsReadAs (λ strokes. strokes.items) (stored_strokes files shape.now)) result }
    ensures refusal { IfErr result (λ refusal. IsRefusalOfStroked shape.now.form (outcome_of refusal)) }
    ensures few { IfOk result (λ strokes. length strokes.items ≤ MOST_EDGES) }
{
    let bytes = load_file(
        alloc,
        shape.drawing.as_str(),
        Which::Drawing,
        MOST_DRAWING_BYTES as u64,
        depot,
    )?;
    let read = read_segments(alloc, shape, &bytes)?;
    Ok(read.segs)
}

/// The loose segments of a file's bytes, or the refusal.
#[tactic(auto, unfolding(crate::specs::Drawing::segments_of))]
fn read_segments(alloc: Global, shape: &DrawingWords, bytes: &[u8]) -> Result<Segments, Refusal>
    requires shape { IsShapeInRange shape.now }
    requires form { has_strokes shape.now.form ≡ true }
    requires bytes { length bytes.now ≤ MOST_DRAWING_BYTES }
    ensures value { IsReadAs segments_read (segments_of shape.now bytes.now) result }
    ensures refusal { IfErr result (λ refusal. IsRefusalOfOpenForm shape.now.form (outcome_of refusal)) }
    ensures few { IfOk result (λ read. length read.segs.items ≤ MOST_EDGES) }
{
    match shape.form {
        FormWord::Dxf => read_dxf_segments(alloc, shape, bytes),
        FormWord::Cxf => read_cxf_segments(alloc, shape, bytes),
        FormWord::Loops | FormWord::Pbm => unreachable!(),
    }
}

/// The same, whether or not its edges cross.
#[tactic(auto, unfolding(crate::specs::Drawing::stored_drawing))]
fn load_any_drawing<D: Depot>(
    alloc: Global,
    shape: &DrawingWords,
    depot: &mut D,
) -> Result<Read, Refusal>
    requires { IsShapeInRange shape.now }
    ensures value { AnswersFrom D.held D.faults D.misses depot.old depot.new (λ files. IsReadAs drawing_read (stored_drawing files shape.now)) result }
    ensures refusal { MatchResult result (λ _. Unit {0}) (λ refusal. IsRefusalOfFile which.Drawing (outcome_of refusal) ⊎ IsRefusalOfForm shape.now.form (outcome_of refusal)) }
{
    let bytes = load_file(
        alloc,
        shape.drawing.as_str(),
        Which::Drawing,
        MOST_DRAWING_BYTES as u64,
        depot,
    )?;
    read_drawing(alloc, shape, &bytes)
}

/// The drawing of a file's bytes, or the refusal.
#[tactic(auto, unfolding(crate::specs::Drawing::drawing_of))]
fn read_drawing(alloc: Global, shape: &DrawingWords, bytes: &[u8]) -> Result<Read, Refusal>
    requires shape { IsShapeInRange shape.now }
    requires bytes { length bytes.now ≤ MOST_DRAWING_BYTES }
    ensures value { IsReadAs drawing_read (drawing_of shape.now bytes.now) result }
    ensures refusal { IfErr result (λ refusal. IsRefusalOfForm shape.now.form (outcome_of refusal)) }
{
    match shape.form {
        FormWord::Loops => Ok(Read {
            drawing: read_loops(alloc, bytes)?,
            skipped: None,
        }),
        FormWord::Dxf => read_dxf_drawing(alloc, shape, bytes),
        FormWord::Cxf => read_cxf_drawing(alloc, shape, bytes),
        FormWord::Pbm => read_pbm_drawing(alloc, shape, bytes),
    }
}

/// The drawing of a DXF file, or the refusal.
fn read_dxf_drawing(alloc: Global, shape: &DrawingWords, bytes: &[u8]) -> Result<Read, Refusal>
    requires shape { IsShapeInRange shape.now }
    requires bytes { length bytes.now ≤ MOST_DRAWING_BYTES }
    ensures value { IsReadAs drawing_read (dxf_read shape.now bytes.now) result }
    ensures refusal { IfErr result (λ refusal. IsRefusalOfDxf (outcome_of refusal) ⊎ IsRefusalOfSegments (outcome_of refusal)) }
{
    let read = read_dxf_segments(alloc, shape, bytes)?;
    join_segments(alloc, &read.segs, read.skipped)
}

/// The loose segments of a DXF file, or the refusal.
fn read_dxf_segments(alloc: Global, shape: &DrawingWords, bytes: &[u8]) -> Result<Segments, Refusal>
    requires shape { IsShapeInRange shape.now }
    requires bytes { length bytes.now ≤ MOST_DRAWING_BYTES }
    ensures value { IsReadAs segments_read (dxf_segments shape.now bytes.now) result }
    ensures refusal { IfErr result (λ refusal. IsRefusalOfDxf (outcome_of refusal)) }
    ensures few { IfOk result (λ read. length read.segs.items ≤ MOST_EDGES) }
    ensures apart { IfOk result (λ read. All (λ s. s.a ≢ s.b) read.segs.items) }
{
    let outline = read_dxf(alloc, bytes, shape.units, shape.chord)?;
    Ok(Segments {
        segs: snap(alloc, &outline.segs, shape.snap)?,
        skipped: Some(outline.skipped),
    })
}

/// The drawing of a text in the letters of a font, or the refusal.
fn read_cxf_drawing(alloc: Global, shape: &DrawingWords, bytes: &[u8]) -> Result<Read, Refusal>
    requires shape { IsShapeInRange shape.now }
    requires bytes { length bytes.now ≤ MOST_DRAWING_BYTES }
    ensures value { IsReadAs drawing_read (cxf_read shape.now bytes.now) result }
    ensures refusal { IfErr result (λ refusal. IsRefusalOfCxf (outcome_of refusal) ⊎ IsRefusalOfSegments (outcome_of refusal)) }
{
    let read = read_cxf_segments(alloc, shape, bytes)?;
    join_segments(alloc, &read.segs, read.skipped)
}

/// The loose segments of a text in the letters of a font, or the refusal.
fn read_cxf_segments(alloc: Global, shape: &DrawingWords, bytes: &[u8]) -> Result<Segments, Refusal>
    requires shape { IsShapeInRange shape.now }
    requires bytes { length bytes.now ≤ MOST_DRAWING_BYTES }
    ensures value { IsReadAs segments_read (cxf_segments shape.now bytes.now) result }
    ensures refusal { IfErr result (λ refusal. IsRefusalOfCxf (outcome_of refusal)) }
    ensures few { IfOk result (λ read. length read.segs.items ≤ MOST_EDGES) }
    ensures apart { IfOk result (λ read. All (λ s. s.a ≢ s.b) read.segs.items) }
{
    let font = read_font(alloc, bytes)?;
    let letters = lay(alloc, &font, text_of(shape), &layout_of(shape), shape.chord)?;
    Ok(Segments {
        segs: snap(alloc, &letters, shape.snap)?,
        skipped: None,
    })
}

/// The text of the words; empty where there is none.
fn text_of(shape: &DrawingWords) -> &str
    requires { IsShapeInRange shape.now }
    ensures value { result.now ≡ unwrap_or shape.now.text [] }
    ensures range { length (chars result.now) ≤ 200 }
{
    match &shape.text {
        Some(text) => text.as_str(),
        None => "",
    }
}

/// How the words lay out their text.
fn layout_of(shape: &DrawingWords) -> Layout
    requires { IsShapeInRange shape.now }
    ensures value { result ≡ layout_of shape.now }
    ensures range { IsLayout result }
{
    Layout {
        height: shape.height,
        width: shape.width,
        charspace: shape.charspace,
        wordspace: shape.wordspace,
        linespace: shape.linespace,
        justify: justify_of(shape.justify),
        mirror: is_yes(shape.mirror),
        flip: is_yes(shape.flip),
    }
}

fn justify_of(word: JustifyWord) -> Justify
    ensures { result ≡ justify_of word }
{
    match word {
        JustifyWord::Left => Justify::Left,
        JustifyWord::Center => Justify::Center,
        JustifyWord::Right => Justify::Right,
    }
}

fn is_yes(word: YesNo) -> bool
    ensures { result ≡ is_yes word }
{
    match word {
        YesNo::Yes => true,
        YesNo::No => false,
    }
}

/// The drawing of a bitmap, or the refusal.
fn read_pbm_drawing(alloc: Global, shape: &DrawingWords, bytes: &[u8]) -> Result<Read, Refusal>
    requires shape { IsShapeInRange shape.now }
    requires bytes { length bytes.now ≤ MOST_DRAWING_BYTES }
    ensures value { IsReadAs drawing_read (pbm_read shape.now bytes.now) result }
    ensures refusal { IfErr result (λ refusal. IsRefusalOfPbm (outcome_of refusal) ⊎ IsRefusalOfSegments (outcome_of refusal)) }
{
    let map = read_pbm(alloc, bytes)?;
    let segs = edges(alloc, &map, shape.pixel)?;
    join_segments(alloc, &segs, None)
}

/// The drawing that the segments are joined into, or the refusal.
fn join_segments(alloc: Global, segs: &[Seg], skipped: Option<u32>) -> Result<Read, Refusal>
    requires few { length segs.now ≤ MOST_EDGES }
    requires apart { All (λ s. s.a ≢ s.b) segs.now }
    ensures value { IsReadAs drawing_read (joined skipped segs.now) result }
    ensures refusal { IfErr result (λ refusal. IsRefusalOfSegments (outcome_of refusal)) }
{
    Ok(Read {
        drawing: join(alloc, segs)?,
        skipped,
    })
}

/// The drawing, ready to be asked, or the refusal where two of its edges cross and may not.
fn guard(alloc: Global, read: Read, cross: CrossWord) -> Result<Loaded, Refusal>
    ensures value { IsReadWhere drawing_in (IsGuarded cross (drawing_read read)) result }
    ensures refusal { IfErr result (λ refusal. IsRefusalOfEdges cross (outcome_of refusal)) }
{
    let scene = Scene::new(alloc, read.drawing)?;
    match crossing_refused(&scene, cross) {
        Some((i, j)) => Err(Refusal::Input(InputFault::Cross(i, j))),
        None => Ok(Loaded {
            scene,
            skipped: read.skipped,
        }),
    }
}

/// The first two edges that cross, where that is refused.
fn crossing_refused(scene: &Scene, cross: CrossWord) -> Option<(u32, u32)>
    ensures { IsRefusedCrossing cross (edges_of scene.now) result }
{
    match cross {
        CrossWord::Refuse => scene.first_crossing(),
        CrossWord::Evenodd => None,
    }
}
