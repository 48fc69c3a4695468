// The lines that report a refusal.
ghost use Rattle.std.specs.Prelude.{◌≡◌, string_bytes, IfOk, MatchOption};
ghost use Rattle.engrave_core.specs.Outcome.{outcome_of};
ghost use Rattle.engrave_core.specs.Line.{line_of, input_line, cxf_line, dxf_line, lay_line, loops_line, open_line, code_line, verdict_line};

use crate::outcome::{InputFault, Kind, Which};
use crate::refusal::Refusal;
use cxf_font::{CxfFault, LayFault};
use dxf_outline::{DxfFault, DxfKind};
use gcode_text::CodeFault;
use gouge_checker::Verdict;
use loops_text::LoopsFault;
use pbm_edges::{FlatFault, PbmFault};
use plane_exact::Point;
use std::alloc::{AllocError, Global};

/// The line of a refusal; empty for running out of memory, which has none.
pub fn line_of_refusal(alloc: Global, refusal: &Refusal) -> Result<String, AllocError>
    ensures { IfOk result (λ line. string_bytes line ≡ line_of (outcome_of refusal.now)) }
{
    match refusal {
        Refusal::NotClear(verdict) => line_of_verdict(alloc, verdict),
        Refusal::Usage => String::from_str(alloc, "usage\n"),
        Refusal::Input(fault) => line_of_input(alloc, fault),
        Refusal::Absent(Which::Drawing) => String::from_str(alloc, "absent drawing\n"),
        Refusal::Absent(Which::Code) => String::from_str(alloc, "absent code\n"),
        Refusal::ReadFault => String::from_str(alloc, "read fault\n"),
        Refusal::Memory => Ok(String::new(alloc)),
    }
}

fn line_of_input(alloc: Global, fault: &InputFault) -> Result<String, AllocError>
    ensures { IfOk result (λ line. string_bytes line ≡ input_line fault.now) }
{
    match fault {
        InputFault::TooLong(Which::Drawing) => String::from_str(alloc, "input too long drawing\n"),
        InputFault::TooLong(Which::Code) => String::from_str(alloc, "input too long code\n"),
        InputFault::Loops(fault) => line_of_loops(alloc, fault),
        InputFault::Cxf(fault) => line_of_cxf(alloc, fault),
        InputFault::Dxf(fault) => line_of_dxf(alloc, fault),
        InputFault::Pbm(fault) => line_of_pbm(alloc, *fault),
        InputFault::Lay(fault) => line_of_lay(alloc, *fault),
        InputFault::Pixels(fault) => line_of_pixels(alloc, *fault),
        InputFault::Open(point) => line_of_open(alloc, *point),
        InputFault::Cross(i, j) => format!(in alloc; "input cross {i},{j}\n"),
        InputFault::StepTooFine(edge) => format!(in alloc; "input step too fine {edge}\n"),
        InputFault::TooMany(kind) => line_of_too_many(alloc, *kind),
        InputFault::Code(fault) => line_of_code(alloc, fault),
    }
}

fn line_of_loops(alloc: Global, fault: &LoopsFault) -> Result<String, AllocError>
    ensures { IfOk result (λ line. string_bytes line ≡ loops_line fault.now) }
{
    let at = fault.at;
    let words = fault.kind.words();
    format!(in alloc; "input loops {at} {words}\n")
}

fn line_of_cxf(alloc: Global, fault: &CxfFault) -> Result<String, AllocError>
    ensures { IfOk result (λ line. string_bytes line ≡ cxf_line fault.now) }
{
    let line = fault.line;
    let words = fault.kind.words();
    format!(in alloc; "input cxf line {line} {words}\n")
}

fn line_of_lay(alloc: Global, fault: LayFault) -> Result<String, AllocError>
    ensures { IfOk result (λ line. string_bytes line ≡ lay_line fault) }
{
    match fault {
        LayFault::NoGlyph(place) => format!(in alloc; "input lay no glyph {place}\n"),
        LayFault::OutOfRange => String::from_str(alloc, "input lay out of range\n"),
        LayFault::TooMany => String::from_str(alloc, "input lay too many\n"),
        LayFault::Memory => String::from_str(alloc, "input lay memory\n"),
    }
}

fn line_of_dxf(alloc: Global, fault: &DxfFault) -> Result<String, AllocError>
    ensures { IfOk result (λ line. string_bytes line ≡ dxf_line fault.now) }
{
    let pair = fault.pair;
    let words = fault.kind.words();
    match fault.kind {
        DxfKind::Missing(code) => format!(in alloc; "input dxf pair {pair} {words} {code}\n"),
        _ => format!(in alloc; "input dxf pair {pair} {words}\n"),
    }
}

fn line_of_pbm(alloc: Global, fault: PbmFault) -> Result<String, AllocError>
    ensures { IfOk result (λ line. string_bytes line ≡ input_line (InputFault.Pbm fault)) }
{
    let words = fault.words();
    format!(in alloc; "input pbm {words}\n")
}

fn line_of_pixels(alloc: Global, fault: FlatFault) -> Result<String, AllocError>
    ensures { IfOk result (λ line. string_bytes line ≡ input_line (InputFault.Pixels fault)) }
{
    let words = fault.words();
    format!(in alloc; "input pixels {words}\n")
}

fn line_of_open(alloc: Global, point: Point) -> Result<String, AllocError>
    ensures { IfOk result (λ line. string_bytes line ≡ open_line point) }
{
    let (x, y) = (point.x(), point.y());
    format!(in alloc; "input open {x},{y}\n")
}

fn line_of_code(alloc: Global, fault: &CodeFault) -> Result<String, AllocError>
    ensures { IfOk result (λ line. string_bytes line ≡ code_line fault.now) }
{
    let line = fault.line;
    let words = fault.kind.words();
    format!(in alloc; "input code line {line} {words}\n")
}

fn line_of_too_many(alloc: Global, kind: Kind) -> Result<String, AllocError>
    ensures { IfOk result (λ line. string_bytes line ≡ input_line (InputFault.TooMany kind)) }
{
    let words = kind.words();
    format!(in alloc; "input too many {words}\n")
}

fn line_of_verdict(alloc: Global, verdict: &Verdict) -> Result<String, AllocError>
    ensures { IfOk result (λ line. string_bytes line ≡ verdict_line verdict.now) }
{
    match verdict {
        Verdict::Clear => Ok(String::new(alloc)),
        Verdict::TooDeep { line } => format!(in alloc; "line {line} too deep\n"),
        Verdict::Gouge { line, edge } => format!(in alloc; "line {line} gouge edge {edge}\n"),
        Verdict::Outside { line } => format!(in alloc; "line {line} outside\n"),
    }
}
