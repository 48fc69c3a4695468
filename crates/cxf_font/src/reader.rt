// Reads a font in CXF form, line by line.
ghost use Rattle.std.specs.Prelude.{◌≡◌, ◌≢◌, ◌≤◌, Err, IfErr, IfOk, Ok, length};
ghost use Rattle.cxf_font.specs.Grammar.{font_of};

use crate::fault::{CxfFault, CxfKind};
use crate::font::Font;
use crate::line::read_line;
use crate::reading::Reading;
use std::alloc::Global;
use text_lines::Lines;

/// The most bytes of a font's text.
pub const MOST_FONT_BYTES: usize = 16_777_216;

/// The font of a text in CXF form of at most `MOST_FONT_BYTES` bytes, or its first fault.
pub fn read_font(alloc: Global, bytes: &[u8]) -> Result<Font, CxfFault>
    requires { length bytes.now ≤ MOST_FONT_BYTES }
    ensures value { IfOk result (λ font. font_of bytes.now ≡ Ok font) }
    ensures fault { IfErr result (λ f. f.kind ≢ CxfKind.Memory → font_of bytes.now ≡ Err f) }
    ensures memory { IfErr result (λ f. f.kind ≡ CxfKind.Memory → f.line ≡ 0) }
{
    let mut reading = Reading::begin(alloc);
    let mut number = 0u32;
    for line in Lines::of(bytes) {
        number += 1;
        match read_line(reading.has_begun(), line.bytes) {
            Ok(said) => reading.take(said)?,
            Err(kind) => {
                return Err(CxfFault { line: number, kind });
            }
        }
    }
    reading.finish()
}
