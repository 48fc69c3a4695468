// Where the reading of a font stands: the glyphs that are whole, and the one that has begun last.
ghost use Rattle.std.specs.Prelude.{◌≡◌, ◌∷◌, ◌||◌, [], List, IfErr, IfOk, None, OnOk, false, is_some, map, true};
ghost use Rattle.cxf_font.specs.Glyphs.{glyph_of};
ghost use Rattle.cxf_font.specs.Grammar.{begins_glyph, glyphs_of};
ghost use Rattle.cxf_font.specs.State.{font_with, is_sound};
ghost use Rattle.cxf_font.specs.declared.line.FontLine.{FontLine};
ghost use Rattle.cxf_font.specs.declared.fault.TheConstants.{OUT_OF_MEMORY};

use crate::fault::CxfFault;
use crate::font::Font;
use crate::glyph::Glyph;
use crate::line::FontLine;
use std::alloc::Global;

/// The glyphs of the lines so far.
#[derive(Drop)]
pub(crate) struct Reading {
    glyphs: Vec<Glyph>,
    // The glyph that has begun last, to which further elements belong.
    last: Option<Glyph>,
}

impl Reading {
    /// No line is read.
    pub(crate) fn begin(alloc: Global) -> Reading
        ensures font { (lines : List FontLine) → font_with result lines ≡ glyphs_of lines }
        ensures begun { is_some result.last ≡ false }
    {
        Reading {
            glyphs: Vec::new(alloc),
            last: None,
        }
    }

    /// Whether a glyph has begun.
    pub(crate) fn has_begun(&self) -> bool
        ensures { result ≡ is_some self.now.last }
    {
        self.last.is_some()
    }

    /// Takes what the next line says.
    pub(crate) fn take(&mut self, line: FontLine) -> Result<(), CxfFault>
        requires { is_sound line ≡ true }
        ensures font { OnOk result ((lines : List FontLine) → font_with self.new lines ≡ font_with self.old (line ∷ lines)) }
        ensures begun { OnOk result (is_some self.new.last ≡ (is_some self.old.last || begins_glyph line)) }
        ensures fault { IfErr result (λ f. f ≡ OUT_OF_MEMORY) }
    {
        match line {
            FontLine::Skipped => {}
            FontLine::Begins(key) => {
                self.close()?;
                self.last = Some(Glyph {
                    key,
                    elements: Vec::new(*self.glyphs.allocator()),
                });
            }
            FontLine::Draws(element) => {
                if let Some(glyph) = &mut self.last {
                    glyph.elements.push(element)?;
                }
            }
        }
        Ok(())
    }

    // The glyph that has begun is whole.
    fn close(&mut self) -> Result<(), CxfFault>
        ensures font { OnOk result (map glyph_of self.new.glyphs.items ≡ font_with self.old []) }
        ensures none { OnOk result (self.new.last ≡ None) }
        ensures fault { IfErr result (λ f. f ≡ OUT_OF_MEMORY) }
    {
        if let Some(glyph) = self.last.take() {
            self.glyphs.push(glyph)?;
        }
        Ok(())
    }

    /// The font of all lines.
    pub(crate) fn finish(mut self) -> Result<Font, CxfFault>
        ensures font { IfOk result (λ font. font ≡ font_with self []) }
        ensures fault { IfErr result (λ f. f ≡ OUT_OF_MEMORY) }
    {
        self.close()?;
        Ok(Font::of(self.glyphs))
    }
}
