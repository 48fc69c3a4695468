// Reads a PBM file: its magic number, its heading, and its pixels.
ghost use Rattle.std.specs.Prelude.{◌≡◌, ◌≢◌, ◌*◌, ◌≤◌, [], IfErr, IfOk, length};
ghost use Rattle.pbm_edges.specs.Header.{heading_of};
ghost use Rattle.pbm_edges.specs.Stored.{IsFull, black_of};
ghost use Rattle.pbm_edges.specs.Pbm.{headed, is_size, pbm_of, pixels_of, plain_pixels};

use crate::bitmap::{Bitmap, MOST_SIDE};
use crate::cells::{Cells, row_bytes};
use crate::fault::PbmFault;
use crate::header::{Heading, is_space, read_heading};
use crate::magic::{Packing, read_magic};
use std::alloc::Global;

/// The most bytes of a PBM file.
pub const MOST_PBM_BYTES: usize = 16_777_216;

/// The bitmap of a PBM file of at most `MOST_PBM_BYTES` bytes, `P1` or `P4`, or its first fault. Bytes behind the last pixel aren't
/// read.
#[tactic(auto, unfolding(crate::specs::Pbm::pbm_of))]
pub fn read_pbm(alloc: Global, bytes: &[u8]) -> Result<Bitmap, PbmFault>
    requires { length bytes.now ≤ MOST_PBM_BYTES }
    ensures value { IfOk result (λ b. pbm_of bytes.now ≡ Ok b) }
    ensures fault { IfErr result (λ f. f ≢ PbmFault.Memory → pbm_of bytes.now ≡ Err f) }
{
    match read_magic(bytes) {
        Some((packing, text)) => read_image(alloc, packing, text),
        None => Err(PbmFault::Magic),
    }
}

// The bitmap behind its magic number.
fn read_image(alloc: Global, packing: Packing, text: &[u8]) -> Result<Bitmap, PbmFault>
    ensures value { IfOk result (λ b. headed packing (heading_of text.now) ≡ Ok b) }
    ensures fault { IfErr result (λ f. f ≢ PbmFault.Memory → headed packing (heading_of text.now) ≡ Err f) }
{
    let Some(heading) = read_heading(text) else {
        return Err(PbmFault::Header);
    };
    if !is_size(heading.width) || !is_size(heading.height) {
        return Err(PbmFault::Size);
    }
    let cells = read_cells(alloc, packing, heading)?;
    Ok(Bitmap::of(heading.width, heading.height, cells))
}

// Whether a side isn't too short and not too long.
fn is_size(side: u32) -> bool
    ensures { result ≡ is_size side }
{
    1 <= side && side <= MOST_SIDE
}

// The pixels behind the heading.
#[tactic(auto, unfolding(crate::specs::Pbm::packed_pixels))]
fn read_cells(alloc: Global, packing: Packing, heading: Heading<'_>) -> Result<Cells, PbmFault>
    requires wide { heading.width ≤ MOST_SIDE }
    requires high { heading.height ≤ MOST_SIDE }
    ensures value { IfOk result (λ cells. pixels_of packing heading.entry.width heading.entry.height heading.entry.rest.now ≡ Ok (black_of heading.entry.width heading.entry.height cells)) }
    ensures full { IfOk result (λ cells. IsFull heading.entry.width heading.entry.height cells) }
    ensures fault { IfErr result (λ f. f ≢ PbmFault.Memory → pixels_of packing heading.entry.width heading.entry.height heading.entry.rest.now ≡ Err f) }
{
    match packing {
        Packing::Plain => {
            let count = heading.height as usize * heading.width as usize;
            Ok(Cells::Plain(read_plain(alloc, count, heading.rest)?))
        }
        Packing::Packed => {
            let count = heading.height as usize * row_bytes(heading.width);
            if heading.rest.len() < count {
                return Err(PbmFault::Short);
            }
            Ok(Cells::Packed(heading.rest[..count].to_vec(alloc)?))
        }
    }
}

// So many pixels, a digit each.
fn read_plain(alloc: Global, count: usize, text: &[u8]) -> Result<Vec<bool>, PbmFault>
    ensures value { IfOk result (λ pixels. plain_pixels count [] text.now ≡ Ok pixels.items) }
    ensures full { IfOk result (λ pixels. length pixels.items ≡ count) }
    ensures fault { IfErr result (λ f. f ≢ PbmFault.Memory → plain_pixels count [] text.now ≡ Err f) }
{
    let mut pixels = Vec::new(alloc);
    let mut rest = text;
    while let [byte, behind @ ..] = rest {
        if pixels.len() >= count {
            return Ok(pixels);
        }
        match *byte {
            b'0' => pixels.push(false)?,
            b'1' => pixels.push(true)?,
            other if is_space(other) => {}
            _ => return Err(PbmFault::Pixel),
        }
        rest = behind;
    }
    if pixels.len() < count {
        return Err(PbmFault::Short);
    }
    Ok(pixels)
}
