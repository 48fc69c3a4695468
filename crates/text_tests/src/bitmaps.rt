// Small bitmaps worked by hand, and the greatest ones.
ghost use Rattle.plane_exact.specs.Cone.{IsFromOneTo};

use pbm_edges::{Bitmap, FlatFault, MOST_PBM_BYTES, MOST_PIXEL, PbmFault, edges, read_pbm};
use plane_exact::Seg;
use std::alloc::{AllocError, Global};
use std::test::Fail;

const ONE_PIXEL: &str = "100,100 0,100; 0,0 100,0; 0,100 0,0; 100,0 100,100;";

// Each file with its segments for pixels of a hundred grid units, or with its fault.
const FILES: [(&[u8], &str); 33] = [
    (
        b"P1\n2 2\n10\n01\n",
        "100,200 0,200; 0,100 100,100; 200,100 100,100; 100,0 200,0; 0,200 0,100; 100,100 100,0; 100,100 100,200; 200,0 200,100;",
    ),
    (b"P1 1 1 1", ONE_PIXEL),
    (b"P1\x0b1\t1\x0c\x0d 1", ONE_PIXEL),
    (b"P1 2 1 10", ONE_PIXEL),
    (b"P1 00001 1\n1x", ONE_PIXEL),
    (b"P1#2 2\n##\n1#\n 1\n1", ONE_PIXEL),
    (
        b"P1 2 1\n1 1",
        "200,100 0,100; 0,0 200,0; 0,100 0,0; 200,0 200,100;",
    ),
    (b"P1 3 2 000 000", ""),
    (
        b"P4 1 2\n\x80\x7f",
        "100,200 0,200; 0,100 100,100; 0,200 0,100; 100,100 100,200;",
    ),
    (
        b"P4 10 1\n\x01\xbf",
        "900,100 700,100; 700,0 900,0; 700,100 700,0; 900,0 900,100;",
    ),
    (b"P5 1 1 1", "Magic"),
    (b"p1 1 1 1", "Magic"),
    (b"P11 1 1", "Header"),
    (b"P1 1,1 1", "Header"),
    (b"P1 -1 1 1", "Header"),
    (b"P1 000001 1 1", "Header"),
    (b"P1 1 123456 1", "Header"),
    (b"P1 1 1#\n1", "Header"),
    (b"P1 0 1x", "Header"),
    (b"P1 # 1 1 1", "Header"),
    (b"P1 0 1 1", "Size"),
    (b"P1 1 0 1", "Size"),
    (b"P1 8192 1 x", "Size"),
    (b"P4 1 99999 ", "Size"),
    (b"P1 2 1 1 \n", "Short"),
    (b"P4 10 2\nabc", "Short"),
    (b"P4 8191 8191\n", "Short"),
    (b"P1 2 1 1x", "Pixel"),
    (b"P1 1 1 2", "Pixel"),
    (b"P1 1 1 #\n1", "Pixel"),
    (b"P1 1 1 \x00", "Pixel"),
    (b"P1 328 1 x", "Pixel"),
    (
        b"P4 328 1\n\xff\xff\xff\xff\xff\xff\xff\xff\xff\xff\xff\xff\xff\xff\xff\xff\xff\xff\xff\xff\xff\xff\xff\xff\xff\xff\xff\xff\xff\xff\xff\xff\xff\xff\xff\xff\xff\xff\xff\xff\xff",
        "OutOfRange",
    ),
];

#[test]
fn reads_and_traces_small_files(rt: HostRuntime) -> Result<(), Fail> {
    for (file, want) in FILES.iter() {
        let answer = described(rt.alloc(), file)?;
        assert!(rt; answer.as_str() == *want, "{answer} at {file:?}");
    }
    Ok(())
}

// Each file breaks off in its magic number, in its heading of so many bytes, and among its pixels.
#[test]
fn tells_where_a_file_breaks_off(rt: HostRuntime) -> Result<(), Fail> {
    let files: [(&[u8], usize); 3] = [
        (b"P1 2 1\n10", 7),
        (b"P4 9 1\n\x80\x00", 7),
        (b"P4 10 2\n\x00\x3f\x80\x3f", 8),
    ];
    for (file, head) in files {
        assert!(rt; file.len() < 100);
        for cut in 0..file.len() {
            let fault = if cut < 2 {
                PbmFault::Magic
            } else if cut < head {
                PbmFault::Header
            } else {
                PbmFault::Short
            };
            let answer = read_pbm(rt.alloc(), &file[..cut]);
            assert_eq!(rt; answer.err(), Some(fault), "at {cut} of {file:?}");
        }
        assert_eq!(rt; described(rt.alloc(), file)?.as_str(), ONE_PIXEL);
    }
    Ok(())
}

// A checkerboard with even sides has two segments for each of its pixels: 256 by 256 of them are 131,072.
#[test]
fn takes_131072_segments(rt: HostRuntime) -> Result<(), Fail> {
    let full = checkerboard(rt.alloc(), 256, 256)?;
    assert_eq!(rt;
        first_pixels(rt.alloc(), &full),
        Some((256, 256, true, false))
    );
    assert_eq!(rt; count(rt.alloc(), &full, 127), Some(Ok(131_072)));
    assert_eq!(rt;
        count(rt.alloc(), &full, 128),
        Some(Err(FlatFault::OutOfRange))
    );
    let over = checkerboard(rt.alloc(), 257, 256)?;
    assert_eq!(rt; count(rt.alloc(), &over, 1), Some(Err(FlatFault::TooMany)));
    Ok(())
}

// The bitmap. None where the file is none, or too long.
fn bitmap(alloc: Global, file: &[u8]) -> Option<Bitmap> {
    if file.len() > MOST_PBM_BYTES {
        return None;
    }
    read_pbm(alloc, file).ok()
}

// The width and the height, and whether the pixels at the upper left and beside it are black.
fn first_pixels(alloc: Global, file: &[u8]) -> Option<(u32, u32, bool, bool)> {
    let map = bitmap(alloc, file)?;
    if map.width() < 2 {
        return None;
    }
    Some((map.width(), map.height(), map.black(0, 0), map.black(1, 0)))
}

// How many segments the file has, at pixels of so many grid units.
fn count(alloc: Global, file: &[u8], pixel: u32) -> Option<Result<usize, FlatFault>>
    requires { IsFromOneTo MOST_PIXEL pixel }
{
    let map = bitmap(alloc, file)?;
    match edges(alloc, &map, pixel) {
        Ok(segs) => Some(Ok(segs.len())),
        Err(fault) => Some(Err(fault)),
    }
}

// A white file of the greatest sides but for its last pixel.
#[test]
fn takes_8191_by_8191_pixels(rt: HostRuntime) -> Result<(), Fail> {
    let mut file = Vec::new(rt.alloc());
    file.extend_from_slice(b"P4 8191 8191\n")?;
    for _ in 0..8_387_583 {
        file.push(0)?;
    }
    file.push(2)?;
    let map = bitmap(rt.alloc(), &file).expect(&rt, "a bitmap");
    let segs = edges(rt.alloc(), &map, 4).ok().expect(&rt, "segments");
    assert_eq!(rt;
        listed(rt.alloc(), &segs)?.as_str(),
        "32764,4 32760,4; 32760,0 32764,0; 32760,4 32760,0; 32764,0 32764,4;"
    );
    Ok(())
}

#[test]
fn words_of_the_faults(rt: HostRuntime) -> Result<(), Fail> {
    assert_eq!(rt; PbmFault::Header.words(), "header");
    assert_eq!(rt; FlatFault::TooMany.words(), "too many");
    Ok(())
}

fn checkerboard(alloc: Global, width: u32, height: u32) -> Result<Vec<u8>, AllocError> {
    let mut file = format!(in alloc; "P1 {width} {height}\n")?.into_bytes();
    for row in 0..height {
        for col in 0..width {
            let is_black = row % 2 == col % 2;
            file.push(if is_black { b'1' } else { b'0' })?;
        }
    }
    Ok(file)
}

// The segments of a file, with pixels of a hundred grid units, or its fault.
fn described(alloc: Global, file: &[u8]) -> Result<String, AllocError> {
    if file.len() > MOST_PBM_BYTES {
        return format!(in alloc; "too long");
    }
    match read_pbm(alloc, file) {
        Ok(map) => traced(alloc, &map),
        Err(fault) => format!(in alloc; "{fault:?}"),
    }
}

fn traced(alloc: Global, map: &Bitmap) -> Result<String, AllocError> {
    match edges(alloc, map, 100) {
        Ok(segs) => listed(alloc, &segs),
        Err(fault) => format!(in alloc; "{fault:?}"),
    }
}

fn listed(alloc: Global, segs: &[Seg]) -> Result<String, AllocError> {
    let mut text = String::new(alloc);
    for seg in segs {
        let space = if text.is_empty() { "" } else { " " };
        let (x0, y0, x1, y1) = (seg.a.x(), seg.a.y(), seg.b.x(), seg.b.y());
        write!(text, "{space}{x0},{y0} {x1},{y1};")?;
    }
    Ok(text)
}
