// Words and what they ask for, by the written forms; a file a command.

mod carve;
mod check;
mod contacts;
mod cover;
mod flat;
mod flatten;
mod moves;
mod probe;
mod repair;
mod strokes;
mod trial;

use job_words::{DrawingWords, Request, WordsFault, read_words};
use std::alloc::{AllocError, Global};
use std::test::Fail;

/// What the words of a line ask for; there is a space between two words.
fn read_line(alloc: Global, line: &str) -> Result<Result<Request, WordsFault>, AllocError> {
    let mut words = Vec::new(alloc);
    for word in line.split(' ') {
        words.push(String::from_str(alloc, word)?)?;
    }
    Ok(read_words(alloc, words.as_slice()))
}

/// The drawing words as text: `DRAWING FORM UNITS`.
fn shape_text(alloc: Global, shape: &DrawingWords) -> Result<String, AllocError> {
    let drawing = shape.drawing.as_str();
    let form = shape.form;
    let units = shape.units;
    format!(in alloc; "{drawing} {form:?} {units:?}")
}

/// The words of a text, and that of edges that cross, as text.
fn lettering_text(alloc: Global, shape: &DrawingWords) -> Result<String, AllocError> {
    let letters = match &shape.text {
        Some(text) => text.as_str(),
        None => "",
    };
    let (height, width) = (shape.height, shape.width);
    let (charspace, wordspace, linespace) = (shape.charspace, shape.wordspace, shape.linespace);
    let (justify, mirror, flip) = (shape.justify, shape.mirror, shape.flip);
    let cross = shape.cross;
    format!(in alloc;
        "{letters} {height} {width} {charspace} {wordspace} {linespace} {justify:?} {mirror:?} {flip:?} {cross:?}"
    )
}

/// What a line asks for, as text: the values of its command, `usage` or `memory`.
fn text_of_line(alloc: Global, line: &str) -> Result<String, AllocError> {
    match read_line(alloc, line)? {
        Ok(request) => text_of_request(alloc, &request),
        Err(WordsFault::Usage) => String::from_str(alloc, "usage"),
        Err(WordsFault::Memory) => String::from_str(alloc, "memory"),
    }
}

fn text_of_request(alloc: Global, request: &Request) -> Result<String, AllocError> {
    match request {
        Request::Probe {
            shape,
            at,
            bit,
            rmax,
            limit,
        } => {
            let shape = shape_text(alloc, shape)?;
            let (x, y) = (at.x(), at.y());
            let (sn, sd) = *bit;
            format!(in alloc; "{shape} {x},{y} {sn}/{sd} {rmax} {limit}")
        }
        Request::Moves { code, units } => {
            let code = code.as_str();
            format!(in alloc; "{code} {units:?}")
        }
        Request::Check {
            shape,
            code,
            bit,
            rmax,
        } => {
            let shape = shape_text(alloc, shape)?;
            let code = code.as_str();
            let (sn, sd) = *bit;
            format!(in alloc; "{shape} {code} {sn}/{sd} {rmax}")
        }
        Request::Contacts { shape, step, rmax } => {
            let shape = shape_text(alloc, shape)?;
            format!(in alloc; "{shape} {step} {rmax}")
        }
        Request::Carve {
            shape,
            bit,
            rmax,
            step,
            limit,
            safe,
            feed,
            pitch,
            pocket,
            over,
        } => {
            let shape = shape_text(alloc, shape)?;
            let (sn, sd) = *bit;
            format!(in alloc;
                "{shape} {sn}/{sd} {rmax} {step} {limit} {safe} {feed} {pitch} {pocket:?} {over}"
            )
        }
        Request::Cover {
            shape,
            code,
            bit,
            rmax,
            pitch,
        } => {
            let shape = shape_text(alloc, shape)?;
            let code = code.as_str();
            let (sn, sd) = *bit;
            format!(in alloc; "{shape} {code} {sn}/{sd} {rmax} {pitch}")
        }
        Request::Flatten { shape } => {
            let text = shape_text(alloc, shape)?;
            let (chord, snap, pixel) = (shape.chord, shape.snap, shape.pixel);
            let lettering = lettering_text(alloc, shape)?;
            format!(in alloc; "{text} {chord} {snap} {pixel} {lettering}")
        }
        Request::Flat {
            shape,
            bit,
            rmax,
            radius,
            limit,
            over,
            safe,
            feed,
            pitch,
            pocket,
        } => {
            let shape = shape_text(alloc, shape)?;
            let (sn, sd) = *bit;
            let numbers = format!(in alloc;
                "{rmax} {radius} {limit} {over} {safe} {feed} {pitch}"
            )?;
            format!(in alloc; "{shape} {sn}/{sd} {numbers} {pocket:?}")
        }
        Request::Strokes {
            shape,
            bit,
            rmax,
            depth,
            safe,
            feed,
            pitch,
        } => {
            let shape = shape_text(alloc, shape)?;
            let (sn, sd) = *bit;
            format!(in alloc; "{shape} {sn}/{sd} {rmax} {depth} {safe} {feed} {pitch}")
        }
        Request::Repair {
            shape,
            code,
            bit,
            rmax,
            safe,
            feed,
        } => {
            let shape = shape_text(alloc, shape)?;
            let code = code.as_str();
            let (sn, sd) = *bit;
            format!(in alloc; "{shape} {code} {sn}/{sd} {rmax} {safe} {feed}")
        }
        Request::Trial { count } => format!(in alloc; "{count}"),
    }
}

#[test]
fn lines_ask_for_their_values(rt: HostRuntime) -> Result<(), Fail> {
    for lines in [
        carve::LINES.as_slice(),
        check::LINES.as_slice(),
        contacts::LINES.as_slice(),
        cover::LINES.as_slice(),
        flat::LINES.as_slice(),
        flatten::LINES.as_slice(),
        moves::LINES.as_slice(),
        probe::LINES.as_slice(),
        repair::LINES.as_slice(),
        strokes::LINES.as_slice(),
        trial::LINES.as_slice(),
    ] {
        for (line, want) in lines {
            let text = text_of_line(rt.alloc(), line)?;
            assert!(rt; text.as_str() == *want, "{line}: {text}");
        }
    }
    Ok(())
}

#[test]
fn words_of_no_command_are_refused(rt: HostRuntime) -> Result<(), Fail> {
    let none: [String; 0] = [];
    assert!(rt;
        matches!(
            read_words(rt.alloc(), none.as_slice()),
            Err(WordsFault::Usage)
        )
    );
    for line in [
        "",
        "Moves --code=c",
        "--code=c",
        "move --code=c",
        "covers --drawing=d --code=c --bit=1/2 --rmax=100",
    ] {
        let read = read_line(rt.alloc(), line)?;
        assert!(rt; matches!(read, Err(WordsFault::Usage)), "{line}");
    }
    Ok(())
}
