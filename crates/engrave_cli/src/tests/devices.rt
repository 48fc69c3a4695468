// Devices: those that fail, those that never do, the longest file, and files of the host.

use super::carve::{CARVED, SMALL};
use super::{FIRST, NEVER, NOT_RUN, SQUARE, listed, listed_with, run, shelf, told};
use engrave_core::{Outcome, engrave, status};
use shop_port::{HostDepot, MemSink, SureDepot, SureSink};
use std::alloc::Global;
use std::process::Abort;
use std::rt::Files;
use std::test::Fail;
use std::{env, fs, process};

/// What the first run over this drawing comes to, or nothing where there is no memory for it.
fn sure(alloc: Global, drawing: &[u8], out: &mut SureSink) -> Option<Outcome> {
    let words = listed(alloc, &[FIRST]).ok()?;
    let files = shelf(alloc, drawing, b"").ok()?;
    Some(engrave(alloc, &words, &mut SureDepot::new(files, 65_536), out))
}

/// The same, and what the run has written.
fn sure_text(alloc: Global, drawing: &[u8]) -> Option<(Outcome, String)> {
    let mut out = SureSink::new(alloc, 100, 65_536).ok()?;
    let outcome = sure(alloc, drawing, &mut out)?;
    let bytes = out.bytes()?.to_vec(alloc).ok()?;
    Some((outcome, String::from_utf8(bytes).ok()?))
}

#[test]
fn the_longest_drawing_is_read_and_a_longer_one_refused(rt: HostRuntime) -> Result<(), Fail> {
    for (bytes, want, line) in [
        (16_777_216, 0, "depth 0\n"),
        (16_777_217, 3, "input too long drawing\n"),
    ] {
        let blanks = vec![in rt.alloc(); b' '; bytes]?;
        let nothing = (Outcome::Memory, String::new(rt.alloc()));
        let (outcome, text) = sure_text(rt.alloc(), &blanks).unwrap_or(nothing);
        assert_eq!(rt; (status(&outcome), text.as_str()), (want, line), "{bytes}");
    }
    Ok(())
}

#[test]
fn the_first_run_over_sure_devices(rt: HostRuntime) {
    let nothing = (Outcome::Memory, String::new(rt.alloc()));
    let (outcome, text) = sure_text(rt.alloc(), SQUARE.as_bytes()).unwrap_or(nothing);
    assert_eq!(rt; (outcome, text.as_str()), (Outcome::Done, "depth 500\n"));
}

/// Bytes of a call, the calls that fail, and what comes of it. The plate's 27 bytes are read in three calls of ten and one that finds the
/// end; the text is one call.
const FAILING: &[(usize, (u64, u64), (u8, &str))] = &[
    (10, (1, NEVER), (5, "read fault\n")),
    (10, (2, NEVER), (5, "read fault\n")),
    (10, (3, NEVER), (5, "read fault\n")),
    (10, (4, NEVER), (5, "read fault\n")),
    (10, (5, NEVER), (0, "depth 500\n")),
    (10, (NEVER, 1), (6, "")),
    (10, (NEVER, 2), (0, "depth 500\n")),
    (10, (1, 1), (6, "")),
    (10, (1, 2), (6, "read fault")),
    (4, (NEVER, 2), (6, "dept")),
];

#[test]
fn failing_devices_are_reported_apart_from_wrong_inputs(rt: HostRuntime) {
    for (per_call, failing, want) in FAILING {
        assert!(rt; 1 <= *per_call);
        let (status, text) = run(rt.alloc(), &[FIRST], (SQUARE, ""), *per_call, *failing);
        assert_eq!(rt; (status, text.as_str()), *want, "{failing:?} of {per_call}");
    }
}

#[test]
fn each_write_that_fails_is_answered(rt: HostRuntime) {
    // The 281 bytes of the carved text go out in 29 calls, and what went out before the one that fails stays.
    let words = "carve --drawing=d --bit=1/1 --rmax=2 --step=2 --pitch=1";
    for call in 1..31usize {
        let want = if call < 30 {
            (6, 10 * (call - 1))
        } else {
            (0, CARVED.len())
        };
        let (status, text) = run(rt.alloc(), &[words], (SMALL, ""), 10, (NEVER, call as u64));
        assert_eq!(rt; (status, text.len()), want, "{call}");
        assert!(rt; CARVED.starts_with(text.as_str()), "{call}");
    }
}

#[test]
fn each_read_that_fails_is_answered(rt: HostRuntime) {
    // The drawing's 15 bytes, the program's 20, and the end of each are a call of their own.
    let words = "check --drawing=d --code=c --bit=1/1 --rmax=2";
    let files = (SMALL, "G0 X0 Y0 Z1\nG1 Z0\nM2");
    for call in 1..39u64 {
        let (done, behind) = if call < 38 {
            ((5, "read fault\n"), (6, ""))
        } else {
            ((0, "clear 1 moves\n"), (6, ""))
        };
        for (writes, want) in [(NEVER, done), (1, behind)] {
            let (status, text) = run(rt.alloc(), &[words], files, 1, (call, writes));
            assert_eq!(rt; (status, text.as_str()), want, "{call}, {writes}");
        }
    }
}

/// What listing the moves of a file of the host comes to, or nothing where there is no memory for it.
fn listed_from_host(rt: &(impl Files + AllocGlobal), name: &str) -> Option<(u8, String)> {
    let alloc = rt.alloc();
    let words = listed_with(alloc, &["moves"], ("--code=", name)).ok()?;
    let mut out = MemSink::new(alloc, 65_536, Vec::new(alloc));
    told(alloc, &words, &mut HostDepot::new(rt), &mut out)
}

/// Expects what listing the moves of a file of the host comes to.
fn expect_listed(rt: &(impl Abort + Files + AllocGlobal), name: &str, want: (u8, &str)) {
    let nothing = (NOT_RUN, String::new(rt.alloc()));
    let (status, listed) = listed_from_host(rt, name).unwrap_or(nothing);
    assert_eq!(rt; (status, listed.as_str()), want, "{name}");
}

#[test]
fn files_of_the_host_go_by_name(rt: HostRuntime) -> Result<(), Fail> {
    let folder = env::temp_dir(&rt)?;
    let number = process::id(rt.process());
    let path = format!(in rt.alloc(); "{}/engrave_cli-{number}", folder.as_str())?;
    fs::write(&rt, path.as_str(), "G0 Z2\nG0 X1 Y5\nG1 Z-1\n")?;
    let moves = (0, "3 100,500,200 100,500,-100\nmoves 1\n");
    expect_listed(&rt, path.as_str(), moves);
    expect_listed(&rt, "no such name", (4, "absent code\n"));
    expect_listed(&rt, "/", (5, "read fault\n"));
    fs::remove_file(&rt, path.as_str())?;
    Ok(())
}
