// The fakes with calls that fail in turn, and the host's files and output for real.
ghost use Rattle.std.specs.Prelude.{◌≤◌, None};

use shop_port::*;
use std::alloc::Global;
use std::collections::BTreeMap;
use std::fs::{self, File};
use std::io::{self, Write};
use std::test::Fail;
use std::{env, process};

/// Ten bytes, which calls of 1 and of 7 bytes cut in different places.
const TEXT: &str = "0,0 9,0 5,";

/// The name of the text in a depot.
const NAME: &str = "plate.loops";

fn shelf(alloc: Global) -> Result<BTreeMap<String, Vec<u8>>, Fail> {
    let mut files = BTreeMap::new(alloc);
    let text = TEXT.as_bytes().to_vec(alloc)?;
    files.insert(String::from_str(alloc, NAME)?, text)?;
    Ok(files)
}

/// Loads the text where the read of this number fails. Says why it wasn't loaded, and whether it was.
fn load_shelved(
    alloc: Global,
    per_call: usize,
    failing: u64,
    cap: u64,
) -> Result<(Option<LoadFault>, bool), Fail>
    requires { 1 ≤ per_call }
{
    let mut depot = MemDepot::new(shelf(alloc)?, per_call, [failing].to_vec(alloc)?);
    match load(alloc, &mut depot, NAME, cap) {
        Ok(bytes) => Ok((None, bytes.as_slice() == TEXT.as_bytes())),
        Err(fault) => Ok((Some(fault), false)),
    }
}

#[test]
fn loads_with_reads_failing_in_turn(rt: HostRuntime) -> Result<(), Fail> {
    // The last read that is needed, the third or the eleventh, finds the end of the file.
    for (per_call, failing, cap, fault) in [
        (7, 1, 10, Some(LoadFault::ReadFault)),
        (7, 2, 10, Some(LoadFault::ReadFault)),
        (7, 3, 10, Some(LoadFault::ReadFault)),
        (7, 4, 10, None),
        (7, 4, 9, Some(LoadFault::TooLong)),
        (1, 6, 10, Some(LoadFault::ReadFault)),
        (1, 11, 10, Some(LoadFault::ReadFault)),
        (1, 12, 10, None),
        (1, 12, 9, Some(LoadFault::TooLong)),
    ] {
        assert!(rt; 1 <= per_call);
        let answer = load_shelved(rt.alloc(), per_call, failing, cap)?;
        assert_eq!(rt;
            answer,
            (fault, fault.is_none()),
            "{per_call} a call, {failing} fails"
        );
    }
    Ok(())
}

#[test]
fn finds_no_other_name(rt: HostRuntime) -> Result<(), Fail> {
    let mut depot = SureDepot::new(shelf(rt.alloc())?, 7);
    let fault = load(rt.alloc(), &mut depot, "plate", 10).err();
    assert_eq!(rt; fault, Some(LoadFault::Absent));
    Ok(())
}

#[test]
fn sends_with_writes_failing_in_turn(rt: HostRuntime) -> Result<(), Fail> {
    for (per_call, failing, sent) in [
        (1, 1, ""),
        (1, 10, "0,0 9,0 5"),
        (7, 2, "0,0 9,0"),
        (7, 3, TEXT),
    ] {
        assert!(rt; 1 <= per_call);
        let mut sink = MemSink::new(rt.alloc(), per_call, [failing].to_vec(rt.alloc())?);
        let is_sent = send(&mut sink, TEXT.as_bytes()).is_ok();
        assert_eq!(rt; is_sent, sent.len() == TEXT.len(), "call {failing} fails");
        assert_eq!(rt; sink.bytes(), sent.as_bytes(), "call {failing} fails");
    }
    Ok(())
}

#[test]
fn what_fits_in_the_room_is_known(rt: HostRuntime) -> Result<(), Fail> {
    for (room, is_known) in [(10, true), (9, false)] {
        let mut sink = SureSink::new(rt.alloc(), room, 7)?;
        assert_eq!(rt; send(&mut sink, TEXT.as_bytes()), Ok(()));
        assert_eq!(rt;
            sink.bytes() == Some(TEXT.as_bytes()),
            is_known,
            "room {room}"
        );
    }
    Ok(())
}

/// A file of the host that no other test has.
fn scratch(rt: &HostRuntime, name: &str) -> Result<String, Fail> {
    let folder = env::temp_dir(rt)?;
    let number = process::id(rt.process());
    Ok(format!(in rt.alloc(); "{}/shop_port-{number}-{name}", folder.as_str())?)
}

/// What one read of up to 8 bytes finds.
fn piece_at(rt: &HostRuntime, path: &str, at: u64) -> Result<Vec<u8>, Fail> {
    let mut into = [0; 8];
    match HostDepot::new(rt).read(path, at, &mut into) {
        Ok(Fetch::Got(n)) => Ok(into[..n].to_vec(rt.alloc())?),
        _ => Err("no piece")?,
    }
}

#[test]
fn reads_a_real_file(rt: HostRuntime) -> Result<(), Fail> {
    let path = scratch(&rt, "read")?;
    fs::write(&rt, path.as_str(), TEXT)?;
    for (at, found) in [(0, "0,0 9,0 "), (8, "5,"), (10, "")] {
        let piece = piece_at(&rt, &path, at)?;
        assert_eq!(rt; piece.as_slice(), found.as_bytes(), "at {at}");
    }
    let fault = load(rt.alloc(), &mut HostDepot::new(&rt), &path, 9).err();
    assert_eq!(rt; fault, Some(LoadFault::TooLong));
    fs::remove_file(&rt, path.as_str())?;
    Ok(())
}

#[test]
fn a_folder_is_no_missing_name(rt: HostRuntime) {
    let mut depot = HostDepot::new(&rt);
    assert_eq!(rt;
        depot.read("/tmp/no such name", 0, &mut [0; 8]),
        Ok(Fetch::Absent)
    );
    assert_eq!(rt; depot.read("/", 0, &mut [0; 8]), Err(Failed));
}

#[test]
fn a_name_below_a_file_is_no_missing_name(rt: HostRuntime) -> Result<(), Fail> {
    let path = scratch(&rt, "below")?;
    fs::write(&rt, path.as_str(), TEXT)?;
    let below = format!(in rt.alloc(); "{path}/x")?;
    assert_eq!(rt;
        HostDepot::new(&rt).read(&below, 0, &mut [0; 8]),
        Err(Failed)
    );
    fs::remove_file(&rt, path.as_str())?;
    Ok(())
}

/// A writer that takes no byte, and says so.
#[derive(Drop)]
struct FullWriter;

impl Write for FullWriter {
    fn write(&mut self, _piece: &[u8]) -> io::Result<usize> {
        Ok(0)
    }

    fn flush(&mut self) -> io::Result<()> {
        Ok(())
    }
}

#[test]
fn a_writer_that_takes_nothing_fails(rt: HostRuntime) {
    let mut sink = HostSink::new(FullWriter);
    assert_eq!(rt; sink.write(TEXT.as_bytes()), Err(Failed));
    assert_eq!(rt; sink.write(&[]), Ok(0));
}

/// A file of so many bytes, and what was asked of it: the longest piece, and the farthest place.
#[derive(Drop)]
struct WatchedDepot {
    length: u64,
    longest: usize,
    farthest: u64,
}

impl Depot for WatchedDepot {
    ghost held = { λ _. None };

    ghost faults = { λ _. 0 };

    ghost misses = { λ _. 0 };

    fn read(&mut self, _name: &str, at: u64, into: &mut [u8]) -> Result<Fetch, Failed> {
        let room = into.len() as u64;
        self.longest = self.longest.max(into.len());
        self.farthest = self.farthest.max(at.saturating_add(room));
        Ok(Fetch::Got(room.min(self.length.saturating_sub(at)) as usize))
    }
}

#[test]
fn loads_in_short_pieces_and_no_farther_than_one_byte_past_the_cap(
    rt: HostRuntime,
) -> Result<(), Fail> {
    for (length, cap, is_loaded, longest, farthest) in [
        (200_000, 200_000, true, 65_536, 200_001),
        (200_000, 100_000, false, 65_536, 100_001),
        (9, 10, true, 11, 11),
        (9, 8, false, 9, 9),
    ] {
        let mut depot = WatchedDepot {
            length,
            longest: 0,
            farthest: 0,
        };
        let is_ok = load(rt.alloc(), &mut depot, NAME, cap).is_ok();
        assert_eq!(rt;
            (is_ok, depot.longest, depot.farthest),
            (is_loaded, longest, farthest),
            "{length} bytes, {cap} at most"
        );
    }
    Ok(())
}

#[test]
fn writes_a_real_file(rt: HostRuntime) -> Result<(), Fail> {
    let path = scratch(&rt, "write")?;
    let mut sink = HostSink::new(File::create(&rt, path.as_str())?);
    assert_eq!(rt; send(&mut sink, TEXT.as_bytes()), Ok(()));
    // A file that is open for reading alone takes nothing.
    let mut sink = HostSink::new(File::open(&rt, path.as_str())?);
    assert_eq!(rt; send(&mut sink, TEXT.as_bytes()), Err(WriteFault));
    assert_eq!(rt; fs::read(&rt, path.as_str())?.as_slice(), TEXT.as_bytes());
    fs::remove_file(&rt, path.as_str())?;
    Ok(())
}
