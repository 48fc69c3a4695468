// The host's files and an output of it. Nothing is known of their content.
ghost use Rattle.std.specs.Prelude.{◌≡◌, ◌≤◌, length, None, IfOk};

use crate::{Depot, Failed, Fetch, Sink};
use std::fs::File;
use std::io::{self, ErrorKind, Read, Seek, SeekFrom, Write};
use std::rt::Files;

/// The files of a host, each opened anew for a read. A name that isn't found is absent. Any other
/// fault is a failed read, as that of a folder.
#[derive(Drop)]
pub struct HostDepot<'a, R: Files> {
    rt: &'a R,
    faults: u64,
    misses: u64,
}

impl<'a, R: Files> HostDepot<'a, R> {
    /// The files that `rt` opens.
    pub fn new(rt: &'a R) -> HostDepot<'a, R>
        ensures faults { ⟦<HostDepot<'a, R> as Depot>⟧.faults result ≡ 0 }
        ensures misses { ⟦<HostDepot<'a, R> as Depot>⟧.misses result ≡ 0 }
    {
        HostDepot {
            rt,
            faults: 0,
            misses: 0,
        }
    }
}

/// Reads from the offset on, once.
fn read_file<R: Files>(rt: &R, name: &str, at: u64, into: &mut [u8]) -> io::Result<usize>
    ensures { IfOk result (λ n. n ≤ length into.new) }
{
    let mut file = File::open(rt, name)?;
    file.seek(SeekFrom::Start(at))?;
    file.read(into)
}

impl<R: Files> Depot for HostDepot<'_, R> {
    ghost held = { λ _. None };

    ghost faults = { λ depot. depot.faults };

    ghost misses = { λ depot. depot.misses };

    fn read(&mut self, name: &str, at: u64, into: &mut [u8]) -> Result<Fetch, Failed> {
        match read_file(self.rt, name, at, into) {
            Ok(n) => Ok(Fetch::Got(n)),
            Err(e) if e.kind() == ErrorKind::NotFound => {
                self.misses = self.misses.saturating_add(1);
                Ok(Fetch::Absent)
            }
            Err(_) => {
                self.faults = self.faults.saturating_add(1);
                Err(Failed)
            }
        }
    }
}

/// An output of the host. A write fails where the writer does, or where it takes nothing.
#[derive(Drop)]
pub struct HostSink<W> {
    out: W,
    faults: u64,
}

impl<W: Write> HostSink<W> {
    /// A sink over a writer that passes on at once what it takes: a fault that comes later isn't seen.
    pub fn new(out: W) -> HostSink<W>
        ensures { ⟦<HostSink<W> as Sink>⟧.faults result ≡ 0 }
    {
        HostSink { out, faults: 0 }
    }
}

impl<W: Write> Sink for HostSink<W> {
    ghost written = { λ _. None };

    ghost faults = { λ sink. sink.faults };

    fn write(&mut self, piece: &[u8]) -> Result<usize, Failed> {
        match self.out.write(piece) {
            Ok(n) if n > 0 || piece.is_empty() => Ok(n),
            _ => {
                self.faults = self.faults.saturating_add(1);
                Err(Failed)
            }
        }
    }
}
