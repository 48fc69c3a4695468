// A depot and a sink in memory of which named calls fail.
ghost use Rattle.std.specs.Prelude.{◌≡◌, ◌≤◌, ◌<◌, ◌+◌, ◌⊎◌, ◌++◌, [], length, take, min, true, IfOk, OnErr, IsErr, is_err, if◌then◌else◌, None, Some};
ghost use Rattle.shop_port.specs.Counts.{Rose, one_more, is_listed};
ghost use Rattle.shop_port.specs.Files.{files_of, IfGot, IfAbsent, IsPieceOf, missed_after};

use crate::schedule::Schedule;
use crate::stored::read_stored;
use crate::{Depot, Failed, Fetch, Sink};
use std::alloc::Global;
use std::collections::BTreeMap;

/// Files in memory. A read gives `per_call` bytes at most. The reads with the numbers of `failing`,
/// from 1 on, fail.
#[derive(Drop)]
pub struct MemDepot {
    files: BTreeMap<String, Vec<u8>>,
    per_call: usize,
    schedule: Schedule,
    misses: u64,
    ghost some: { 0 < per_call },
}

impl MemDepot {
    ghost use Rattle.shop_port.specs.Memory.{most_per_read, failing_reads, reads_made};

    /// A depot of these files.
    pub fn new(files: BTreeMap<String, Vec<u8>>, per_call: usize, failing: Vec<u64>) -> MemDepot
        requires { 1 ≤ per_call }
        ensures held { ⟦<MemDepot as Depot>⟧.held result ≡ Some (files_of files) }
        ensures faults { ⟦<MemDepot as Depot>⟧.faults result ≡ 0 }
        ensures misses { ⟦<MemDepot as Depot>⟧.misses result ≡ 0 }
        ensures most { most_per_read result ≡ per_call }
        ensures failing { failing_reads result ≡ failing.items }
        ensures made { reads_made result ≡ 0 }
    {
        MemDepot {
            files,
            per_call,
            schedule: Schedule::new(failing),
            misses: 0,
        }
    }
}

impl Depot for MemDepot {
    ghost use Rattle.shop_port.specs.Memory.{files_in, most_per_read, failing_reads, reads_made, reads_failed, names_missed};

    ghost held = { λ depot. Some (files_in depot) };

    ghost faults = { reads_failed };

    ghost misses = { names_missed };

    fn read(&mut self, name: &str, at: u64, into: &mut [u8]) -> Result<Fetch, Failed>
        ensures range { IfOk result (λ fetch. IfGot fetch (λ n. n ≤ length into.new)) }
        ensures value { IfOk result (λ fetch. IsPieceOf (files_in self.old name.now) at into.new fetch) }
        ensures unchanged { files_in self.new ≡ files_in self.old }
        ensures absent { IfOk result (λ fetch. IfAbsent fetch (Rose (names_missed self.old) (names_missed self.new))) }
        ensures failed { OnErr result (Rose (reads_failed self.old) (reads_failed self.new)) }
        ensures misses { names_missed self.old ≤ names_missed self.new }
        ensures faults { reads_failed self.old ≤ reads_failed self.new }

        // Exactly the calls of the list fail, and each counts once.
        ensures made { reads_made self.new ≡ one_more (reads_made self.old) }
        ensures listed { is_err result ≡ is_listed (reads_made self.new) (failing_reads self.old) }
        ensures each_fault { reads_failed self.new ≡ (if is_err result then one_more (reads_failed self.old) else reads_failed self.old) }
        ensures each_miss { names_missed self.new ≡ missed_after result (names_missed self.old) }
        ensures few { IfOk result (λ fetch. IfGot fetch (λ n. n ≤ most_per_read self.old)) }
        ensures most { most_per_read self.new ≡ most_per_read self.old }
        ensures failing { failing_reads self.new ≡ failing_reads self.old }
    {
        if self.schedule.next_fails() {
            return Err(Failed);
        }
        Ok(read_stored(&self.files, self.per_call, &mut self.misses, name, at, into))
    }
}

/// Keeps what is written. A write takes `per_call` bytes at most. The writes with the numbers of
/// `failing`, from 1 on, fail, and so does one that finds no memory.
#[derive(Drop)]
pub struct MemSink {
    bytes: Vec<u8>,
    per_call: usize,
    schedule: Schedule,
    ghost some: { 0 < per_call },
}

impl MemSink {
    ghost use Rattle.shop_port.specs.Memory.{most_per_write, failing_writes, writes_made, bytes_of};

    /// A sink to which nothing was written yet, and which takes memory as it needs it.
    pub fn new(alloc: Global, per_call: usize, failing: Vec<u64>) -> MemSink
        requires { 1 ≤ per_call }
        ensures written { ⟦<MemSink as Sink>⟧.written result ≡ Some [] }
        ensures faults { ⟦<MemSink as Sink>⟧.faults result ≡ 0 }
        ensures most { most_per_write result ≡ per_call }
        ensures failing { failing_writes result ≡ failing.items }
        ensures made { writes_made result ≡ 0 }
    {
        MemSink {
            bytes: Vec::new(alloc),
            per_call,
            schedule: Schedule::new(failing),
        }
    }

    /// What was written so far.
    pub fn bytes(&self) -> &[u8]
        ensures { result.now ≡ bytes_of self.now }
    {
        &self.bytes
    }
}

impl Sink for MemSink {
    ghost use Rattle.shop_port.specs.Memory.{most_per_write, failing_writes, writes_made, writes_failed, bytes_of, capacity_of};

    ghost written = { λ sink. Some (bytes_of sink) };

    ghost faults = { writes_failed };

    fn write(&mut self, piece: &[u8]) -> Result<usize, Failed>
        ensures count { IfOk result (λ n. n ≡ min (most_per_write self.old) (length piece.now)) }
        ensures progress { IfOk result (λ n. 0 < length piece.now → 0 < n) }
        ensures value { IfOk result (λ n. bytes_of self.new ≡ bytes_of self.old ++ take n piece.now) }
        ensures unchanged { OnErr result (bytes_of self.new ≡ bytes_of self.old) }
        ensures failed { OnErr result (Rose (writes_failed self.old) (writes_failed self.new)) }
        ensures faults { writes_failed self.old ≤ writes_failed self.new }

        // The calls of the list fail, and else only one that needs memory. Each counts once.
        ensures made { writes_made self.new ≡ one_more (writes_made self.old) }
        ensures listed { is_listed (writes_made self.new) (failing_writes self.old) ≡ true → IsErr result }
        ensures refused { OnErr result ((is_listed (writes_made self.new) (failing_writes self.old) ≡ true)
            ⊎ (capacity_of self.old < length (bytes_of self.old) + min (most_per_write self.old) (length piece.now))) }
        ensures each_fault { writes_failed self.new ≡ (if is_err result then one_more (writes_failed self.old) else writes_failed self.old) }
        ensures most { most_per_write self.new ≡ most_per_write self.old }
        ensures failing { failing_writes self.new ≡ failing_writes self.old }
    {
        if self.schedule.next_fails() {
            return Err(Failed);
        }
        let n = self.per_call.min(piece.len());
        match self.bytes.extend_from_slice(&piece[..n]) {
            Ok(()) => Ok(n),
            Err(_) => {
                self.schedule.add_fault();
                Err(Failed)
            }
        }
    }
}
