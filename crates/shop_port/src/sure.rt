// A depot and a sink in memory that never fail.
ghost use Rattle.std.specs.Prelude.{◌≡◌, ◌≤◌, ◌<◌, [], length, take, min, option_map, IfOk, IsOk, None, Some, vec_capacity};
ghost use Rattle.shop_port.specs.Counts.{Rose};
ghost use Rattle.shop_port.specs.Files.{files_of, IfGot, IfAbsent, IsPieceOf};
ghost use Rattle.shop_port.specs.Output.{IsKnownWithin};

use crate::stored::read_stored;
use crate::{Depot, Failed, Fetch, Sink};
use std::alloc::{AllocError, Global};
use std::collections::BTreeMap;

/// Files in memory. A read gives `per_call` bytes at most, and never fails.
#[derive(Drop)]
pub struct SureDepot {
    files: BTreeMap<String, Vec<u8>>,
    per_call: usize,
    misses: u64,
    ghost some: { 0 < per_call },
}

impl SureDepot {
    ghost use Rattle.shop_port.specs.Sure.{per_read};

    /// A depot of these files.
    pub fn new(files: BTreeMap<String, Vec<u8>>, per_call: usize) -> SureDepot
        requires { 1 ≤ per_call }
        ensures held { ⟦<SureDepot as Depot>⟧.held result ≡ Some (files_of files) }
        ensures misses { ⟦<SureDepot as Depot>⟧.misses result ≡ 0 }
        ensures per_read { per_read result ≡ per_call }
    {
        SureDepot {
            files,
            per_call,
            misses: 0,
        }
    }
}

impl Depot for SureDepot {
    ghost use Rattle.shop_port.specs.Sure.{per_read, files_within, absences};

    ghost held = { λ depot. Some (files_within depot) };

    ghost faults = { λ _. 0 };

    ghost misses = { absences };

    fn read(&mut self, name: &str, at: u64, into: &mut [u8]) -> Result<Fetch, Failed>
        ensures sure { IsOk result }
        ensures range { IfOk result (λ fetch. IfGot fetch (λ n. n ≤ length into.new)) }
        ensures value { IfOk result (λ fetch. IsPieceOf (files_within self.old name.now) at into.new fetch) }
        ensures unchanged { files_within self.new ≡ files_within self.old }
        ensures absent { IfOk result (λ fetch. IfAbsent fetch (Rose (absences self.old) (absences self.new))) }
        ensures misses { absences self.old ≤ absences self.new }

        // What it gives in one call.
        ensures few { IfOk result (λ fetch. IfGot fetch (λ n. n ≤ per_read self.old)) }
        ensures per_read { per_read self.new ≡ per_read self.old }
    {
        Ok(read_stored(&self.files, self.per_call, &mut self.misses, name, at, into))
    }
}

/// Keeps what is written, in memory that it takes when it is made. A write takes `per_call` bytes,
/// or all where there are fewer, and never fails. Bytes past the room are accepted and lost: from
/// then on what was written isn't known.
#[derive(Drop)]
pub struct SureSink {
    bytes: Vec<u8>,
    room: usize,
    per_call: usize,
    is_known: bool,
    ghost some: { 0 < per_call },
    ghost within: { length bytes.items ≤ room },
    ghost fits: { room ≤ vec_capacity bytes },
}

impl SureSink {
    ghost use Rattle.shop_port.specs.Sure.{per_write, room_of, written_to};

    /// A sink of which it is known what was written, up to `room` bytes.
    pub fn new(alloc: Global, room: usize, per_call: usize) -> Result<SureSink, AllocError>
        requires { 1 ≤ per_call }
        ensures written { IfOk result (λ sink. ⟦<SureSink as Sink>⟧.written sink ≡ Some []) }
        ensures room { IfOk result (λ sink. room_of sink ≡ room) }
        ensures per_write { IfOk result (λ sink. per_write sink ≡ per_call) }
    {
        Ok(SureSink {
            bytes: Vec::with_capacity(alloc, room)?,
            room,
            per_call,
            is_known: true,
        })
    }

    /// What was written so far, or None where that went past the room.
    pub fn bytes(&self) -> Option<&[u8]>
        ensures { option_map (λ bytes. bytes.now) result ≡ written_to self.now }
    {
        if self.is_known {
            Some(&self.bytes)
        } else {
            None
        }
    }
}

impl Sink for SureSink {
    ghost use Rattle.shop_port.specs.Sure.{per_write, room_of, written_to};

    ghost written = { written_to };

    ghost faults = { λ _. 0 };

    fn write(&mut self, piece: &[u8]) -> Result<usize, Failed>
        ensures count { result ≡ Ok (min (per_write self.old) (length piece.now)) }
        ensures progress { IfOk result (λ n. 0 < length piece.now → 0 < n) }

        // What was written is known as long as it fits in the room.
        ensures value { IfOk result (λ n. IsKnownWithin (room_of self.old) (written_to self.old) (written_to self.new) (take n piece.now)) }
        ensures room { room_of self.new ≡ room_of self.old }
        ensures per_write { per_write self.new ≡ per_write self.old }
    {
        let n = self.per_call.min(piece.len());
        if self.is_known && n <= self.room - self.bytes.len() {
            self.is_known = self.bytes.extend_from_slice(&piece[..n]).is_ok();
        } else {
            self.is_known = false;
        }
        Ok(n)
    }
}
