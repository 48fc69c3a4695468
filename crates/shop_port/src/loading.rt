// Loads a whole file, up to a cap, or reads it piece by piece.
ghost use Rattle.std.specs.Prelude.{◌≡◌, ◌≤◌, ◌<◌, ◌+◌, List, [], ℕ, length, IfOk, IfSome, OnOk, IsErrOf};
ghost use Rattle.shop_port.specs.Counts.{Rose};
ghost use Rattle.shop_port.specs.Loading.{file_within, IsExpected, IsExpectedOrMemory, IsFront, IsNextPiece};
ghost use Rattle.shop_port.specs.declared.loading.LoadFault.TheVariants.{Absent, Memory, ReadFault, TooLong};

use crate::{Depot, Fetch};
use std::alloc::{AllocError, Global};

/// The most bytes that one read asks for.
const PIECE: usize = 65_536;

/// Why a file wasn't loaded.
#[derive(Clone, Copy, Debug, PartialEq, Eq)]
pub enum LoadFault {
    /// There is no file of that name.
    Absent,
    /// A read failed.
    ReadFault,
    /// The file has more bytes than the cap.
    TooLong,
    /// Memory ran out.
    Memory,
}

impl From<AllocError> for LoadFault {
    ghost from_gives = { λ _ fault. fault ≡ Memory };

    fn from(_: AllocError) -> Self {
        LoadFault::Memory
    }
}

/// Loads the whole file of a name, which may have up to `cap` bytes. Of a longer file it reads one
/// byte more than the cap at most.
pub fn load<D: Depot>(
    alloc: Global,
    depot: &mut D,
    name: &str,
    cap: u64,
) -> Result<Vec<u8>, LoadFault>
    ensures value { IfSome (D.held depot.old) (λ files. IsExpected (λ v. v.items) (file_within cap (files name.now)) result) }
    ensures complete { IfSome (D.held depot.old) (λ files. (Rose (D.faults depot.old) (D.faults depot.new) → ⊥)
        → IsExpectedOrMemory (λ v. v.items) (file_within cap (files name.now)) result) }
    ensures capped { IfOk result (λ v. length v.items ≤ cap) }
    ensures unchanged { D.held depot.new ≡ D.held depot.old }
    ensures absent { IsErrOf result Absent → Rose (D.misses depot.old) (D.misses depot.new) }
    ensures failed { IsErrOf result ReadFault → Rose (D.faults depot.old) (D.faults depot.new) }
    ensures misses { D.misses depot.old ≤ D.misses depot.new }
    ensures faults { D.faults depot.old ≤ D.faults depot.new }
{
    let mut piece = zeros(alloc)?;
    let mut bytes = Vec::new(alloc);
    read_to_end(depot, name, cap, &mut piece, &mut bytes)?;
    Ok(bytes)
}

/// A buffer for one read.
fn zeros(alloc: Global) -> Result<Vec<u8>, AllocError>
    ensures { IfOk result (λ v. length v.items ≡ PIECE) }
{
    vec![in alloc; 0; PIECE]
}

/// Reads piece after piece behind the bytes, until the file ends or has more than the cap.
fn read_to_end<D: Depot>(
    depot: &mut D,
    name: &str,
    cap: u64,
    piece: &mut [u8],
    bytes: &mut Vec<u8>,
) -> Result<(), LoadFault>
    requires room { 0 < length piece.old }
    requires empty { bytes.old.items ≡ [] }
    ensures value { IfSome (D.held depot.old) (λ files. IsExpected (λ _. bytes.new.items) (file_within cap (files name.now)) result) }
    ensures capped { OnOk result (length bytes.new.items ≤ cap) }
    ensures unchanged { D.held depot.new ≡ D.held depot.old }
    ensures absent { IsErrOf result Absent → Rose (D.misses depot.old) (D.misses depot.new) }
    ensures failed { IsErrOf result ReadFault → Rose (D.faults depot.old) (D.faults depot.new) }
    ensures misses { D.misses depot.old ≤ D.misses depot.new }
    ensures faults { D.faults depot.old ≤ D.faults depot.new }
{
    'pieces: loop {
        let n = next_piece(depot, name, cap, bytes.len() as u64, piece)?;
        if n == 0 {
            return Ok(());
        }
        bytes.extend_from_slice(&piece[..n])?;
    }
}

/// Reads the next piece of the file of this name, of which `at` bytes came before, to the front of the buffer, and says how many
/// bytes it has: 0 at the end of the file. It asks for one byte more than the cap at most, and refuses a file that has so many. It
/// takes no memory.
pub fn next_piece<D: Depot>(
    depot: &mut D,
    name: &str,
    cap: u64,
    at: u64,
    piece: &mut [u8],
) -> Result<usize, LoadFault>
    requires room { 0 < length piece.old }
    requires under { at ≤ cap }
    ensures value { IfSome (D.held depot.old) (λ files. (bytes : List ℕ) → at ≡ length bytes → IsFront (files name.now) bytes
        → IsNextPiece cap (files name.now) bytes piece.new result) }
    ensures range { IfOk result (λ n. n ≤ length piece.new) }
    ensures capped { IfOk result (λ n. at + n ≤ cap) }
    ensures no_memory { IsErrOf result Memory → ⊥ }
    ensures unchanged { D.held depot.new ≡ D.held depot.old }
    ensures absent { IsErrOf result Absent → Rose (D.misses depot.old) (D.misses depot.new) }
    ensures failed { IsErrOf result ReadFault → Rose (D.faults depot.old) (D.faults depot.new) }
    ensures misses { D.misses depot.old ≤ D.misses depot.new }
    ensures faults { D.faults depot.old ≤ D.faults depot.new }
{
    let left = cap - at;
    let wanted = wanted(left, piece.len());
    match depot.read(name, at, &mut piece[..wanted]) {
        Ok(Fetch::Got(n)) if n as u64 > left => Err(LoadFault::TooLong),
        Ok(Fetch::Got(n)) => Ok(n),
        Ok(Fetch::Absent) => Err(LoadFault::Absent),
        Err(_) => Err(LoadFault::ReadFault),
    }
}

/// How many bytes to ask for, where `left` more may come: one more than that, as far as there is room.
fn wanted(left: u64, room: usize) -> usize
    requires { 0 < room }
    ensures range { result ≤ room }
    ensures some { 0 < result }
    ensures one_more { result ≤ left + 1 }
{
    if left < room as u64 {
        left as usize + 1
    } else {
        room
    }
}
