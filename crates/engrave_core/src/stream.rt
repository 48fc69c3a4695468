// The verdict on a stored G-code program that is read piece by piece, without memory.
ghost use Rattle.std.specs.Prelude.{◌≡◌, ◌≤◌, length, IfOk, IfSome, IsErrOf};
ghost use Rattle.engrave_model.specs.Drawing.{edges_of};
ghost use Rattle.shop_port.specs.Counts.{Rose};
ghost use Rattle.shop_port.specs.Loading.{file_within};
ghost use Rattle.engrave_core.specs.Judging.{IsJudgedTo};
ghost use Rattle.engrave_core.specs.Streamed.{AreRead, IsStreamed};

use crate::judged::Judged;
use depth_rule::Scene;
use gcode_text::{CodeFault, MOST_CODE_BYTES};
use gouge_checker::Verdict;
use grid_num::Units;
use plane_exact::Bit;
use shop_port::{Depot, LoadFault, next_piece};

/// Why there is no verdict on a stored program.
#[derive(Clone, Copy, Debug, PartialEq, Eq)]
pub enum StreamFault {
    /// There is no file of that name.
    Absent,
    /// A read failed.
    ReadFault,
    /// The file has more than 536,870,912 bytes.
    TooLong,
    /// The text isn't a program of the profile.
    Code(CodeFault),
}

impl From<CodeFault> for StreamFault {
    ghost use Rattle.engrave_core.specs.declared.stream.StreamFault.TheVariants.{Code};

    ghost from_gives = { λ fault given. given ≡ Code fault };

    fn from(fault: CodeFault) -> StreamFault {
        StreamFault::Code(fault)
    }
}

/// The verdict on the G-code program in the file of this name, and how many moves it has; or the first that keeps from it: the file,
/// and then its code. The file is always read to its end, so a failing read, or a file that is too long, is answered also where a
/// fault of the code, the program's end or a move that isn't clear came before. It takes no memory: the buffer holds a piece at a
/// time.
pub fn check_stream<D: Depot>(
    scene: &Scene,
    bit: &Bit,
    units: Units,
    depot: &mut D,
    name: &str,
    buffer: &mut [u8],
) -> Result<(Verdict, u32), StreamFault>
    requires { 1 ≤ length buffer.old }
    ensures value { IfSome (D.held depot.old) (λ files. IsStreamed (edges_of scene.now) bit.now units (files name.now) result) }
    ensures unchanged { D.held depot.new ≡ D.held depot.old }
    ensures absent { IsErrOf result StreamFault.Absent → Rose (D.misses depot.old) (D.misses depot.new) }
    ensures failed { IsErrOf result StreamFault.ReadFault → Rose (D.faults depot.old) (D.faults depot.new) }
    ensures misses { D.misses depot.old ≤ D.misses depot.new }
    ensures faults { D.faults depot.old ≤ D.faults depot.new }
{
    match judge_pieces(scene, bit, units, depot, name, buffer) {
        Ok(judged) => Ok(judged.end(scene, bit)?),
        Err(LoadFault::Absent) => Err(StreamFault::Absent),
        Err(LoadFault::ReadFault) => Err(StreamFault::ReadFault),
        Err(LoadFault::TooLong) => Err(StreamFault::TooLong),
        Err(LoadFault::Memory) => unreachable!(),
    }
}

/// Judges piece after piece of the file, to its end.
fn judge_pieces<D: Depot>(
    scene: &Scene,
    bit: &Bit,
    units: Units,
    depot: &mut D,
    name: &str,
    buffer: &mut [u8],
) -> Result<Judged, LoadFault>
    requires { 1 ≤ length buffer.old }
    ensures value { IfSome (D.held depot.old) (λ files. AreRead
        (λ judged bytes. IsJudgedTo (edges_of scene.now) bit.now bytes judged.stepper judged.verdict judged.count)
        (file_within MOST_CODE_BYTES (files name.now)) result) }
    ensures units { IfOk result (λ judged. judged.stepper.units ≡ units) }
    ensures no_memory { IsErrOf result LoadFault.Memory → ⊥ }
    ensures unchanged { D.held depot.new ≡ D.held depot.old }
    ensures absent { IsErrOf result LoadFault.Absent → Rose (D.misses depot.old) (D.misses depot.new) }
    ensures failed { IsErrOf result LoadFault.ReadFault → Rose (D.faults depot.old) (D.faults depot.new) }
    ensures misses { D.misses depot.old ≤ D.misses depot.new }
    ensures faults { D.faults depot.old ≤ D.faults depot.new }
{
    let mut judged = Judged::new(units);
    let mut at = 0;
    'pieces: loop {
        let len = next_piece(depot, name, u64::from(MOST_CODE_BYTES), at, buffer)?;
        if len == 0 {
            return Ok(judged);
        }
        judged.take_all(scene, bit, &buffer[..len]);
        at += len as u64;
    }
}
