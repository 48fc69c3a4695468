// Sends a whole text to a sink.
ghost use Rattle.std.specs.Prelude.{◌≤◌, OnOk, OnErr};
ghost use Rattle.shop_port.specs.Counts.{Rose};
ghost use Rattle.shop_port.specs.Output.{Appended, AppendedPart};

use crate::{Failed, Sink};

/// The sink failed before it had taken all bytes.
#[derive(Clone, Copy, Debug, PartialEq, Eq)]
pub struct WriteFault;

/// Writes all the bytes in turn. Where a write fails, what was written is a part from the front.
pub fn send<S: Sink>(sink: &mut S, bytes: &[u8]) -> Result<(), WriteFault>
    ensures sent { OnOk result (Appended (S.written sink.old) (S.written sink.new) bytes.now) }
    ensures cut_short { OnErr result (AppendedPart (S.written sink.old) (S.written sink.new) bytes.now) }
    ensures failed { OnErr result (Rose (S.faults sink.old) (S.faults sink.new)) }
    ensures faults { S.faults sink.old ≤ S.faults sink.new }
{
    let mut sent = 0;
    while sent < bytes.len() {
        match sink.write(&bytes[sent..]) {
            Ok(n) => sent += n,
            Err(Failed) => return Err(WriteFault),
        }
    }
    Ok(())
}
