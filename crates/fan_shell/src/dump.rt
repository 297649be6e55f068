// The command `dump`.
ghost use Rattle.std.specs.Prelude.{◌≡◌, ◌≤◌};
ghost use Rattle.fan_io.specs.Faults.{Rose};
ghost use Rattle.fan_shell.specs.Outcome.{Tells, TellsFront};
ghost use Rattle.fan_shell.specs.Status.{IsTold, IsToldOrCut};

use crate::command::Command;
use crate::status::Status;
use fan_dump::{CutOff, write_dump};
use fan_io::Sink;
use std::alloc::Global;

/// Writes the lines of records, up to their end, to the first place where none stands, or to a failure.
pub(crate) fn write_records<K: Sink>(alloc: Global, bytes: &[u8], sink: &mut K) -> Status
    ensures told { IsTold result
        → Tells Command.Dump (K.held sink.old) (K.held sink.new) bytes.now result }
    ensures front { TellsFront Command.Dump (K.held sink.old) (K.held sink.new) bytes.now }
    ensures fault { result ≡ Status.WriteFault → Rose (K.faults sink.old) (K.faults sink.new) }
    ensures others { IsToldOrCut Command.Dump result }
    ensures kept { K.faults sink.old ≤ K.faults sink.new }
{
    match write_dump(alloc, bytes, sink) {
        Ok(None) => Status::Ok,
        Ok(Some(_)) => Status::BadRecord,
        Err(CutOff::Failed) => Status::WriteFault,
        Err(CutOff::NoMemory) => Status::NoMemory,
    }
}
