// Text that is written whole.
ghost use Rattle.std.specs.Prelude.{◌≡◌, ◌≤◌, is_some, OnOk, OnErr, IsErrOf};
ghost use Rattle.std.specs.Io.KnownBytes.{Appends};
ghost use Rattle.ec_store.specs.Causes.{Begins, Rose};

use ec_store::{Sink, SinkFault};

/// Why a text was not written whole.
#[derive(Clone, Copy, Debug, PartialEq, Eq)]
pub enum WriteError {
    /// The sink failed, or took nothing.
    WriteFault,
    /// The sink found no memory.
    NoMemory,
}

/// Writes all of `bytes`, in as many writes as the sink wants. After an error a front part of them is written.
pub fn write_all<O: Sink>(out: &mut O, bytes: &[u8]) -> Result<(), WriteError>
    ensures all { OnOk result (Appends (O.written out.old) (O.written out.new) bytes.now) }
    ensures part { OnErr result (Begins (O.written out.old) (O.written out.new) bytes.now) }
    ensures told { is_some (O.written out.new) ≡ is_some (O.written out.old) }
    ensures later { O.faults out.old ≤ O.faults out.new }
    ensures cause { IsErrOf result WriteError.WriteFault → Rose (O.faults out.old) (O.faults out.new) }
{
    let mut rest = bytes;
    while !rest.is_empty() {
        match out.write(rest) {
            Ok(0) | Err(SinkFault::Failed) => return Err(WriteError::WriteFault),
            Ok(count) => rest = &rest[count..],
            Err(SinkFault::NoMemory) => return Err(WriteError::NoMemory),
        }
    }
    Ok(())
}
