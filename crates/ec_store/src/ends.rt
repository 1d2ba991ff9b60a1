// Sources and sinks of bytes.
ghost use Rattle.std.specs.Prelude.{◌≡◌, List, ℕ, is_some};
ghost use Rattle.std.specs.declared.option.Option.{Option};
ghost use Rattle.std.specs.Io.{ReadsAtMost, WritesAtMost};
ghost use Rattle.std.specs.Io.KnownBytes.{ReadConsumes, WriteAppends};
ghost use Rattle.ec_store.specs.Causes.{HasCause, HasWriteCause};

/// A read that failed; the source counted it.
#[derive(Clone, Copy, Debug, PartialEq, Eq)]
pub struct Failed;

/// Why a write was not made; it has taken nothing.
#[derive(Clone, Copy, Debug, PartialEq, Eq)]
pub enum SinkFault {
    /// The sink failed and counted it.
    Failed,
    /// The sink found no memory.
    NoMemory,
}

/// A source of bytes. Whether it tells what is left stays as it is through each call.
pub trait Source {
    /// The bytes that are left, where the source tells.
    ghost left: { Self → Option (List ℕ) };

    /// How often a read has failed, up to 2^64 - 1.
    ghost faults: { Self → ℕ };

    /// Puts bytes at the front of `buf` and answers how many; 0 for a buffer that isn't empty is the end.
    fn read(&mut self, buf: &mut [u8]) -> Result<usize, Failed>
        ensures bound { ReadsAtMost result buf.new }
        ensures bytes { ReadConsumes (left self.old) (left self.new) result buf.new }
        ensures told { is_some (left self.new) ≡ is_some (left self.old) }
        ensures cause { HasCause (faults self.old) (faults self.new) result };
}

/// A sink of bytes. Whether it tells what was written stays as it is through each call.
pub trait Sink {
    /// The bytes that were written, where the sink tells.
    ghost written: { Self → Option (List ℕ) };

    /// How often a write has failed or taken nothing of bytes, up to 2^64 - 1.
    ghost faults: { Self → ℕ };

    /// Takes bytes from the front of `bytes` and answers how many; 0 of bytes that aren't empty is a fault.
    fn write(&mut self, bytes: &[u8]) -> Result<usize, SinkFault>
        ensures bound { WritesAtMost result bytes.now }
        ensures bytes { WriteAppends (written self.old) (written self.new) result bytes.now }
        ensures told { is_some (written self.new) ≡ is_some (written self.old) }
        ensures cause { HasWriteCause (faults self.old) (faults self.new) bytes.now result };
}
