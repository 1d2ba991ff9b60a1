// A sink in memory, which fails at one write and takes nothing at another.
ghost use Rattle.std.specs.Prelude.{◌≡◌, ◌↔◌, ◌<◌, ℕ, true, ◌||◌, ◌&&◌, nat_lt, is_some, Some, [], length, IfOk, IsErrOf, if◌then◌else◌};
ghost use Rattle.std.specs.Io.{WritesAtMost};
ghost use Rattle.std.specs.Io.KnownBytes.{WriteAppends};
ghost use Rattle.ec_store.specs.Causes.{HasWriteCause};
ghost use Rattle.ec_store.specs.Calls.{is_call, next_count};
ghost use Rattle.ec_store.specs.declared.ends.SinkFault.TheVariants.{Failed};

use crate::calls::{is_call, next_count};
use crate::ends::{Sink, SinkFault};
use ec_attr::Blob;
use std::alloc::Global;
use std::marker::Model;

/// Keeps what is written, all of it at a write.
#[derive(Drop)]
pub struct MemSink {
    bytes: Blob,
    fail: Option<u64>,
    stuck: Option<u64>,
    writes: u64,
    faults: u64,
}

impl Model for MemSink {
    ghost use Rattle.ec_store.specs.Ends.{SinkState};

    ghost Value = { SinkState };

    ghost view = { λ s. record { bytes = s.bytes; fail = s.fail; stuck = s.stuck; writes = s.writes; faults = s.faults } };
}

impl MemSink {
    /// A sink that fails at the write number `fail`, counted from 1, and takes 0 bytes at the write number `stuck`.
    /// Where both name one write it fails. Writes of no bytes count too.
    pub fn new(alloc: Global, fail: Option<u64>, stuck: Option<u64>) -> MemSink
        ensures bytes { result.bytes ≡ [] }
        ensures fail { result.fail ≡ fail }
        ensures stuck { result.stuck ≡ stuck }
        ensures writes { result.writes ≡ 0 }
        ensures faults { result.faults ≡ 0 }
    {
        MemSink {
            bytes: Blob::new(alloc),
            fail,
            stuck,
            writes: 0,
            faults: 0,
        }
    }

    /// The bytes that were written.
    pub fn bytes(&self) -> &[u8]
        ensures { result.now ≡ self.now.bytes }
    {
        self.bytes.items()
    }

    /// How many writes there were, up to 2^64 - 1.
    pub fn writes(&self) -> u64
        ensures { result ≡ self.now.writes }
    {
        self.writes
    }

    /// How many of them failed or took nothing of bytes.
    pub fn faults(&self) -> u64
        ensures { result ≡ self.now.faults }
    {
        self.faults
    }
}

impl Sink for MemSink {
    ghost written = { λ s. Some s.bytes };

    ghost faults = { λ s. s.faults };

    fn write(&mut self, bytes: &[u8]) -> Result<usize, SinkFault>
        ensures bound { WritesAtMost result bytes.now }
        ensures bytes { WriteAppends (Some self.old.bytes) (Some self.new.bytes) result bytes.now }
        ensures told { is_some (Some self.new.bytes) ≡ is_some (Some self.old.bytes) }
        ensures cause { HasWriteCause self.old.faults self.new.faults bytes.now result }
        // It fails and takes nothing exactly at the writes that it was made to, and else takes all.
        ensures fails { IsErrOf result Failed ↔ (is_call self.old.fail self.old.writes ≡ true) }
        ensures count { IfOk result (λ n. n ≡ (if is_call self.old.stuck self.old.writes then 0 else length bytes.now)) }
        ensures writes { self.new.writes ≡ next_count self.old.writes }
        ensures faults { self.new.faults ≡ (if is_call self.old.fail self.old.writes || (is_call self.old.stuck self.old.writes && nat_lt 0 (length bytes.now)) then next_count self.old.faults else self.old.faults) }
        ensures fail { self.new.fail ≡ self.old.fail }
        ensures stuck { self.new.stuck ≡ self.old.stuck }
    {
        let fails = is_call(self.fail, self.writes);
        let is_stuck = is_call(self.stuck, self.writes);
        self.writes = next_count(self.writes);
        if fails {
            self.faults = next_count(self.faults);
            return Err(SinkFault::Failed);
        }
        if is_stuck {
            if bytes.len() > 0 {
                self.faults = next_count(self.faults);
            }
            return Ok(0);
        }
        match self.bytes.extend(bytes) {
            Ok(()) => Ok(bytes.len()),
            Err(_) => Err(SinkFault::NoMemory),
        }
    }
}
