// A source in memory, which fails at one read.
ghost use Rattle.std.specs.Prelude.{◌≡◌, ◌↔◌, ℕ, ◌-◌, ◌≤◌, min, true, is_some, Some, List, length, drop, take, ◌++◌, IfOk, IsErr, if◌then◌else◌};
ghost use Rattle.std.specs.Io.{ReadsAtMost};
ghost use Rattle.std.specs.Io.KnownBytes.{ReadConsumes};
ghost use Rattle.ec_store.specs.Causes.{HasCause};
ghost use Rattle.ec_store.specs.Calls.{is_call, next_count};

use crate::calls::{is_call, next_count};
use crate::ends::{Failed, Source};
use ec_attr::Blob;
use std::marker::Model;

/// Bytes in memory, given as many at a read as the buffer holds.
#[derive(Drop)]
pub struct MemSource {
    bytes: Blob,
    start: usize,
    fail: Option<u64>,
    reads: u64,
    faults: u64,
}

impl Model for MemSource {
    ghost use Rattle.std.specs.Prelude.{length, drop, ◌≤◌};
    ghost use Rattle.ec_store.specs.Ends.{SourceState};

    ghost Value = { SourceState };

    ghost view = { λ s. record { rest = drop s.start s.bytes; fail = s.fail; reads = s.reads; faults = s.faults } };

    ghost invariant = { λ s. s.start ≤ length s.bytes };
}

impl MemSource {
    /// A source of these bytes that fails at the read of that number, counted from 1, and at no other. Reads into an
    /// empty buffer count too.
    pub fn new(bytes: Blob, fail: Option<u64>) -> MemSource
        ensures rest { result.rest ≡ bytes }
        ensures fail { result.fail ≡ fail }
        ensures reads { result.reads ≡ 0 }
        ensures faults { result.faults ≡ 0 }
    {
        MemSource {
            bytes,
            start: 0,
            fail,
            reads: 0,
            faults: 0,
        }
    }

    /// The bytes that are left.
    pub fn rest(&self) -> &[u8]
        ensures { result.now ≡ self.now.rest }
    {
        &self.bytes.items()[self.start..]
    }

    /// How many reads there were, up to 2^64 - 1.
    pub fn reads(&self) -> u64
        ensures { result ≡ self.now.reads }
    {
        self.reads
    }

    /// How many of them failed.
    pub fn faults(&self) -> u64
        ensures { result ≡ self.now.faults }
    {
        self.faults
    }
}

/// Copies the front of `from` into `to`, as much as it holds, and gives how many bytes.
fn copy_front(from: &[u8], to: &mut [u8]) -> usize
    ensures count { result ≡ min (length to.old) (length from.now) }
    ensures size { length to.new ≡ length to.old }
    ensures copied { from.now ≡ take result to.new ++ drop result from.now }
{
    let count = from.len().min(to.len());
    to[..count].copy_from_slice(&from[..count]);
    count
}

impl Source for MemSource {
    ghost left = { λ s. Some s.rest };

    ghost faults = { λ s. s.faults };

    fn read(&mut self, buf: &mut [u8]) -> Result<usize, Failed>
        ensures bound { ReadsAtMost result buf.new }
        ensures bytes { ReadConsumes (Some self.old.rest) (Some self.new.rest) result buf.new }
        ensures told { is_some (Some self.new.rest) ≡ is_some (Some self.old.rest) }
        ensures cause { HasCause self.old.faults self.new.faults result }
        // It fails exactly at the read that it was made to fail at, and else gives what the buffer holds.
        ensures fails { IsErr result ↔ (is_call self.old.fail self.old.reads ≡ true) }
        ensures count { IfOk result (λ n. n ≡ min (length buf.old) (length self.old.rest)) }
        ensures reads { self.new.reads ≡ next_count self.old.reads }
        ensures faults { self.new.faults ≡ (if is_call self.old.fail self.old.reads then next_count self.old.faults else self.old.faults) }
        ensures fail { self.new.fail ≡ self.old.fail }
    {
        let fails = is_call(self.fail, self.reads);
        self.reads = next_count(self.reads);
        if fails {
            self.faults = next_count(self.faults);
            return Err(Failed);
        }
        let count = copy_front(&self.bytes.items()[self.start..], buf);
        self.start += count;
        Ok(count)
    }
}
