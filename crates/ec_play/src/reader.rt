// The lines of a source, in whatever pieces it gives its bytes.
ghost use Rattle.std.specs.Prelude.{◌≡◌, ◌<◌, ◌≤◌, ℕ, ◌+◌, [], length, drop, is_some, IfOk, OnOk, OnErr, IsErrOf, MatchBool, IsTrue, ◌↔◌, vec_len, nat_eq};
ghost use Rattle.std.specs.List.{position_or_len};
ghost use Rattle.std.specs.Io.KnownBytes.{Consumes, IsAtEnd, Keeps, prepend_known};
ghost use Rattle.ec_play.specs.Lines.{HasLine, HasNoLine, TakesLine, BeginsLong};
ghost use Rattle.ec_play.specs.Taken.{TakesAtMost};
ghost use Rattle.ec_store.specs.Causes.{Rose};
ghost use Rattle.ec_play.specs.declared.reader.ReadError.TheVariants.{ReadFault, NoMemory};

use crate::split::place_of;
use ec_store::{Failed, Source};
use std::alloc::AllocError;
use std::marker::Model;

/// The most bytes of a line, its carriage return counted and its newline not.
pub const LONGEST: usize = 2_200_000;

/// The most lines of a script.
pub const MOST_LINES: u64 = 1 << 20;

/// How many bytes are asked of the source at a time.
const BUFFER: usize = 4096;

/// Why a line was not read.
#[derive(Clone, Copy, Debug, PartialEq, Eq)]
pub enum ReadError {
    /// The line has more than `LONGEST` bytes.
    TooLong,
    /// The source failed.
    ReadFault,
    NoMemory,
}

/// The bytes that a source gave and that are not yet taken.
#[derive(Drop)]
pub struct LineReader {
    bytes: [u8; BUFFER],
    start: usize,
    end: usize,
}

impl Model for LineReader {
    ghost use Rattle.std.specs.Prelude.{List, ℕ, take, drop, ◌-◌, ◌≤◌};

    ghost Value = { List ℕ };

    ghost view = { λ r. take (r.end - r.start) (drop r.start r.bytes) };

    ghost invariant = { λ r. (r.start ≤ r.end) × (r.end ≤ 4096) };
}

impl LineReader {
    /// A reader that has asked its source for nothing yet.
    pub fn new() -> LineReader
        ensures { result ≡ [] }
    {
        LineReader {
            bytes: [0; BUFFER],
            start: 0,
            end: 0,
        }
    }

    /// The bytes that are held.
    fn held(&self) -> &[u8]
        ensures { result.now ≡ self.now }
    {
        &self.bytes[self.start..self.end]
    }

    /// Lets go of the first bytes.
    fn take(&mut self, count: usize)
        requires { count ≤ length self.old }
        ensures { self.new ≡ drop count self.old }
    {
        self.start += count;
    }

    /// Asks the source for bytes, and answers whether it gave any.
    fn fill<S: Source>(&mut self, source: &mut S) -> Result<bool, Failed>
        requires empty { self.old ≡ [] }
        ensures bytes { OnOk result (Consumes (S.left source.old) (S.left source.new) self.new) }
        ensures more { IfOk result (λ more. MatchBool more (0 < length self.new) ((self.new ≡ []) × IsAtEnd (S.left source.new))) }
        ensures same { OnErr result ((self.new ≡ []) × Keeps (S.left source.old) (S.left source.new)) }
        ensures room { length self.new ≤ BUFFER }
        ensures told { is_some (S.left source.new) ≡ is_some (S.left source.old) }
        ensures later { S.faults source.old ≤ S.faults source.new }
        ensures cause { OnErr result (Rose (S.faults source.old) (S.faults source.new)) }
    {
        let count = source.read(&mut self.bytes)?;
        self.start = 0;
        self.end = count;
        Ok(count > 0)
    }

    /// Whether a byte is left to take.
    pub fn has_more<S: Source>(&mut self, source: &mut S) -> Result<bool, Failed>
        ensures line { IfOk result (λ more. MatchBool more (HasLine (prepend_known self.old (S.left source.old))) (HasNoLine (prepend_known self.old (S.left source.old)))) }
        ensures read { TakesAtMost BUFFER (prepend_known self.old (S.left source.old)) (S.left source.new) }
        ensures told { is_some (S.left source.new) ≡ is_some (S.left source.old) }
        ensures later { S.faults source.old ≤ S.faults source.new }
        ensures cause { OnErr result (Rose (S.faults source.old) (S.faults source.new)) }
    {
        self.refill(source)
    }

    /// Whether a byte is held, where need be after asking the source.
    fn refill<S: Source>(&mut self, source: &mut S) -> Result<bool, Failed>
        ensures same { OnOk result (Consumes (prepend_known self.old (S.left source.old)) (prepend_known self.new (S.left source.new)) []) }
        ensures more { IfOk result (λ more. MatchBool more (0 < length self.new) (IsAtEnd (prepend_known self.new (S.left source.new)))) }
        ensures read { TakesAtMost BUFFER (prepend_known self.old (S.left source.old)) (S.left source.new) }
        ensures told { is_some (S.left source.new) ≡ is_some (S.left source.old) }
        ensures later { S.faults source.old ≤ S.faults source.new }
        ensures cause { OnErr result (Rose (S.faults source.old) (S.faults source.new)) }
    {
        if self.is_empty() {
            self.fill(source)
        } else {
            Ok(true)
        }
    }

    /// Takes the next line into `line`, without its newline, and answers whether there was one. After an error no
    /// line can be taken any more. Past what it looks at, the source may have given a part of `BUFFER` bytes.
    pub fn next_line<S: Source>(
        &mut self,
        source: &mut S,
        line: &mut Vec<u8>,
    ) -> Result<bool, ReadError>
        ensures line { IfOk result (λ more. MatchBool more
            (TakesLine (prepend_known self.old (S.left source.old)) (prepend_known self.new (S.left source.new)) line.new.items)
            (HasNoLine (prepend_known self.old (S.left source.old)))) }
        ensures short { OnOk result (vec_len line.new ≤ LONGEST) }
        ensures taken { OnOk result (TakesAtMost (LONGEST + 1) (prepend_known self.old (S.left source.old)) (prepend_known self.new (S.left source.new))) }
        ensures read { TakesAtMost (LONGEST + BUFFER) (prepend_known self.old (S.left source.old)) (S.left source.new) }
        ensures long { IsErrOf result ReadError.TooLong → BeginsLong LONGEST (prepend_known self.old (S.left source.old)) }
        ensures told { is_some (S.left source.new) ≡ is_some (S.left source.old) }
        ensures later { S.faults source.old ≤ S.faults source.new }
        ensures cause { IsErrOf result ReadError.ReadFault → Rose (S.faults source.old) (S.faults source.new) }
    {
        line.clear();
        // Each turn but the last takes a byte of the line at least.
        'bytes: for _ in 0..LONGEST + 2 {
            if !self.refill(source)? {
                return Ok(!line.is_empty());
            }
            let held = self.held();
            let count = place_of(held, b'\n');
            let ended = count < held.len();
            if count > LONGEST - line.len() {
                return Err(ReadError::TooLong);
            }
            line.extend_from_slice(&held[..count])?;
            if ended {
                self.take(count + 1);
                return Ok(true);
            }
            self.take(count);
        }
        unreachable!()
    }

    /// Whether no byte is held.
    fn is_empty(&self) -> bool
        ensures none { IsTrue result ↔ (self.now ≡ []) }
        ensures room { length self.now ≤ BUFFER }
    {
        self.start == self.end
    }
}

impl From<Failed> for ReadError {
    ghost from_gives = { λ _ e. e ≡ ReadFault };

    fn from(_e: Failed) -> ReadError {
        ReadError::ReadFault
    }
}

impl From<AllocError> for ReadError {
    ghost from_gives = { λ _ e. e ≡ NoMemory };

    fn from(_e: AllocError) -> ReadError {
        ReadError::NoMemory
    }
}
