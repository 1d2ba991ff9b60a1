// A write that is cut short.
ghost use Rattle.std.specs.Prelude.{◌≡◌, ◌+◌, ◌*◌, ◌^◌, ◌≤◌, IfOk, None, OnErr, OnOk, Ok, Some, length, true};
ghost use Rattle.ec_attr.specs.declared.kind.Kind.TheVariants.{File};
ghost use Rattle.ec_brick.specs.Fit.{IsFit, IsWriteOf};
ghost use Rattle.ec_brick.specs.Index.{IndexIs};
ghost use Rattle.ec_brick.specs.Inner.{FrontIs, FrontOf};
ghost use Rattle.ec_brick.specs.Meets.{TearsOff};
ghost use Rattle.ec_brick.specs.Rows.{fence, row_of};
ghost use Rattle.ec_brick.specs.State.{IsAsBefore, asks_of, indexed, is_up, state};
ghost use Rattle.ec_brick.specs.Step.{stopped};
ghost use Rattle.ec_brick.specs.Work.{bytes_of};
ghost use Rattle.ec_brick.specs.declared.row.Check.TheVariants.{Content};
ghost use Rattle.ec_brick.specs.declared.row.Row.{Row as RowOf};
ghost use Rattle.ec_store.specs.Causes.{Rose};
ghost use Rattle.ec_store.specs.Records.{Records};
ghost use Rattle.ec_wire.specs.declared.reply.Reply.{Reply as ReplyOf};

use crate::brick::Brick;
use crate::chunks::{CHUNK, bytes_of};
use crate::guarded::version_of;
use crate::row::Row;
use crate::table::{fence, is_writers, refusal, row_of};
use ec_store::{BrickStore, StoreFault};
use ec_wire::{ChunkList, Request};
use std::alloc::AllocError;

impl Brick {
    /// Writes the first `n` bytes of chunks from chunk `first` on, where the row lets it, and gives the version that was
    /// read.
    #[tactic(auto, using(crate::proofs::Ready::content_file))]
    fn write_front<S: BrickStore>(
        &self,
        store: &mut S,
        row: &Row,
        first: u64,
        chunks: &ChunkList,
        n: usize,
    ) -> Result<Option<u64>, AllocError>
        requires check { row.now.check ≡ Content File }
        requires fit { first + length chunks.now ≤ 2 ^ 30 }
        requires part { n ≤ 512 * length chunks.now }
        ensures tells { S.told store.new ≡ S.told store.old }
        ensures step { IfOk result (λ v. S.told store.old ≡ true → FrontIs (Rose (S.faults store.old) (S.faults store.new)) (state self.now (S.records store.old)) (Some row.now) row.now.subject first (bytes_of chunks.now) n v (S.records store.new)) }
        ensures unread { result ≡ Ok None → S.told store.old ≡ true → S.records store.new ≡ S.records store.old }
        ensures fence { (y : ReplyOf) → fence (asks_of self.now) row.now ≡ Some y → (result ≡ Ok None) × (store.new ≡ store.old) }
        ensures same_records { OnErr result (S.told store.old ≡ true → S.records store.new ≡ S.records store.old) }
        ensures later { S.faults store.old ≤ S.faults store.new }
    {
        if fence(row, &self.locks).is_some() {
            return Ok(None);
        }
        let head = match store.head(row.subject) {
            Ok(head) => head,
            Err(StoreFault::Failed) => return Ok(None),
            Err(StoreFault::NoMemory) => return Err(AllocError),
        };
        let version = version_of(&head);
        let writer = is_writers(row, &self.locks);
        let gone = self.removed.has(row.subject);
        if refusal(row, writer, gone, &head).is_some() {
            return Ok(version);
        }
        let bytes = bytes_of(self.alloc, chunks)?;
        match store.write_part(row.subject, CHUNK * first, &bytes[..n]) {
            Ok(()) => Ok(version),
            Err(StoreFault::Failed) => Ok(version),
            Err(StoreFault::NoMemory) => Err(AllocError),
        }
    }

    /// The same of a request, where it is a write.
    #[tactic(auto, using(crate::proofs::Torn::write_row))]
    fn front<S: BrickStore>(
        &self,
        store: &mut S,
        request: &Request,
        n: usize,
    ) -> Result<Option<u64>, AllocError>
        requires fit { IsFit request.now }
        requires part { IsWriteOf request.now n }
        ensures tells { S.told store.new ≡ S.told store.old }
        ensures step { IfOk result (λ v. S.told store.old ≡ true → FrontOf (Rose (S.faults store.old) (S.faults store.new)) (state self.now (S.records store.old)) request.now n v (S.records store.new)) }
        ensures unread { result ≡ Ok None → S.told store.old ≡ true → S.records store.new ≡ S.records store.old }
        ensures fence { (r : RowOf) (y : ReplyOf) → row_of request.now ≡ Some r → fence (asks_of self.now) r ≡ Some y → (result ≡ Ok None) × (store.new ≡ store.old) }
        ensures same_records { OnErr result (S.told store.old ≡ true → S.records store.new ≡ S.records store.old) }
        ensures later { S.faults store.old ≤ S.faults store.new }
    {
        match (request, row_of(request)) {
            (Request::WriteChunks { first, chunks, .. }, Some(row)) => {
                self.write_front(store, &row, *first, chunks, n)
            }
            _ => Ok(None),
        }
    }

    /// Cuts a write short: its first `n` bytes are written where the grant holds and the record is a file's, and the
    /// brick stops. It gives the version that was read. Where the store fails, any front part of these bytes stands.
    /// Where there is no memory all is as before and the brick is up. `_number` is that of the request's message.
    pub fn tear<S: BrickStore>(
        &mut self,
        store: &mut S,
        _number: u64,
        request: &Request,
        n: u32,
    ) -> Result<Option<u64>, AllocError>
        requires up { is_up self.now ≡ true }
        requires fit { IsFit request.now }
        requires part { IsWriteOf request.now n }
        ensures tells { S.told store.new ≡ S.told store.old }
        ensures step { IfOk result (λ v. S.told store.old ≡ true → TearsOff (Rose (S.faults store.old) (S.faults store.new)) (state self.old (S.records store.old)) request.now n v (state self.new (S.records store.new))) }
        ensures stops { OnOk result ((m : Records) → state self.new m ≡ stopped (state self.old m)) }
        ensures unread { result ≡ Ok None → S.told store.old ≡ true → S.records store.new ≡ S.records store.old }
        ensures fence { (r : RowOf) (y : ReplyOf) → row_of request.now ≡ Some r → fence (asks_of self.old) r ≡ Some y → (result ≡ Ok None) × (store.new ≡ store.old) }
        ensures same_index { indexed self.new ≡ indexed self.old }
        ensures index { S.told store.old ≡ true → IndexIs (indexed self.old) (S.records store.old) → IndexIs (indexed self.new) (S.records store.new) }
        ensures err { OnErr result (IsAsBefore self.old self.new) }
        ensures same_records { OnErr result (S.told store.old ≡ true → S.records store.new ≡ S.records store.old) }
        ensures later { S.faults store.old ≤ S.faults store.new }
    {
        let version = self.front(store, request, n as usize)?;
        self.stop();
        Ok(version)
    }
}
