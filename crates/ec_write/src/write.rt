// A write of a file.
ghost use Rattle.std.specs.Prelude.{◌≡◌, ◌<◌, ◌≤◌, ◌^◌, ◌-◌, ◌&&◌, ℕ, IfOk, Ok, [], length, vec_len, cond, is_some, nat_lt};
ghost use Rattle.std.specs.declared.option.Option.{Option};
ghost use Rattle.std.specs.declared.option.Option.TheVariants.{None};
ghost use Rattle.ec_conduct.specs.Account.{Account};
ghost use Rattle.ec_conduct.specs.Given.{bricks_of};
ghost use Rattle.ec_txn.specs.declared.ballot.Ballot.TheVariants.{Post as PostOf};
ghost use Rattle.ec_txn.specs.Ballot.{IfQuorum, is_within, serving_by, under, version_at};
ghost use Rattle.ec_txn.specs.declared.stage.Next.TheVariants.{Go};
ghost use Rattle.ec_wire.specs.declared.phase.Phase.TheVariants.{Write as WritePhase};
ghost use Rattle.ec_txn.specs.Digest.{Shows, place_at};
ghost use Rattle.ec_txn.specs.Next.{next_as};
ghost use Rattle.ec_txn.specs.Opening.{OpeningFollows};
ghost use Rattle.ec_txn.specs.Replies.{reply_at};
ghost use Rattle.ec_txn.specs.Rounds.{subject};
ghost use Rattle.ec_txn.specs.Steps.{Adds, given_of};
ghost use Rattle.ec_txn.specs.Tables.{IsOf, Sees};
ghost use Rattle.ec_wire.specs.declared.op.Op.{Op as OpOf};
ghost use Rattle.ec_wire.specs.declared.op.Op.TheVariants.{Write as WriteOp};
ghost use Rattle.ec_write.specs.Stripes.{list_at as list_of};
ghost use Rattle.ec_write.specs.Write.{GoesOn, Prepares, ReadEnds, WriteFollows, WriteJudges, asks_of, is_short, judged, new_size, read_asks, write_asks, write_request};
ghost use Rattle.ec_write.specs.Range.{first_stripe as first_stripe_of};
ghost use Rattle.ec_write.specs.declared.stage.WriteStage.TheVariants.{Opens, Votes, Writes};

use crate::code::coded;
use crate::members::{chunk_asked, chunks_sent, reading_of};
use crate::old::{count_gave, old_stripe};
use crate::place::{first_read, first_stripe, second_read, told_end};
use crate::rows::PlainRows;
use crate::stage::WriteStage;
use ec_answers::{Group, Grouped};
use ec_attr::{Blob, Gfid, Kind, LockKind};
use ec_bank::RowTimes;
use ec_field::Chunk;
use ec_txn::{
    Ballot, Conduct, Ctx, Known, Next, Opening, Plan, Reading, Round, Sends, Work, after_lock,
    come_to, count_serving, is_within,
};
use ec_wire::{Answer, ChunkList, ItemList, Phase, Request};
use std::alloc::{AllocError, Global};

/// The bytes that one write takes at most, and where a file ends at most.
const MOST: usize = 1 << 20;

const END: u64 = 1 << 40;

/// What a write keeps: the file, from which byte on it writes, and its bytes.
#[derive(Drop)]
pub struct Write {
    gfid: Gfid,
    off: u64,
    bytes: Blob,
}

/// A write: an exclusive lock at each brick, the Queries, the PreOps, the stripes that it covers in part at K bricks, the
/// new chunks at each brick that did all so far, the PostOps and the Clears.
pub type WriteCall = Round<Write>;

fn opens(next: Next<Opening>) -> Next<WriteStage>
    ensures { result ≡ next_as Opens next }
{
    match next {
        Next::Go(stage) => Next::Go(WriteStage::Opens(stage)),
        Next::Say(answer) => Next::Say(answer),
    }
}

impl Write {
    /// What follows the Queries.
    fn judge(&self, grouped: &Grouped) -> Next<WriteStage>
        ensures { (c : Account) → c.given.op ≡ WriteOp self.now.gfid self.now.off self.now.bytes → WriteJudges c grouped.now result }
    {
        match grouped {
            Grouped::Group(group) => self.of_group(group),
            Grouped::Gone(_) => Next::Say(Answer::NoSuch),
            Grouped::Fewer(most) => Next::Say(Answer::NoQuorum {
                phase: Phase::Query,
                most: *most,
            }),
        }
    }

    fn of_group(&self, group: &Group) -> Next<WriteStage>
        ensures { result ≡ judged group.now.head.kind (WriteOp self.now.gfid self.now.off self.now.bytes) group.now }
    {
        match group.head.kind {
            Kind::Dir => Next::Say(Answer::IsDir),
            Kind::File => {
                if self.bytes.len() == 0 {
                    return Next::Say(Answer::Size(group.head.size));
                }
                if is_within(&group.head) {
                    Next::Go(WriteStage::Votes(Ballot::Pre { group: *group }))
                } else {
                    Next::Say(Answer::Limit(group.head.version.content))
                }
            }
        }
    }

    /// What follows a stage of the opening.
    fn after_opening(&self, ctx: &Ctx, known: &Known, stage: &Opening) -> Next<WriteStage>
        requires { vec_len known.now.places ≡ ctx.now.geometry.n }
        ensures { (c : Account) → c.given.op ≡ WriteOp self.now.gfid self.now.off self.now.bytes → IsOf ctx.now c.given → Shows (subject c.given.op) (bricks_of c.given) known.now c → OpeningFollows Opens WriteJudges stage.now c result }
    {
        match stage {
            Opening::Lock { at } => opens(after_lock(ctx, known, *at)),
            Opening::Query => self.judge(&come_to(known, &ctx.geometry)),
        }
    }

    /// A stripe is read, or the new ones are coded where none is left to be read.
    fn go_on<T: RowTimes>(
        &self,
        ctx: &Ctx,
        rows: &T,
        alloc: Global,
        group: &Group,
        front: ChunkList,
        back: &[Chunk],
        stripe: Option<u64>,
    ) -> Result<Next<WriteStage>, AllocError>
        ensures { IfOk result (λ next. GoesOn ctx.now ctx.now.geometry (WriteOp self.now.gfid self.now.off self.now.bytes) group.now front back.now stripe next) }
    {
        match stripe {
            Some(stripe) => Ok(Next::Go(WriteStage::Reads {
                group: *group,
                reading: reading_of(ctx, self.gfid, group, stripe),
                front,
            })),
            None => {
                let lists = coded(
                    rows,
                    alloc,
                    &ctx.geometry,
                    self.off,
                    self.bytes.items(),
                    group.head.size,
                    front.items(),
                    back,
                )?;
                Ok(Next::Go(WriteStage::Writes {
                    group: *group,
                    lists,
                }))
            }
        }
    }

    /// What follows a stage that reads.
    fn after_read<T: RowTimes>(
        &self,
        ctx: &Ctx,
        known: &Known,
        rows: &T,
        group: &Group,
        reading: &Reading,
        front: &ChunkList,
    ) -> Result<Next<WriteStage>, AllocError>
        ensures { IfOk result (λ next. ReadEnds ctx.now ctx.now.geometry (WriteOp self.now.gfid self.now.off self.now.bytes) group.now reading.now front.now (place_at known.now.places.items) (reply_at known.now.replies.items.items) next) }
    {
        let k = ctx.geometry.k();
        let alloc = *known.places.allocator();
        let most = count_gave(reading, known);
        if most < k {
            return Ok(Next::Say(Answer::NoQuorum {
                phase: Phase::Read,
                most,
            }));
        }
        let stripe = old_stripe(rows, alloc, &ctx.geometry, reading, known)?;
        if reading.first == first_stripe(k, self.off) {
            let next = second_read(k, self.off, self.bytes.len(), group.head.size);
            self.go_on(ctx, rows, alloc, group, stripe, &[], next)
        } else {
            self.go_on(ctx, rows, alloc, group, front.copy()?, stripe.items(), None)
        }
    }

    /// What follows a stage of the ballot.
    fn after_ballot<T: RowTimes>(
        &self,
        ctx: &Ctx,
        known: &Known,
        rows: &T,
        stage: &Ballot,
    ) -> Result<Next<WriteStage>, AllocError>
        ensures { IfOk result (λ next. (c : Account) → c.given.op ≡ WriteOp self.now.gfid self.now.off self.now.bytes → IsOf ctx.now c.given → Shows (subject c.given.op) (bricks_of c.given) known.now c → WriteFollows ctx.now (Votes stage.now) c next) }
    {
        match stage {
            Ballot::Pre { group } => {
                let most = count_serving(ctx, known, group);
                if most < ctx.geometry.k() {
                    return Ok(Next::Say(Answer::NoQuorum {
                        phase: Phase::Pre,
                        most,
                    }));
                }
                self.after_pre(ctx, known, rows, group)
            }
            Ballot::Post { group } => Ok(self.after_post(ctx, known, group)),
            Ballot::Clear { group } => Ok(Next::Say(Answer::Size(self.new_size(group)))),
        }
    }

    fn after_pre<T: RowTimes>(
        &self,
        ctx: &Ctx,
        known: &Known,
        rows: &T,
        group: &Group,
    ) -> Result<Next<WriteStage>, AllocError>
        ensures { IfOk result (λ next. (c : Account) → c.given.op ≡ WriteOp self.now.gfid self.now.off self.now.bytes → IsOf ctx.now c.given → Prepares ctx.now group.now c next) }
    {
        let alloc = *known.places.allocator();
        let next = first_read(
            ctx.geometry.k(),
            self.off,
            self.bytes.len(),
            group.head.size,
        );
        self.go_on(ctx, rows, alloc, group, ChunkList::new(alloc), &[], next)
    }

    /// The size of the file after the write.
    fn new_size(&self, group: &Group) -> u64
        ensures { result ≡ new_size (WriteOp self.now.gfid self.now.off self.now.bytes) group.now.head.size }
    {
        group.head.size.max(told_end(self.off, self.bytes.len()))
    }

    fn after_post(&self, ctx: &Ctx, known: &Known, group: &Group) -> Next<WriteStage>
        ensures { (c : Account) → c.given.op ≡ WriteOp self.now.gfid self.now.off self.now.bytes → IsOf ctx.now c.given → Shows (subject c.given.op) (bricks_of c.given) known.now c → WriteFollows ctx.now (Votes (PostOf group.now)) c result }
    {
        let most = count_serving(ctx, known, group);
        if most < ctx.geometry.k() {
            return Next::Say(Answer::NoQuorum {
                phase: Phase::Post,
                most,
            });
        }
        if ctx.geometry.n <= most {
            Next::Go(WriteStage::Votes(Ballot::Clear { group: *group }))
        } else {
            Next::Say(Answer::Size(self.new_size(group)))
        }
    }
}

impl Write {
    /// What a stage that reads asks of a brick.
    fn read(
        &self,
        ctx: &Ctx,
        reading: &Reading,
        known: &Known,
        brick: u8,
    ) -> Result<Option<Request>, AllocError>
        requires { brick < 31 }
        ensures { IfOk result (λ request. (c : Account) → c.given.op ≡ WriteOp self.now.gfid self.now.off self.now.bytes → IsOf ctx.now c.given → Shows (subject c.given.op) (bricks_of c.given) known.now c → request ≡ read_asks reading.now c brick) }
    {
        Ok(chunk_asked(ctx, self.gfid, reading, known, brick))
    }

    /// Whether the range ends at byte 2^40 at most.
    fn is_short(&self) -> bool
        ensures { result ≡ is_short (WriteOp self.now.gfid self.now.off self.now.bytes) }
    {
        self.off <= END && self.bytes.len() as u64 <= END - self.off
    }

    /// What a stage of the ballot asks of a brick.
    fn vote(&self, ctx: &Ctx, stage: &Ballot, known: &Known, brick: u8) -> Option<Request>
        requires { brick < 31 }
        ensures { (c : Account) → c.given.op ≡ WriteOp self.now.gfid self.now.off self.now.bytes → IsOf ctx.now c.given → Shows (subject c.given.op) (bricks_of c.given) known.now c → result ≡ asks_of (Votes stage.now) c brick }
    {
        if !self.is_short() {
            return None;
        }
        let size = self.new_size(stage.group());
        stage.request(ctx, self.gfid, size, None, known, brick)
    }
}

impl Write {
    fn write_by(
        &self,
        ctx: &Ctx,
        group: &Group,
        lists: &ItemList<ChunkList>,
        known: &Known,
        brick: u8,
    ) -> Result<Option<Request>, AllocError>
        requires { brick < 31 }
        ensures { IfOk result (λ request. request ≡ cond (is_within group.now.head && nat_lt brick ctx.now.geometry.n)
            (under (serving_by (place_at known.now.places.items brick)) (version_at group.now brick) (write_request self.now.gfid.0 (first_stripe_of (ctx.now.geometry.n - ctx.now.geometry.r) self.now.off) (list_of lists.now brick))) None) }
    {
        let first = first_stripe(ctx.geometry.k(), self.off);
        chunks_sent(ctx, self.gfid, first, group, lists, known, brick)
    }

    /// The chunks of a brick that did all so far.
    fn write(
        &self,
        ctx: &Ctx,
        group: &Group,
        lists: &ItemList<ChunkList>,
        known: &Known,
        brick: u8,
    ) -> Result<Option<Request>, AllocError>
        requires { brick < 31 }
        ensures { IfOk result (λ request. (c : Account) → c.given.op ≡ WriteOp self.now.gfid self.now.off self.now.bytes → IsOf ctx.now c.given → Shows (subject c.given.op) (bricks_of c.given) known.now c → request ≡ write_asks group.now lists.now c brick) }
    {
        self.write_by(ctx, group, lists, known, brick)
    }

    /// What follows the stage that writes.
    fn after_write(&self, ctx: &Ctx, known: &Known, group: &Group) -> Next<WriteStage>
        ensures { (c : Account) → IsOf ctx.now c.given → Shows (subject c.given.op) (bricks_of c.given) known.now c → IfQuorum c group.now WritePhase (λ next. next ≡ Go (Votes (PostOf group.now))) result }
    {
        let most = count_serving(ctx, known, group);
        if most < ctx.geometry.k() {
            return Next::Say(Answer::NoQuorum {
                phase: Phase::Write,
                most,
            });
        }
        Next::Go(WriteStage::Votes(Ballot::Post { group: *group }))
    }
}

impl Plan for Write {
    ghost use Rattle.ec_write.specs.During.{DuringWrite};
    ghost use Rattle.ec_write.specs.Write.{write_phase, write_table};

    type Stage = WriteStage;

    ghost table = { write_table };

    ghost during = { DuringWrite };

    ghost phase_of = { write_phase };

    ghost fits = { λ write given. given.op ≡ WriteOp write.gfid write.off write.bytes };
}

impl<T: RowTimes> Work<T> for Write {
    ghost use Rattle.ec_write.specs.WriteSound.{write_sound};

    fn gfid(&self) -> Gfid {
        self.gfid
    }

    fn phase(stage: &WriteStage) -> Phase {
        match stage {
            WriteStage::Opens(stage) => stage.phase(),
            WriteStage::Votes(stage) => stage.phase(),
            WriteStage::Reads { .. } => Phase::Read,
            WriteStage::Writes { .. } => Phase::Write,
        }
    }

    fn asks_again(ctx: &Ctx, stage: &WriteStage) -> bool {
        matches!(stage, WriteStage::Reads { .. })
    }

    fn start(&self, ctx: &Ctx) -> Next<WriteStage> {
        if self.bytes.len() > MOST {
            Next::Say(Answer::TooLong(self.bytes.len() as u64))
        } else if self.is_short() {
            Next::Go(WriteStage::Opens(Opening::Lock { at: 0 }))
        } else {
            Next::Say(Answer::TooBig(told_end(self.off, self.bytes.len())))
        }
    }

    fn request(
        &self,
        ctx: &Ctx,
        stage: &WriteStage,
        known: &Known,
        brick: u8,
    ) -> Result<Option<Request>, AllocError> {
        match stage {
            WriteStage::Opens(stage) => {
                Ok(stage.request(ctx, self.gfid, LockKind::Exclusive, known, brick))
            }
            WriteStage::Votes(stage) => Ok(self.vote(ctx, stage, known, brick)),
            WriteStage::Reads { reading, .. } => self.read(ctx, reading, known, brick),
            WriteStage::Writes { group, lists } => self.write(ctx, group, lists, known, brick),
        }
    }

    fn next(
        &self,
        ctx: &Ctx,
        stage: &WriteStage,
        known: &Known,
        rows: &T,
    ) -> Result<Next<WriteStage>, AllocError> {
        match stage {
            WriteStage::Opens(stage) => Ok(self.after_opening(ctx, known, stage)),
            WriteStage::Votes(stage) => self.after_ballot(ctx, known, rows, stage),
            WriteStage::Reads {
                group,
                reading,
                front,
            } => self.after_read(ctx, known, rows, group, reading, front),
            WriteStage::Writes { group, .. } => Ok(self.after_write(ctx, known, group)),
        }
    }

    ghost sound = { write_sound };
}

/// Begins a write of these bytes from byte `off` on. What it sends has the numbers from `next` on; the list is handed in
/// empty.
pub fn begin_write(
    alloc: Global,
    ctx: &Ctx,
    gfid: Gfid,
    off: u64,
    bytes: Blob,
    next: u64,
    sends: &mut Sends,
) -> Result<WriteCall, AllocError>
    requires next { next < 2 ^ 62 }
    requires empty { sends.old ≡ [] }
    ensures adds { IfOk result (λ call. Adds (⟦<WriteCall as Conduct>⟧.stands ctx.now (given_of ctx.now (WriteOp gfid off bytes) None []) call) ctx.now.geometry.n [] next sends.new call.answer) }
{
    WriteCall::begin::<PlainRows>(alloc, ctx, Write { gfid, off, bytes }, next, sends)
}
