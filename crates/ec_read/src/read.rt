// The bytes of a file.
ghost use Rattle.std.specs.Prelude.{◌≡◌, ◌&&◌, ℕ, ◌-◌, ◌<◌, ◌^◌, IfOk, [], vec_len};
ghost use Rattle.std.specs.declared.option.Option.TheVariants.{None};
ghost use Rattle.ec_attr.specs.Bricks.{is_in};
ghost use Rattle.ec_conduct.specs.Account.{Account};
ghost use Rattle.ec_conduct.specs.Given.{bricks_of};
ghost use Rattle.ec_read.specs.Range.{end_of, reading_by as reading_at};
ghost use Rattle.ec_read.specs.Read.{EndsBy, Judges, OfFile, ReadFollows, first_of, is_named, read_phase};
ghost use Rattle.ec_read.specs.declared.read.ReadStage.TheVariants.{Opens as OpensOf};
ghost use Rattle.ec_txn.specs.Digest.{Shows, place_at};
ghost use Rattle.ec_txn.specs.Next.{next_as};
ghost use Rattle.ec_txn.specs.Replies.{reply_at};
ghost use Rattle.ec_txn.specs.Rounds.{subject};
ghost use Rattle.ec_txn.specs.Steps.{Adds, given_of};
ghost use Rattle.ec_txn.specs.Tables.{IsOf};
ghost use Rattle.ec_wire.specs.declared.op.Op.TheVariants.{Read as ReadOp};

use crate::decoded::{decode_bytes, givers};
use crate::range::{end_of, reading_by};
use crate::rows::PlainRows;
use ec_answers::{Group, Grouped};
use ec_attr::{Blob, BrickSet, Gfid, Kind, LockKind};
use ec_bank::RowTimes;
use ec_txn::{
    Conduct, Ctx, Known, Next, Opening, Plan, Reading, Round, Sends, Work, after_lock, come_to,
};
use ec_wire::{Answer, Phase, Request};
use std::alloc::{AllocError, Global};

/// The bytes that one read gives at most.
const MOST: u64 = 1 << 20;

/// What a read keeps: the file, from which byte on and how many are read, and the bricks that may be read, where they
/// are named.
#[derive(Drop)]
pub struct Read {
    gfid: Gfid,
    off: u64,
    len: u64,
    via: Option<BrickSet>,
}

/// The stages of a read: the opening, then the chunks of K bricks of `among`, where the group's file has this size.
#[derive(Clone, Copy, Debug)]
pub enum ReadStage {
    Opens(Opening),
    Reads { among: BrickSet, size: u64 },
}

/// A read: a shared lock at each brick, the Queries, the chunks of the range's stripes at K bricks of the good group, and
/// the bytes that they decode to.
pub type ReadCall = Round<Read>;

/// The bricks of the group that may be read.
fn named(group: &BrickSet, via: &Option<BrickSet>) -> BrickSet
    ensures { (x : ℕ) → x < 31 → is_in result x ≡ (is_in group.now x && is_named via.now x) }
{
    let Some(via) = via else {
        return *group;
    };
    let mut bricks = BrickSet::empty();
    for brick in 0..31u8 {
        if group.has(brick) && via.has(brick) {
            bricks = bricks.plus(brick);
        }
    }
    bricks
}

fn opens(next: Next<Opening>) -> Next<ReadStage>
    ensures { result ≡ next_as OpensOf next }
{
    match next {
        Next::Go(opening) => Next::Go(ReadStage::Opens(opening)),
        Next::Say(answer) => Next::Say(answer),
    }
}

impl Read {
    /// What follows the Queries, where there is a good group of a file.
    fn of_file(&self, alloc: Global, group: &Group) -> Next<ReadStage>
        ensures { OfFile (ReadOp self.now.gfid self.now.off self.now.len self.now.via) group.now result }
    {
        if end_of(self.off, self.len, group.head.size) <= self.off {
            return Next::Say(Answer::Bytes(Blob::new(alloc)));
        }
        let among = named(&group.bricks, &self.via);
        if among.len() == 0 {
            return Next::Say(Answer::NoQuorum {
                phase: Phase::Read,
                most: 0,
            });
        }
        Next::Go(ReadStage::Reads {
            among,
            size: group.head.size,
        })
    }

    /// What follows the Queries.
    fn after_query(&self, alloc: Global, grouped: &Grouped) -> Next<ReadStage>
        ensures { Judges (ReadOp self.now.gfid self.now.off self.now.len self.now.via) grouped.now result }
    {
        match grouped {
            Grouped::Group(group) => match group.head.kind {
                Kind::File => self.of_file(alloc, group),
                Kind::Dir => Next::Say(Answer::IsDir),
            },
            Grouped::Gone(_) => Next::Say(Answer::NoSuch),
            Grouped::Fewer(most) => Next::Say(Answer::NoQuorum {
                phase: Phase::Query,
                most: *most,
            }),
        }
    }

    /// What follows a stage of the opening.
    fn after_opening(&self, ctx: &Ctx, opening: &Opening, known: &Known) -> Next<ReadStage>
        requires { vec_len known.now.places ≡ ctx.now.geometry.n }
        ensures { (c : Account) → c.given.op ≡ ReadOp self.now.gfid self.now.off self.now.len self.now.via → IsOf ctx.now c.given → Shows (subject c.given.op) (bricks_of c.given) known.now c → ReadFollows ctx.now (OpensOf opening.now) c result }
    {
        match opening {
            Opening::Lock { at } => opens(after_lock(ctx, known, *at)),
            Opening::Query => {
                self.after_query(*known.places.allocator(), &come_to(known, &ctx.geometry))
            }
        }
    }

    /// What is read of the bricks `among` of a file of this size.
    fn reading(&self, ctx: &Ctx, among: &BrickSet, size: u64) -> Reading
        ensures value { result ≡ reading_at ctx.now self.now.gfid.0 (ctx.now.geometry.n - ctx.now.geometry.r) self.now.off self.now.len among.now size }
        ensures start { result.start < 31 }
    {
        reading_by(ctx, self.gfid, self.off, self.len, among, size)
    }

    /// What comes of the chunks, once nobody is waited for.
    fn after_reading<T: RowTimes>(
        &self,
        ctx: &Ctx,
        among: &BrickSet,
        size: u64,
        known: &Known,
        rows: &T,
    ) -> Result<Next<ReadStage>, AllocError>
        ensures { IfOk result (λ next. EndsBy (ctx.now.geometry.n - ctx.now.geometry.r) ctx.now.geometry.algorithm (reading_at ctx.now self.now.gfid.0 (ctx.now.geometry.n - ctx.now.geometry.r) self.now.off self.now.len among.now size)
            (place_at known.now.places.items) (reply_at known.now.replies.items.items) self.now.off (end_of self.now.off self.now.len size) next) }
    {
        let reading = reading_by(ctx, self.gfid, self.off, self.len, among, size);
        let most = reading.count_done(known);
        if most < ctx.geometry.k() {
            return Ok(Next::Say(Answer::NoQuorum {
                phase: Phase::Read,
                most,
            }));
        }
        let which = givers(&reading, known, ctx.geometry.k());
        let end = end_of(self.off, self.len, size);
        let bytes = decode_bytes(
            rows,
            *known.places.allocator(),
            &ctx.geometry,
            known,
            &which,
            &reading,
            self.off,
            end,
        )?;
        Ok(Next::Say(Answer::Bytes(bytes)))
    }
}

impl Plan for Read {
    ghost use Rattle.ec_read.specs.Read.{DuringRead, read_table};

    type Stage = ReadStage;

    ghost table = { read_table };

    ghost during = { DuringRead };

    ghost phase_of = { read_phase };

    ghost fits = { λ read given. given.op ≡ ReadOp read.gfid read.off read.len read.via };
}

impl<T: RowTimes> Work<T> for Read {
    ghost use Rattle.ec_read.specs.ReadSound.{read_sound};

    fn gfid(&self) -> Gfid {
        self.gfid
    }

    fn phase(stage: &ReadStage) -> Phase {
        match stage {
            ReadStage::Opens(opening) => opening.phase(),
            ReadStage::Reads { .. } => Phase::Read,
        }
    }

    fn asks_again(ctx: &Ctx, stage: &ReadStage) -> bool {
        matches!(stage, ReadStage::Reads { .. })
    }

    fn start(&self, ctx: &Ctx) -> Next<ReadStage> {
        if self.len > MOST {
            Next::Say(Answer::TooLong(self.len))
        } else {
            Next::Go(ReadStage::Opens(Opening::Lock { at: 0 }))
        }
    }

    fn request(
        &self,
        ctx: &Ctx,
        stage: &ReadStage,
        known: &Known,
        brick: u8,
    ) -> Result<Option<Request>, AllocError> {
        Ok(match stage {
            ReadStage::Opens(opening) => {
                opening.request(ctx, self.gfid, LockKind::Shared, known, brick)
            }
            ReadStage::Reads { among, size } => {
                self.reading(ctx, among, *size)
                    .request(ctx, self.gfid, known, brick)
            }
        })
    }

    fn next(
        &self,
        ctx: &Ctx,
        stage: &ReadStage,
        known: &Known,
        rows: &T,
    ) -> Result<Next<ReadStage>, AllocError> {
        match stage {
            ReadStage::Opens(opening) => Ok(self.after_opening(ctx, opening, known)),
            ReadStage::Reads { among, size } => self.after_reading(ctx, among, *size, known, rows),
        }
    }

    ghost sound = { read_sound };
}

/// Begins a read of `len` bytes from byte `off` on, of the bricks of `via` alone where it is given. What it sends has the
/// numbers from `next` on; the list is handed in empty.
pub fn begin_read(
    alloc: Global,
    ctx: &Ctx,
    gfid: Gfid,
    off: u64,
    len: u64,
    via: Option<BrickSet>,
    next: u64,
    sends: &mut Sends,
) -> Result<ReadCall, AllocError>
    requires next { next < 2 ^ 62 }
    requires empty { sends.old ≡ [] }
    ensures adds { IfOk result (λ call. Adds (⟦<ReadCall as Conduct>⟧.stands ctx.now (given_of ctx.now (ReadOp gfid off len via) None []) call) ctx.now.geometry.n [] next sends.new call.answer) }
{
    let read = Read {
        gfid,
        off,
        len,
        via,
    };
    ReadCall::begin::<PlainRows>(alloc, ctx, read, next, sends)
}
