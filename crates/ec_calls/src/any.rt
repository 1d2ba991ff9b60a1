// One type for all calls.
ghost use Rattle.std.specs.Prelude.{◌≡◌, ◌↔◌, ℕ, ◌<◌, ◌^◌, IfOk, IsTrue, List, Some, None, []};
ghost use Rattle.std.specs.declared.option.Option.{Option};
ghost use Rattle.ec_calls.specs.Any.{IsBuilt};
ghost use Rattle.ec_txn.specs.Steps.{Adds, given_of};
ghost use Rattle.ec_wire.specs.declared.answer.Answer.{Answer as AnswerOf};

use ec_attr::{BrickSet, Kind};
use ec_bank::RowTimes;
use ec_conduct::Kept;
use ec_entry::{
    GetAttrCall, LookupCall, LookupStage, MakeCall, MakeStage, ReaddirCall, ReaddirStage,
    SetAttrCall, SetAttrStage, UnlinkCall, UnlinkStage, begin_getattr, begin_lookup, begin_make,
    begin_readdir, begin_setattr, begin_unlink,
};
use ec_read::{ReadCall, ReadStage, StatCall, begin_read, begin_stat};
use ec_txn::{Call, Conduct, Ctx, Opening, Sends, Turn};
use ec_wire::{Answer, Op, Phase, Reply};
use ec_write::{TruncateCall, TruncateStage, WriteCall, WriteStage, begin_truncate, begin_write};
use std::alloc::{AllocError, Global};

/// Any call.
#[derive(Drop)]
pub enum AnyCall {
    Stat(StatCall),
    Lookup(LookupCall),
    GetAttr(GetAttrCall),
    SetAttr(SetAttrCall),
    Read(ReadCall),
    Write(WriteCall),
    /// A create or a mkdir.
    Make(MakeCall),
    Readdir(ReaddirCall),
    Unlink(UnlinkCall),
    Truncate(TruncateCall),
}

/// A stage of any call.
#[derive(Debug, Drop)]
pub enum AnyStage {
    Stat(Opening),
    Lookup(LookupStage),
    GetAttr(Opening),
    SetAttr(SetAttrStage),
    Read(ReadStage),
    Write(WriteStage),
    Make(MakeStage),
    Readdir(ReaddirStage),
    Unlink(UnlinkStage),
    Truncate(TruncateStage),
}

/// Whether calls of this kind are built.
pub fn is_built(op: &Op) -> bool
    ensures { IsTrue result ↔ IsBuilt op.now }
{
    matches!(
        op,
        Op::Stat { .. }
            | Op::Lookup { .. }
            | Op::GetAttr { .. }
            | Op::SetAttr { .. }
            | Op::Read { .. }
            | Op::Write { .. }
            | Op::Create { .. }
            | Op::Mkdir { .. }
            | Op::Readdir { .. }
            | Op::Unlink { .. }
            | Op::Truncate { .. }
    )
}

impl Conduct for AnyCall {
    ghost use Rattle.std.specs.Option.{option_map};
    ghost use Rattle.std.specs.Prelude.{◌⊎◌};
    ghost use Rattle.ec_calls.specs.Any.{Begins, Goes};
    ghost use Rattle.ec_calls.specs.declared.any.AnyCall.TheVariants.{GetAttr as GetAttrOf, Lookup as LookupOf, Make as MakeOf, Read as ReadOf, Readdir as ReaddirOf, SetAttr as SetAttrOf, Stat as StatOf, Truncate as TruncateOf, Unlink as UnlinkOf, Write as WriteOf};
    ghost use Rattle.ec_calls.specs.declared.any.AnyStage.TheVariants.{GetAttr as GetAttrAt, Lookup as LookupAt, Make as MakeAt, Read as ReadAt, Readdir as ReaddirAt, SetAttr as SetAttrAt, Stat as StatAt, Truncate as TruncateAt, Unlink as UnlinkAt, Write as WriteAt};

    type Stage = AnyStage;

    ghost begins = { λ x given step. Begins StatAt (⟦<StatCall as Conduct>⟧.begins x) given step ⊎ Begins LookupAt (⟦<LookupCall as Conduct>⟧.begins x) given step ⊎ Begins GetAttrAt (⟦<GetAttrCall as Conduct>⟧.begins x) given step ⊎ Begins SetAttrAt (⟦<SetAttrCall as Conduct>⟧.begins x) given step ⊎ Begins ReadAt (⟦<ReadCall as Conduct>⟧.begins x) given step ⊎ Begins WriteAt (⟦<WriteCall as Conduct>⟧.begins x) given step ⊎ Begins MakeAt (⟦<MakeCall as Conduct>⟧.begins x) given step ⊎ Begins ReaddirAt (⟦<ReaddirCall as Conduct>⟧.begins x) given step ⊎ Begins UnlinkAt (⟦<UnlinkCall as Conduct>⟧.begins x) given step ⊎ Begins TruncateAt (⟦<TruncateCall as Conduct>⟧.begins x) given step };

    ghost goes = { λ x stage c step. elim stage [ StatAt p ↦ Goes StatAt (⟦<StatCall as Conduct>⟧.goes x) p c step | LookupAt p ↦ Goes LookupAt (⟦<LookupCall as Conduct>⟧.goes x) p c step | GetAttrAt p ↦ Goes GetAttrAt (⟦<GetAttrCall as Conduct>⟧.goes x) p c step | SetAttrAt p ↦ Goes SetAttrAt (⟦<SetAttrCall as Conduct>⟧.goes x) p c step | ReadAt p ↦ Goes ReadAt (⟦<ReadCall as Conduct>⟧.goes x) p c step | WriteAt p ↦ Goes WriteAt (⟦<WriteCall as Conduct>⟧.goes x) p c step | MakeAt p ↦ Goes MakeAt (⟦<MakeCall as Conduct>⟧.goes x) p c step | ReaddirAt p ↦ Goes ReaddirAt (⟦<ReaddirCall as Conduct>⟧.goes x) p c step | UnlinkAt p ↦ Goes UnlinkAt (⟦<UnlinkCall as Conduct>⟧.goes x) p c step | TruncateAt p ↦ Goes TruncateAt (⟦<TruncateCall as Conduct>⟧.goes x) p c step ] };

    ghost phase_of = { λ stage. elim stage [ StatAt p ↦ ⟦<StatCall as Conduct>⟧.phase_of p | LookupAt p ↦ ⟦<LookupCall as Conduct>⟧.phase_of p | GetAttrAt p ↦ ⟦<GetAttrCall as Conduct>⟧.phase_of p | SetAttrAt p ↦ ⟦<SetAttrCall as Conduct>⟧.phase_of p | ReadAt p ↦ ⟦<ReadCall as Conduct>⟧.phase_of p | WriteAt p ↦ ⟦<WriteCall as Conduct>⟧.phase_of p | MakeAt p ↦ ⟦<MakeCall as Conduct>⟧.phase_of p | ReaddirAt p ↦ ⟦<ReaddirCall as Conduct>⟧.phase_of p | UnlinkAt p ↦ ⟦<UnlinkCall as Conduct>⟧.phase_of p | TruncateAt p ↦ ⟦<TruncateCall as Conduct>⟧.phase_of p ] };

    ghost stage = { λ call. elim call [ StatOf own ↦ option_map StatAt (⟦<StatCall as Conduct>⟧.stage own) | LookupOf own ↦ option_map LookupAt (⟦<LookupCall as Conduct>⟧.stage own) | GetAttrOf own ↦ option_map GetAttrAt (⟦<GetAttrCall as Conduct>⟧.stage own) | SetAttrOf own ↦ option_map SetAttrAt (⟦<SetAttrCall as Conduct>⟧.stage own) | ReadOf own ↦ option_map ReadAt (⟦<ReadCall as Conduct>⟧.stage own) | WriteOf own ↦ option_map WriteAt (⟦<WriteCall as Conduct>⟧.stage own) | MakeOf own ↦ option_map MakeAt (⟦<MakeCall as Conduct>⟧.stage own) | ReaddirOf own ↦ option_map ReaddirAt (⟦<ReaddirCall as Conduct>⟧.stage own) | UnlinkOf own ↦ option_map UnlinkAt (⟦<UnlinkCall as Conduct>⟧.stage own) | TruncateOf own ↦ option_map TruncateAt (⟦<TruncateCall as Conduct>⟧.stage own) ] };

    ghost stands = { λ x given call es. elim call [ StatOf own ↦ ⟦<StatCall as Conduct>⟧.stands x given own es | LookupOf own ↦ ⟦<LookupCall as Conduct>⟧.stands x given own es | GetAttrOf own ↦ ⟦<GetAttrCall as Conduct>⟧.stands x given own es | SetAttrOf own ↦ ⟦<SetAttrCall as Conduct>⟧.stands x given own es | ReadOf own ↦ ⟦<ReadCall as Conduct>⟧.stands x given own es | WriteOf own ↦ ⟦<WriteCall as Conduct>⟧.stands x given own es | MakeOf own ↦ ⟦<MakeCall as Conduct>⟧.stands x given own es | ReaddirOf own ↦ ⟦<ReaddirCall as Conduct>⟧.stands x given own es | UnlinkOf own ↦ ⟦<UnlinkCall as Conduct>⟧.stands x given own es | TruncateOf own ↦ ⟦<TruncateCall as Conduct>⟧.stands x given own es ] };
}

impl AnyCall {
    /// Begins a call. What it sends has the numbers from `next` on; the list is handed in empty.
    pub fn begin(
        alloc: Global,
        ctx: &Ctx,
        op: &Op,
        kept: Option<&Kept>,
        next: u64,
        sends: &mut Sends,
    ) -> Result<AnyCall, AllocError>
        requires next { next < 2 ^ 62 }
        requires empty { sends.old ≡ [] }
        requires nothing_kept { kept ≡ None }
        ensures adds { IfOk result (λ call. (answer : Option AnswerOf) × Adds (⟦<AnyCall as Conduct>⟧.stands ctx.now (given_of ctx.now op.now None []) call) ctx.now.geometry.n [] next sends.new answer) }
    {
        match op {
            Op::Stat { gfid } => {
                let call = begin_stat(alloc, ctx, *gfid, next, sends)?;
                Ok(AnyCall::Stat(call))
            }
            Op::Lookup { parent, name } => {
                let call = begin_lookup(alloc, ctx, *parent, name, next, sends)?;
                Ok(AnyCall::Lookup(call))
            }
            Op::GetAttr { gfid } => {
                let call = begin_getattr(alloc, ctx, *gfid, next, sends)?;
                Ok(AnyCall::GetAttr(call))
            }
            Op::SetAttr { gfid, attr } => {
                let call = begin_setattr(alloc, ctx, *gfid, *attr, next, sends)?;
                Ok(AnyCall::SetAttr(call))
            }
            Op::Read {
                gfid,
                off,
                len,
                via,
            } => {
                let call = begin_read(alloc, ctx, *gfid, *off, *len, *via, next, sends)?;
                Ok(AnyCall::Read(call))
            }
            Op::Write { gfid, off, bytes } => {
                let call = begin_write(alloc, ctx, *gfid, *off, bytes.copy()?, next, sends)?;
                Ok(AnyCall::Write(call))
            }
            Op::Create { parent, name } => {
                let call = begin_make(alloc, ctx, *parent, name, Kind::File, next, sends)?;
                Ok(AnyCall::Make(call))
            }
            Op::Mkdir { parent, name } => {
                let call = begin_make(alloc, ctx, *parent, name, Kind::Dir, next, sends)?;
                Ok(AnyCall::Make(call))
            }
            Op::Readdir { gfid } => {
                let call = begin_readdir(alloc, ctx, *gfid, next, sends)?;
                Ok(AnyCall::Readdir(call))
            }
            Op::Unlink { parent, name } => {
                let call = begin_unlink(alloc, ctx, *parent, name, next, sends)?;
                Ok(AnyCall::Unlink(call))
            }
            Op::Truncate { gfid, size } => {
                let call = begin_truncate(alloc, ctx, *gfid, *size, next, sends)?;
                Ok(AnyCall::Truncate(call))
            }
            _ => Err(AllocError),
        }
    }
}

impl<T: RowTimes> Call<T> for AnyCall {
    ghost use Rattle.std.specs.Prelude.{is_some, refl, true};
    ghost use Rattle.std.proofs.Common.{inl, inr};
    ghost use Rattle.ec_calls.specs.Any.{table_as};
    ghost use Rattle.ec_conduct.specs.Conduct.{Keeps};
    ghost use Rattle.ec_conduct.specs.Opened.{account};
    ghost use Rattle.ec_conduct.specs.Table.{IsByTable};
    ghost use Rattle.ec_txn.specs.Released.{HoldsNothing};
    ghost use Rattle.ec_calls.specs.declared.any.AnyCall.TheVariants.{GetAttr as GetAttrOf, Lookup as LookupOf, Make as MakeOf, Read as ReadOf, Readdir as ReaddirOf, SetAttr as SetAttrOf, Stat as StatOf, Truncate as TruncateOf, Unlink as UnlinkOf, Write as WriteOf};
    ghost use Rattle.ec_calls.specs.declared.any.AnyStage.TheVariants.{GetAttr as GetAttrAt, Lookup as LookupAt, Make as MakeAt, Read as ReadAt, Readdir as ReaddirAt, SetAttr as SetAttrAt, Stat as StatAt, Truncate as TruncateAt, Unlink as UnlinkAt, Write as WriteAt};

    fn phase(&self) -> Phase {
        match self {
            AnyCall::Stat(call) => <StatCall as Call<T>>::phase(call),
            AnyCall::Lookup(call) => <LookupCall as Call<T>>::phase(call),
            AnyCall::GetAttr(call) => <GetAttrCall as Call<T>>::phase(call),
            AnyCall::SetAttr(call) => <SetAttrCall as Call<T>>::phase(call),
            AnyCall::Read(call) => <ReadCall as Call<T>>::phase(call),
            AnyCall::Write(call) => <WriteCall as Call<T>>::phase(call),
            AnyCall::Make(call) => <MakeCall as Call<T>>::phase(call),
            AnyCall::Readdir(call) => <ReaddirCall as Call<T>>::phase(call),
            AnyCall::Unlink(call) => <UnlinkCall as Call<T>>::phase(call),
            AnyCall::Truncate(call) => <TruncateCall as Call<T>>::phase(call),
        }
    }

    fn waiting(&self) -> BrickSet {
        match self {
            AnyCall::Stat(call) => <StatCall as Call<T>>::waiting(call),
            AnyCall::Lookup(call) => <LookupCall as Call<T>>::waiting(call),
            AnyCall::GetAttr(call) => <GetAttrCall as Call<T>>::waiting(call),
            AnyCall::SetAttr(call) => <SetAttrCall as Call<T>>::waiting(call),
            AnyCall::Read(call) => <ReadCall as Call<T>>::waiting(call),
            AnyCall::Write(call) => <WriteCall as Call<T>>::waiting(call),
            AnyCall::Make(call) => <MakeCall as Call<T>>::waiting(call),
            AnyCall::Readdir(call) => <ReaddirCall as Call<T>>::waiting(call),
            AnyCall::Unlink(call) => <UnlinkCall as Call<T>>::waiting(call),
            AnyCall::Truncate(call) => <TruncateCall as Call<T>>::waiting(call),
        }
    }

    fn awaits(&self, brick: u8) -> Option<u64> {
        match self {
            AnyCall::Stat(call) => <StatCall as Call<T>>::awaits(call, brick),
            AnyCall::Lookup(call) => <LookupCall as Call<T>>::awaits(call, brick),
            AnyCall::GetAttr(call) => <GetAttrCall as Call<T>>::awaits(call, brick),
            AnyCall::SetAttr(call) => <SetAttrCall as Call<T>>::awaits(call, brick),
            AnyCall::Read(call) => <ReadCall as Call<T>>::awaits(call, brick),
            AnyCall::Write(call) => <WriteCall as Call<T>>::awaits(call, brick),
            AnyCall::Make(call) => <MakeCall as Call<T>>::awaits(call, brick),
            AnyCall::Readdir(call) => <ReaddirCall as Call<T>>::awaits(call, brick),
            AnyCall::Unlink(call) => <UnlinkCall as Call<T>>::awaits(call, brick),
            AnyCall::Truncate(call) => <TruncateCall as Call<T>>::awaits(call, brick),
        }
    }

    fn ready(&self) -> Result<Option<Answer>, AllocError> {
        match self {
            AnyCall::Stat(call) => <StatCall as Call<T>>::ready(call),
            AnyCall::Lookup(call) => <LookupCall as Call<T>>::ready(call),
            AnyCall::GetAttr(call) => <GetAttrCall as Call<T>>::ready(call),
            AnyCall::SetAttr(call) => <SetAttrCall as Call<T>>::ready(call),
            AnyCall::Read(call) => <ReadCall as Call<T>>::ready(call),
            AnyCall::Write(call) => <WriteCall as Call<T>>::ready(call),
            AnyCall::Make(call) => <MakeCall as Call<T>>::ready(call),
            AnyCall::Readdir(call) => <ReaddirCall as Call<T>>::ready(call),
            AnyCall::Unlink(call) => <UnlinkCall as Call<T>>::ready(call),
            AnyCall::Truncate(call) => <TruncateCall as Call<T>>::ready(call),
        }
    }

    fn hear(
        &mut self,
        rows: &T,
        next: u64,
        brick: u8,
        reply: &Reply,
        sends: &mut Sends,
    ) -> Result<Turn, AllocError> {
        match self {
            AnyCall::Stat(call) => call.hear(rows, next, brick, reply, sends),
            AnyCall::Lookup(call) => call.hear(rows, next, brick, reply, sends),
            AnyCall::GetAttr(call) => call.hear(rows, next, brick, reply, sends),
            AnyCall::SetAttr(call) => call.hear(rows, next, brick, reply, sends),
            AnyCall::Read(call) => call.hear(rows, next, brick, reply, sends),
            AnyCall::Write(call) => call.hear(rows, next, brick, reply, sends),
            AnyCall::Make(call) => call.hear(rows, next, brick, reply, sends),
            AnyCall::Readdir(call) => call.hear(rows, next, brick, reply, sends),
            AnyCall::Unlink(call) => call.hear(rows, next, brick, reply, sends),
            AnyCall::Truncate(call) => call.hear(rows, next, brick, reply, sends),
        }
    }

    fn give_up(
        &mut self,
        rows: &T,
        next: u64,
        brick: u8,
        sends: &mut Sends,
    ) -> Result<Turn, AllocError> {
        match self {
            AnyCall::Stat(call) => call.give_up(rows, next, brick, sends),
            AnyCall::Lookup(call) => call.give_up(rows, next, brick, sends),
            AnyCall::GetAttr(call) => call.give_up(rows, next, brick, sends),
            AnyCall::SetAttr(call) => call.give_up(rows, next, brick, sends),
            AnyCall::Read(call) => call.give_up(rows, next, brick, sends),
            AnyCall::Write(call) => call.give_up(rows, next, brick, sends),
            AnyCall::Make(call) => call.give_up(rows, next, brick, sends),
            AnyCall::Readdir(call) => call.give_up(rows, next, brick, sends),
            AnyCall::Unlink(call) => call.give_up(rows, next, brick, sends),
            AnyCall::Truncate(call) => call.give_up(rows, next, brick, sends),
        }
    }

    ghost keeps = { λ x given call es. elim call as (λ call. ⟦<AnyCall as Conduct>⟧.stands x given call es → Keeps given es) [ StatOf own ↦ λ s. s.keeps | LookupOf own ↦ λ s. s.keeps | GetAttrOf own ↦ λ s. s.keeps | SetAttrOf own ↦ λ s. s.keeps | ReadOf own ↦ λ s. s.keeps | WriteOf own ↦ λ s. s.keeps | MakeOf own ↦ λ s. s.keeps | ReaddirOf own ↦ λ s. s.keeps | UnlinkOf own ↦ λ s. s.keeps | TruncateOf own ↦ λ s. s.keeps ] };

    ghost by_table = { λ x given call es. elim call as (λ call. ⟦<AnyCall as Conduct>⟧.stands x given call es → IsByTable (⟦<AnyCall as Conduct>⟧.begins x) (⟦<AnyCall as Conduct>⟧.goes x) given es (⟦<AnyCall as Conduct>⟧.stage call)) [
      | StatOf own ↦ λ s. table_as StatAt (⟦<StatCall as Conduct>⟧.begins x) (⟦<StatCall as Conduct>⟧.goes x) (⟦<AnyCall as Conduct>⟧.begins x) (⟦<AnyCall as Conduct>⟧.goes x) (λ given step b. inl (step, b, refl)) (λ p c step w. (step, w, refl)) given es own.stage s.by_table
      | LookupOf own ↦ λ s. table_as LookupAt (⟦<LookupCall as Conduct>⟧.begins x) (⟦<LookupCall as Conduct>⟧.goes x) (⟦<AnyCall as Conduct>⟧.begins x) (⟦<AnyCall as Conduct>⟧.goes x) (λ given step b. inr (inl (step, b, refl))) (λ p c step w. (step, w, refl)) given es own.stage s.by_table
      | GetAttrOf own ↦ λ s. table_as GetAttrAt (⟦<GetAttrCall as Conduct>⟧.begins x) (⟦<GetAttrCall as Conduct>⟧.goes x) (⟦<AnyCall as Conduct>⟧.begins x) (⟦<AnyCall as Conduct>⟧.goes x) (λ given step b. inr (inr (inl (step, b, refl)))) (λ p c step w. (step, w, refl)) given es own.stage s.by_table
      | SetAttrOf own ↦ λ s. table_as SetAttrAt (⟦<SetAttrCall as Conduct>⟧.begins x) (⟦<SetAttrCall as Conduct>⟧.goes x) (⟦<AnyCall as Conduct>⟧.begins x) (⟦<AnyCall as Conduct>⟧.goes x) (λ given step b. inr (inr (inr (inl (step, b, refl))))) (λ p c step w. (step, w, refl)) given es own.stage s.by_table
      | ReadOf own ↦ λ s. table_as ReadAt (⟦<ReadCall as Conduct>⟧.begins x) (⟦<ReadCall as Conduct>⟧.goes x) (⟦<AnyCall as Conduct>⟧.begins x) (⟦<AnyCall as Conduct>⟧.goes x) (λ given step b. inr (inr (inr (inr (inl (step, b, refl)))))) (λ p c step w. (step, w, refl)) given es own.stage s.by_table
      | WriteOf own ↦ λ s. table_as WriteAt (⟦<WriteCall as Conduct>⟧.begins x) (⟦<WriteCall as Conduct>⟧.goes x) (⟦<AnyCall as Conduct>⟧.begins x) (⟦<AnyCall as Conduct>⟧.goes x) (λ given step b. inr (inr (inr (inr (inr (inl (step, b, refl))))))) (λ p c step w. (step, w, refl)) given es own.stage s.by_table
      | MakeOf own ↦ λ s. table_as MakeAt (⟦<MakeCall as Conduct>⟧.begins x) (⟦<MakeCall as Conduct>⟧.goes x) (⟦<AnyCall as Conduct>⟧.begins x) (⟦<AnyCall as Conduct>⟧.goes x) (λ given step b. inr (inr (inr (inr (inr (inr (inl (step, b, refl)))))))) (λ p c step w. (step, w, refl)) given es own.stage s.by_table
      | ReaddirOf own ↦ λ s. table_as ReaddirAt (⟦<ReaddirCall as Conduct>⟧.begins x) (⟦<ReaddirCall as Conduct>⟧.goes x) (⟦<AnyCall as Conduct>⟧.begins x) (⟦<AnyCall as Conduct>⟧.goes x) (λ given step b. inr (inr (inr (inr (inr (inr (inr (inl (step, b, refl))))))))) (λ p c step w. (step, w, refl)) given es own.stage s.by_table
      | UnlinkOf own ↦ λ s. table_as UnlinkAt (⟦<UnlinkCall as Conduct>⟧.begins x) (⟦<UnlinkCall as Conduct>⟧.goes x) (⟦<AnyCall as Conduct>⟧.begins x) (⟦<AnyCall as Conduct>⟧.goes x) (λ given step b. inr (inr (inr (inr (inr (inr (inr (inr (inl (step, b, refl)))))))))) (λ p c step w. (step, w, refl)) given es own.stage s.by_table
      | TruncateOf own ↦ λ s. table_as TruncateAt (⟦<TruncateCall as Conduct>⟧.begins x) (⟦<TruncateCall as Conduct>⟧.goes x) (⟦<AnyCall as Conduct>⟧.begins x) (⟦<AnyCall as Conduct>⟧.goes x) (λ given step b. inr (inr (inr (inr (inr (inr (inr (inr (inr (step, b, refl)))))))))) (λ p c step w. (step, w, refl)) given es own.stage s.by_table
    ] };

    ghost releases = { λ x given call es kept. elim call as (λ call. ⟦<AnyCall as Conduct>⟧.stands x given call es → is_some (account given es).answer ≡ true → HoldsNothing (account given es)) [ StatOf own ↦ λ s. s.released | LookupOf own ↦ λ s. s.released | GetAttrOf own ↦ λ s. s.released | SetAttrOf own ↦ λ s. s.released | ReadOf own ↦ λ s. s.released | WriteOf own ↦ λ s. s.released | MakeOf own ↦ λ s. s.released | ReaddirOf own ↦ λ s. s.released | UnlinkOf own ↦ λ s. s.released | TruncateOf own ↦ λ s. s.released ] };
}
