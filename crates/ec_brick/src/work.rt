// What each request does once it isn't refused.
ghost use Rattle.std.specs.Prelude.{◌≡◌, ◌≤◌, ◌^◌, IfOk, IfSome, None, OnErr, OnOk, true};
ghost use Rattle.ec_brick.specs.Fit.{IsFit};
ghost use Rattle.ec_brick.specs.Index.{IndexIs};
ghost use Rattle.ec_brick.specs.Inner.{DoesWork, IsOwn, IsReady, KeepsLocks, done_of, head_after, is_reading, is_writing, subject_of};
ghost use Rattle.ec_brick.specs.State.{indexed};
ghost use Rattle.ec_brick.specs.Work.{removed_of};
ghost use Rattle.ec_index.specs.Members.{members};
ghost use Rattle.ec_store.specs.Does.{HasFaultCause, failed};
ghost use Rattle.ec_store.specs.Records.{head_at};
ghost use Rattle.ec_attr.specs.declared.config.Config.{Config};

use crate::brick::Brick;
use crate::chunks::{read_chunks, write_chunks};
use crate::heads::head_after;
use crate::put::{put, remove};
use ec_attr::{Gfid, Head};
use ec_store::{BrickStore, StoreFault};
use ec_wire::{Reply, Request};
use std::alloc::Global;

fn done(result_of_work: Result<(), StoreFault>) -> Result<Reply, StoreFault>
    ensures { result ≡ done_of result_of_work }
{
    match result_of_work {
        Ok(()) => Ok(Reply::Done),
        Err(fault) => Err(fault),
    }
}

/// Whether a request asks a record without changing it.
fn is_reading(request: &Request) -> bool
    ensures { result ≡ is_reading request.now }
{
    matches!(
        request,
        Request::Query { .. }
            | Request::ReadChunks { .. }
            | Request::NameGet { .. }
            | Request::NamesAfter { .. }
    )
}

/// Whether a request changes the content of a record and leaves its head.
fn is_writing(request: &Request) -> bool
    ensures { result ≡ is_writing request.now }
{
    matches!(
        request,
        Request::WriteChunks { .. }
            | Request::SetLength { .. }
            | Request::NameSet { .. }
            | Request::NamesPut { .. }
    )
}

/// What a record is asked for.
fn read_work<S: BrickStore>(
    alloc: Global,
    store: &mut S,
    request: &Request,
    head: &Option<Head>,
) -> Result<Reply, StoreFault>
    requires head { S.told store.old ≡ true → head.now ≡ head_at (S.records store.old) (subject_of request.now) }
    requires size { IfSome head.now (λ h. h.size ≤ 2 ^ 40) }
    requires fit { IsFit request.now }
    requires ready { IsReady request.now head.now }
    requires reading { is_reading request.now ≡ true }
    ensures same { S.told store.old ≡ true → S.records store.new ≡ S.records store.old }
    ensures own { IfOk result (λ y. IsOwn request.now y) }
    ensures does { (config : Config) → DoesWork config request.now (S.told store.old) (S.told store.new) (S.records store.old) (S.records store.new) result }
    ensures cause { HasFaultCause failed (S.faults store.old) (S.faults store.new) result }
{
    match (request, head) {
        (Request::Query { .. }, Some(h)) => Ok(Reply::Head(*h)),
        (
            Request::ReadChunks {
                gfid,
                first,
                count,
                ..
            },
            Some(_),
        ) => {
            match read_chunks(alloc, store, *gfid, *first, *count) {
                Ok(list) => Ok(Reply::Chunks(list)),
                Err(fault) => Err(fault),
            }
        }
        (Request::NameGet { gfid, name, .. }, Some(_)) => match store.name(*gfid, name) {
            Ok(child) => Ok(Reply::Child(child)),
            Err(fault) => Err(fault),
        },
        (Request::NamesAfter { gfid, after, .. }, Some(_)) => {
            match store.names_after(*gfid, after.as_ref()) {
                Ok(list) => Ok(Reply::Names(list)),
                Err(fault) => Err(fault),
            }
        }
        _ => Ok(Reply::NoInode),
    }
}

/// A change of a record's content.
fn write_work<S: BrickStore>(
    alloc: Global,
    store: &mut S,
    request: &Request,
    head: &Option<Head>,
) -> Result<Reply, StoreFault>
    requires head { S.told store.old ≡ true → head.now ≡ head_at (S.records store.old) (subject_of request.now) }
    requires fit { IsFit request.now }
    requires ready { IsReady request.now head.now }
    requires writing { is_writing request.now ≡ true }
    ensures own { IfOk result (λ y. IsOwn request.now y) }
    ensures does { (config : Config) → DoesWork config request.now (S.told store.old) (S.told store.new) (S.records store.old) (S.records store.new) result }
    ensures cause { HasFaultCause failed (S.faults store.old) (S.faults store.new) result }
{
    match (request, head) {
        (
            Request::WriteChunks {
                gfid,
                first,
                chunks,
                ..
            },
            Some(_),
        ) => { done(write_chunks(alloc, store, *gfid, *first, chunks)) }
        (
            Request::SetLength {
                gfid,
                keep,
                length,
                ..
            },
            Some(_),
        ) => { done(store.set_length(*gfid, *keep, *length)) }
        (
            Request::NameSet {
                gfid,
                name,
                child,
                ..
            },
            Some(_),
        ) => { done(store.set_name(*gfid, name, *child)) }
        (
            Request::NamesPut {
                gfid,
                after,
                upto,
                list,
                ..
            },
            Some(_),
        ) => { done(store.put_names(*gfid, after.as_ref(), upto.as_ref(), list)) }
        _ => Ok(Reply::NoInode),
    }
}

impl Brick {
    /// The work of a request that isn't refused, on the record of its subject, whose head was read. After an error the
    /// brick is as before.
    pub(crate) fn work<S: BrickStore>(
        &mut self,
        store: &mut S,
        request: &Request,
        subject: Gfid,
        head: &Option<Head>,
    ) -> Result<Reply, StoreFault>
        requires subject { subject.0 ≡ subject_of request.now }
        requires head { S.told store.old ≡ true → head.now ≡ head_at (S.records store.old) subject.0 }
        requires size { IfSome head.now (λ h. h.size ≤ 2 ^ 40) }
        requires fit { IsFit request.now }
        requires ready { IsReady request.now head.now }
        ensures kept { KeepsLocks self.old self.new }
        ensures own { IfOk result (λ y. IsOwn request.now y) }
        ensures does { DoesWork self.old.config request.now (S.told store.old) (S.told store.new) (S.records store.old) (S.records store.new) result }
        ensures removed { OnOk result (members self.new.removed ≡ removed_of request.now (members self.old.removed)) }
        ensures same_removed { OnErr result (members self.new.removed ≡ members self.old.removed) }
        ensures same_index { OnErr result (indexed self.new ≡ indexed self.old) }
        ensures index { S.told store.old ≡ true → IndexIs (indexed self.old) (S.records store.old) → IndexIs (indexed self.new) (S.records store.new) }
        ensures cause { HasFaultCause failed (S.faults store.old) (S.faults store.new) result }
    {
        if let Some(h) = head_after(&self.config, request, head) {
            return done(put(store, &mut self.index, subject, &h));
        }
        if is_reading(request) {
            return read_work(self.alloc, store, request, head);
        }
        if is_writing(request) {
            return write_work(self.alloc, store, request, head);
        }
        match request {
            Request::Unmake { child, .. } => {
                done(remove(store, &mut self.index, &mut self.removed, *child))
            }
            _ => Ok(Reply::NoInode),
        }
    }
}
