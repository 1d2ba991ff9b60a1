// A write in flight is cut short.
ghost use Rattle.std.specs.Prelude.{◌≡◌, ◌≤◌, ◌<◌, true, false, is_some, length, map, IfOk, IfSome, OnErr, OnOk};
ghost use Rattle.std.specs.List.{list_all};
ghost use Rattle.ec_brick.specs.Fit.{IsFit, IsWriteOf};
ghost use Rattle.ec_cluster.specs.Sound.{IsSound};
ghost use Rattle.ec_cluster.specs.Steps.{Breaks};
ghost use Rattle.ec_cluster.specs.Tears.{Tears, TearsBrick, bytes_at};
ghost use Rattle.ec_cluster.specs.Views.{can_execute, is_up_at, log_of, size_of};

use crate::cluster::Cluster;
use ec_brick::{bytes_in, known_laws};
use ec_store::BrickStore;
use ec_wire::{Body, Entry, Message, Request};
use std::alloc::AllocError;

impl Cluster {
    /// How many bytes the WriteChunks in flight of that number has. None where the message in flight is none, or none is
    /// in flight.
    pub fn bytes_in(&self, no: u64) -> Option<u64>
        requires { IsSound self.now }
        ensures { result ≡ bytes_at self.now no }
    {
        match self.wire.get(no) {
            Some(message) => match &message.body {
                Body::ToBrick(request) => bytes_in(request),
                Body::ToClient { .. } => None,
            },
            None => None,
        }
    }

    /// Has a brick cut a write short, beside its store.
    fn tear_brick<S: BrickStore>(
        &mut self,
        stores: &mut [S],
        message: &Message,
        request: &Request,
        bytes: u32,
    ) -> Result<Option<u64>, AllocError>
        requires stores { message.now.brick < length stores.old }
        requires bricks { message.now.brick < size_of self.old }
        requires up { is_up_at self.old message.now.brick ≡ true }
        requires fit { IsFit request.now }
        requires part { IsWriteOf request.now bytes }
        ensures tells { list_all S.told stores.new ≡ list_all S.told stores.old }
        ensures ok { IfOk result (TearsBrick (list_all S.told stores.old ≡ true) self.old self.new (map S.records stores.old) (map S.records stores.new) (map S.faults stores.old) (map S.faults stores.new) message.now request.now bytes) }
        ensures kept { OnErr result (self.new ≡ record self.old { bricks = self.new.bricks }) }
        ensures err { OnErr result (list_all S.told stores.old ≡ true → map S.records stores.new ≡ map S.records stores.old) }
    {
        let b = usize::from(message.brick);
        let store = &mut stores[b];
        self.bricks[b].tear(store, message.no, request, bytes)
    }

    /// Has the brick of a WriteChunks in flight write its first bytes and stop. The write gets no reply. Where there is no
    /// memory the log and the stores are as before.
    pub fn tear<S: BrickStore>(
        &mut self,
        stores: &mut [S],
        no: u64,
        bytes: u32,
    ) -> Result<(), AllocError>
        requires sound { IsSound self.old }
        requires stores { length stores.old ≡ size_of self.old }
        requires request { can_execute self.old no ≡ true }
        requires write { is_some (bytes_at self.old no) ≡ true }
        requires part { IfSome (bytes_at self.old no) (λ n. bytes ≤ n) }
        ensures tells { list_all S.told stores.new ≡ list_all S.told stores.old }
        ensures ok { OnOk result (Tears (list_all S.told stores.old ≡ true) self.old self.new (map S.records stores.old) (map S.records stores.new) (map S.faults stores.old) (map S.faults stores.new) no bytes) }
        ensures err { OnErr result (Breaks (λ e. ⊥) (list_all S.told stores.old ≡ true) self.old self.new (map S.records stores.old) (map S.records stores.new)) }
        ensures same_log { OnErr result (log_of self.new ≡ log_of self.old) }
        ensures same_records { OnErr result (list_all S.told stores.old ≡ true → map S.records stores.new ≡ map S.records stores.old) }
    {
        self.log.push(Entry::Torn {
            no,
            bytes,
            version: None,
        })?;
        known_laws();
        let message = match self.wire.take(no) {
            Some(message) => message,
            None => unreachable!(),
        };
        let request = match &message.body {
            Body::ToBrick(request) => request,
            Body::ToClient { .. } => unreachable!(),
        };
        // Each of its chunks has 512 bytes.
        let _ = bytes_in(request);
        match self.tear_brick(stores, &message, request, bytes) {
            Ok(version) => {
                self.log.set_last(Entry::Torn { no, bytes, version });
                Ok(())
            }
            Err(e) => {
                self.log.drop_last();
                Err(e)
            }
        }
    }
}
