// A brick executes a request.
ghost use Rattle.std.specs.Prelude.{◌≡◌, ◌<◌, true, length, map, IfOk, OnErr, OnOk};
ghost use Rattle.std.specs.List.{list_all};
ghost use Rattle.ec_brick.specs.Fit.{IsFit};
ghost use Rattle.ec_brick.specs.Meets.{is_fault};
ghost use Rattle.ec_cluster.specs.Inner.{Answers, AnswersPart, AsksBrick, IsAnswer};
ghost use Rattle.ec_cluster.specs.Sound.{IsSound};
ghost use Rattle.ec_cluster.specs.Steps.{Breaks, Executes, IsExecution};
ghost use Rattle.ec_cluster.specs.Views.{can_execute, is_up_at, size_of};

use crate::cluster::Cluster;
use ec_brick::{Effects, known_laws};
use ec_store::BrickStore;
use ec_wire::{Body, Entry, Message, Reply, Request};
use std::alloc::AllocError;

fn is_fault(reply: &Option<Reply>) -> bool
    ensures { result ≡ is_fault reply.now }
{
    matches!(reply, Some(Reply::Fault))
}

impl Cluster {
    /// Has a brick execute a request, beside its store.
    fn ask_brick<S: BrickStore>(
        &mut self,
        stores: &mut [S],
        message: &Message,
        request: &Request,
    ) -> Result<Effects, AllocError>
        requires stores { message.now.brick < length stores.old }
        requires bricks { message.now.brick < size_of self.old }
        requires up { is_up_at self.old message.now.brick ≡ true }
        requires fit { IsFit request.now }
        ensures tells { list_all S.told stores.new ≡ list_all S.told stores.old }
        ensures ok { IfOk result (AsksBrick (list_all S.told stores.old ≡ true) self.old self.new (map S.records stores.old) (map S.records stores.new) (map S.faults stores.old) (map S.faults stores.new) message.now request.now) }
        ensures kept { OnErr result (self.new ≡ record self.old { bricks = self.new.bricks }) }
        ensures err { OnErr result (list_all S.told stores.old ≡ true → map S.records stores.new ≡ map S.records stores.old) }
    {
        let b = usize::from(message.brick);
        let store = &mut stores[b];
        self.bricks[b].execute(store, message.client, message.no, request)
    }

    /// Sends what an execution is answered: the own reply, and the Granted of those let in.
    fn answer(&mut self, message: &Message, effects: Effects) -> Result<(), AllocError>
        requires sound { IsSound self.old }
        requires asked { IsAnswer self.old message.now effects.reply effects.granted }
        ensures ok { OnOk result (Answers self.old self.new message.now effects.reply effects.granted) }
        ensures err { OnErr result (AnswersPart self.old self.new message.now effects.reply effects.granted) }
    {
        let Effects { reply, granted, .. } = effects;
        match reply {
            None => self.grant(message.brick, &granted),
            Some(reply) => {
                let body = Body::ToClient {
                    re: message.no,
                    reply,
                };
                self.put(message.call, message.client, message.brick, body)?;
                self.grant(message.brick, &granted)
            }
        }
    }

    /// Has the brick of a request in flight execute it; then its own reply is sent, if it has one, and the Granted of the
    /// waiters that it lets in. Where there is no memory the log has the entries so far, and the stores stand as these say.
    pub fn execute<S: BrickStore>(&mut self, stores: &mut [S], no: u64) -> Result<(), AllocError>
        requires sound { IsSound self.old }
        requires stores { length stores.old ≡ size_of self.old }
        requires request { can_execute self.old no ≡ true }
        ensures tells { list_all S.told stores.new ≡ list_all S.told stores.old }
        ensures ok { OnOk result (Executes (list_all S.told stores.old ≡ true) self.old self.new (map S.records stores.old) (map S.records stores.new) (map S.faults stores.old) (map S.faults stores.new) no) }
        ensures err { OnErr result (Breaks (IsExecution no) (list_all S.told stores.old ≡ true) self.old self.new (map S.records stores.old) (map S.records stores.new)) }
    {
        self.log.push(Entry::Executed {
            no,
            version: None,
            failed: false,
        })?;
        known_laws();
        let message = match self.wire.take(no) {
            Some(message) => message,
            None => unreachable!(),
        };
        let request = match &message.body {
            Body::ToBrick(request) => request,
            Body::ToClient { .. } => unreachable!(),
        };
        match self.ask_brick(stores, &message, request) {
            Ok(effects) => {
                self.log.set_last(Entry::Executed {
                    no,
                    version: effects.version,
                    failed: is_fault(&effects.reply),
                });
                self.answer(&message, effects)
            }
            Err(e) => {
                self.log.drop_last();
                Err(e)
            }
        }
    }
}
