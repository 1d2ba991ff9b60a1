// What calls hear from bricks.
ghost use Rattle.std.specs.Prelude.{◌≡◌, ℕ, ◌<◌, ◌++◌, ◌∷◌, [], List, false, true, None, Some, OnErr, OnOk, IsTrue};
ghost use Rattle.ec_cluster.specs.Said.{said_in};
ghost use Rattle.ec_cluster.specs.Sound.{IsSound};
ghost use Rattle.ec_cluster.specs.Views.{flight, log_of, next_of, size_of};
ghost use Rattle.ec_clients.specs.Beginning.{AreAsMany};
ghost use Rattle.ec_clients.specs.Calls.{tabled};
ghost use Rattle.ec_clients.specs.Come.{Come};
ghost use Rattle.ec_clients.specs.Going.{answer_entries, sent_entries};
ghost use Rattle.ec_clients.specs.Hearing.{Hears, IsAwaited, IsIdle, IsReplyAt, reply_in};
ghost use Rattle.ec_clients.specs.Late.{asked_by, late_entries, late_gfid};
ghost use Rattle.ec_clients.specs.Owned.{Sees};
ghost use Rattle.ec_cluster.specs.Steps.{IsBegun};
ghost use Rattle.ec_clients.specs.Steps.{Breaks, Goes, Seen};
ghost use Rattle.ec_clients.specs.Views.{is_dead_at, is_released, slots_of};
ghost use Rattle.ec_wire.specs.declared.entry.Entry.TheVariants.{Heard};

use crate::clients::Clients;
use crate::going::go_on;
use ec_attr::Gfid;
use ec_cluster::Cluster;
use ec_txn::{Call, Sends};
use ec_wire::{Body, Message, Reply, Request};
use std::alloc::{AllocError, Global};

/// Message numbers stay below 2^62.
pub(crate) const LAST: u64 = 0x4000_0000_0000_0000;

/// The reply that a message is.
fn into_reply(message: Message) -> Option<Reply>
    ensures { result ≡ reply_in message.body }
{
    match message.body {
        Body::ToClient { reply, .. } => Some(reply),
        Body::ToBrick(_) => None,
    }
}

/// Whether the client's call waits for the reply of a brick to this request.
pub fn is_awaited<T, C: Call<T>>(
    clients: &Clients<C>,
    client: u8,
    call: u32,
    brick: u8,
    re: u64,
) -> bool
    ensures yes { IsTrue result → IsAwaited C.stands clients.now call client brick re }
    ensures not { result ≡ false → IsIdle C.stands clients.now call client brick re }
{
    match clients.running(client) {
        Some(running) => {
            if running.number == call {
                match running.call.awaits(brick) {
                    Some(number) => number == re,
                    None => false,
                }
            } else {
                false
            }
        }
        None => false,
    }
}

/// The client's call hears the reply that it waits for, and goes on.
pub fn hear_awaited<T, C: Call<T>>(
    clients: &mut Clients<C>,
    cluster: &mut Cluster,
    alloc: Global,
    rows: &T,
    no: u64,
    client: u8,
    call: u32,
    brick: u8,
    re: u64,
) -> Result<(), AllocError>
    requires sound { IsSound cluster.old }
    requires size { size_of cluster.old ≡ clients.old.options.geometry.n }
    requires seen { (p : Come) × Seen C.stands (tabled C.begins C.goes) cluster.old clients.old None p }
    requires there { IsReplyAt cluster.old no call client brick re }
    requires awaited { IsAwaited C.stands clients.old call client brick re }
    requires lives { is_dead_at clients.old client ≡ false }
    ensures ok { OnOk result (Hears C.stands (tabled C.begins C.goes) cluster.old cluster.new clients.old clients.new no call client) }
    ensures options { OnOk result (clients.new.options ≡ clients.old.options) }
    ensures many { OnOk result (AreAsMany clients.old clients.new) }
    ensures err { OnErr result (Breaks clients.old.options.geometry (IsBegun (λ e. e ≡ Heard no)) (Seen C.stands (tabled C.begins C.goes) cluster.old clients.old None) cluster.old cluster.new) }
{
    let message = match cluster.take_reply(no) {
        Ok(message) => message,
        Err(e) => return Err(e),
    };
    let reply = match into_reply(message) {
        Some(reply) => reply,
        None => unreachable!(),
    };
    let mut running = match clients.take(client) {
        Some(running) => running,
        None => unreachable!(),
    };
    let next = cluster.next();
    if next >= LAST {
        return Err(AllocError);
    }
    let mut sends = Sends::new(alloc);
    let turn = match running.call.hear(rows, next, brick, &reply, &mut sends) {
        Ok(turn) => turn,
        Err(e) => return Err(e),
    };
    go_on::<T, C>(clients, cluster, client, running, &sends, turn)
}

/// The gfid of the ask, where the message in flight is a Granted whose ask was released.
fn late_gfid<C>(clients: &Clients<C>, cluster: &Cluster, no: u64, re: u64) -> Option<Gfid>
    requires { IsSound cluster.now }
    ensures { result ≡ late_gfid (is_released clients.now re) (said_in (log_of cluster.now) re) (flight cluster.now no) }
{
    let message = match cluster.get(no) {
        Some(message) => message,
        None => return None,
    };
    match &message.body {
        Body::ToClient {
            reply: Reply::Granted,
            ..
        } => {
            if !clients.is_released(re) {
                return None;
            }
            match cluster.sent(re) {
                Some(asked) => asked_gfid(&asked.body),
                None => None,
            }
        }
        _ => None,
    }
}

/// The gfid that an ask asks for.
fn asked_gfid(body: &Body) -> Option<Gfid>
    ensures { result ≡ asked_by body.now }
{
    match body {
        Body::ToBrick(Request::Ask { gfid, .. }) => Some(*gfid),
        _ => None,
    }
}

/// A reply that no call waits for is heard. A Granted of an ask that was released is answered by a Release once more,
/// whatever call its client runs, or none.
pub fn hear_idle<T, C: Call<T>>(
    clients: &Clients<C>,
    cluster: &mut Cluster,
    no: u64,
    client: u8,
    call: u32,
    brick: u8,
    re: u64,
) -> Result<(), AllocError>
    requires sound { IsSound cluster.old }
    requires there { IsReplyAt cluster.old no call client brick re }
    requires idle { IsIdle C.stands clients.now call client brick re }
    requires lives { is_dead_at clients.now client ≡ false }
    ensures ok { OnOk result (Goes clients.now.options.geometry (Sees C.stands (tabled C.begins C.goes) cluster.old clients.now) (Sees C.stands (tabled C.begins C.goes) cluster.new clients.now) cluster.old cluster.new (Heard no ∷ late_entries (next_of cluster.old) call client brick re (late_gfid (is_released clients.now re) (said_in (log_of cluster.old) re) (flight cluster.old no)))) }
    ensures err { OnErr result (Breaks clients.now.options.geometry (IsBegun (λ e. e ≡ Heard no)) (Sees C.stands (tabled C.begins C.goes) cluster.old clients.now) cluster.old cluster.new) }
{
    let late = late_gfid(clients, cluster, no, re);
    let _message = match cluster.take_reply(no) {
        Ok(message) => message,
        Err(e) => return Err(e),
    };
    match late {
        Some(gfid) => cluster.send(call, client, brick, Request::Release { gfid, grant: re }),
        None => Ok(()),
    }
}
