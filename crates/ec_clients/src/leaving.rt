// Calls that give up a brick.
ghost use Rattle.std.specs.Prelude.{◌≡◌, false, None, Some, OnErr, OnOk};
ghost use Rattle.ec_cluster.specs.Sound.{IsSound};
ghost use Rattle.ec_cluster.specs.Views.{size_of};
ghost use Rattle.ec_clients.specs.Beginning.{AreAsMany};
ghost use Rattle.ec_clients.specs.Calls.{tabled};
ghost use Rattle.ec_clients.specs.Come.{Come};
ghost use Rattle.ec_clients.specs.Hearing.{IsWaiting, Leaves};
ghost use Rattle.ec_cluster.specs.Steps.{IsBegun};
ghost use Rattle.ec_clients.specs.Steps.{Breaks, Seen};
ghost use Rattle.ec_wire.specs.declared.entry.Entry.TheVariants.{GivenUp};
ghost use Rattle.ec_clients.specs.Views.{is_dead_at};

use crate::clients::Clients;
use crate::going::go_on;
use crate::hearing::LAST;
use ec_cluster::Cluster;
use ec_txn::{Call, Sends};
use ec_wire::Entry;
use std::alloc::{AllocError, Global};

/// The client's call waits no more for a brick's reply to request `no`, and goes on.
pub fn leave<T, C: Call<T>>(
    clients: &mut Clients<C>,
    cluster: &mut Cluster,
    alloc: Global,
    rows: &T,
    client: u8,
    brick: u8,
    no: u64,
) -> Result<(), AllocError>
    requires sound { IsSound cluster.old }
    requires size { size_of cluster.old ≡ clients.old.options.geometry.n }
    requires seen { (p : Come) × Seen C.stands (tabled C.begins C.goes) cluster.old clients.old None p }
    requires waiting { IsWaiting C.stands clients.old client brick no }
    requires lives { is_dead_at clients.old client ≡ false }
    ensures ok { OnOk result (Leaves C.stands (tabled C.begins C.goes) cluster.old cluster.new clients.old clients.new no client brick) }
    ensures options { OnOk result (clients.new.options ≡ clients.old.options) }
    ensures many { OnOk result (AreAsMany clients.old clients.new) }
    ensures err { OnErr result (Breaks clients.old.options.geometry (IsBegun (λ e. e ≡ GivenUp client brick no)) (Seen C.stands (tabled C.begins C.goes) cluster.old clients.old None) cluster.old cluster.new) }
{
    let next = cluster.next();
    if next >= LAST {
        return Err(AllocError);
    }
    let mut running = match clients.take(client) {
        Some(running) => running,
        None => unreachable!(),
    };
    let mut sends = Sends::new(alloc);
    let turn = match running.call.give_up(rows, next, brick, &mut sends) {
        Ok(turn) => turn,
        Err(e) => return Err(e),
    };
    match cluster.note(Entry::GivenUp { client, brick, no }) {
        Ok(()) => go_on::<T, C>(clients, cluster, client, running, &sends, turn),
        Err(e) => Err(e),
    }
}
