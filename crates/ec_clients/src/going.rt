// A call that is out of its slot goes on: it sends what it has to, and comes back or is answered.
ghost use Rattle.std.specs.Prelude.{◌≡◌, ◌<◌, ◌++◌, [], All, None, Some, OnErr, OnOk, slice_get};
ghost use Rattle.ec_brick.specs.Fit.{IsFit};
ghost use Rattle.ec_cluster.specs.Sound.{IsSound};
ghost use Rattle.ec_cluster.specs.Views.{next_of, size_of};
ghost use Rattle.ec_clients.specs.Beginning.{AreAsMany};
ghost use Rattle.ec_clients.specs.Calls.{tabled};
ghost use Rattle.ec_clients.specs.Going.{Going, answer_entries, sent_entries};
ghost use Rattle.ec_clients.specs.Steps.{AreOfCourse, Breaks, Goes, Seen};
ghost use Rattle.ec_clients.specs.Views.{slots_of};
ghost use Rattle.ec_txn.specs.Steps.{answer_of};

use crate::clients::{Clients, Running};
use crate::sending::send_all;
use ec_cluster::Cluster;
use ec_txn::{Call, Sends, Turn};
use ec_wire::Entry;
use std::alloc::AllocError;

/// A call that has sent all comes back to its slot, or is answered.
fn finish<T, C: Call<T>>(
    clients: &mut Clients<C>,
    cluster: &mut Cluster,
    client: u8,
    running: Running<C>,
    turn: Turn,
) -> Result<(), AllocError>
    requires sound { IsSound cluster.old }
    requires free { slice_get (slots_of clients.old) client ≡ Some None }
    ensures ok { OnOk result (Goes clients.old.options.geometry (Going C.stands (tabled C.begins C.goes) cluster.old clients.old running.number client running.call [] (answer_of turn)) (Seen C.stands (tabled C.begins C.goes) cluster.new clients.new None) cluster.old cluster.new (answer_entries running.number (answer_of turn))) }
    ensures options { OnOk result (clients.new.options ≡ clients.old.options) }
    ensures many { OnOk result (AreAsMany clients.old clients.new) }
    ensures err { OnErr result (Breaks clients.old.options.geometry AreOfCourse (Going C.stands (tabled C.begins C.goes) cluster.old clients.old running.number client running.call [] (answer_of turn)) cluster.old cluster.new) }
{
    match turn {
        Turn::Wait => {
            clients.put(client, running);
            Ok(())
        }
        Turn::Done(answer) => cluster.note(Entry::Answered {
            call: running.number,
            answer,
        }),
    }
}

/// A call that is out of its slot sends what it has to, and comes back to its slot or is answered.
pub(crate) fn go_on<T, C: Call<T>>(
    clients: &mut Clients<C>,
    cluster: &mut Cluster,
    client: u8,
    running: Running<C>,
    sends: &Sends,
    turn: Turn,
) -> Result<(), AllocError>
    requires sound { IsSound cluster.old }
    requires free { slice_get (slots_of clients.old) client ≡ Some None }
    requires to { All (λ s. s.0 < size_of cluster.old) sends.now }
    requires fit { All (λ s. IsFit s.1) sends.now }
    ensures ok { OnOk result (Goes clients.old.options.geometry (Going C.stands (tabled C.begins C.goes) cluster.old clients.old running.number client running.call sends.now (answer_of turn)) (Seen C.stands (tabled C.begins C.goes) cluster.new clients.new None) cluster.old cluster.new (sent_entries running.number client (next_of cluster.old) sends.now ++ answer_entries running.number (answer_of turn))) }
    ensures options { OnOk result (clients.new.options ≡ clients.old.options) }
    ensures many { OnOk result (AreAsMany clients.old clients.new) }
    ensures err { OnErr result (Breaks clients.old.options.geometry AreOfCourse (Going C.stands (tabled C.begins C.goes) cluster.old clients.old running.number client running.call sends.now (answer_of turn)) cluster.old cluster.new) }
{
    match send_all::<T, C>(clients, cluster, running.number, client, sends) {
        Ok(()) => finish::<T, C>(clients, cluster, client, running, turn),
        Err(e) => Err(e),
    }
}
