// Clients that are cut off from all bricks.
ghost use Rattle.std.specs.Prelude.{◌≤◌, List, None};
ghost use Rattle.ec_clients.specs.Calls.{tabled};
ghost use Rattle.ec_cluster.specs.Sound.{IsSound};
ghost use Rattle.ec_cluster.specs.Views.{size_of};
ghost use Rattle.ec_store.specs.Records.{Records};
ghost use Rattle.ec_wire.specs.declared.event.Event.TheVariants.{Cut};
ghost use Rattle.ec_world.specs.Events.{FirstOfEvent, OfEvent, Outcome, Stepped};

use crate::bricks::cut;
use crate::refused::Refused;
use ec_clients::Clients;
use ec_cluster::Cluster;
use ec_txn::Conduct;

/// Each brick that is up ends the grants and waiters of a client, bricks rising.
pub fn cut_all<C: Conduct>(
    clients: &Clients<C>,
    cluster: &mut Cluster,
    client: u8,
) -> Result<(), Refused>
    requires sound { IsSound cluster.old }
    requires few { size_of cluster.old ≤ 31 }
    ensures { (records : List Records) → Stepped C.stands (tabled C.begins C.goes) (Unit {0}) (OfEvent (size_of cluster.old) (Cut client None)) (FirstOfEvent (size_of cluster.old) (Cut client None)) cluster.old cluster.new clients.now clients.now records records None result }
{
    for brick in 0..cluster.bricks().len() {
        if cluster.is_up(brick as u8) {
            match cut(clients, cluster, client, brick as u8) {
                Ok(()) => {}
                Err(_) => return Err(Refused::NoMemory),
            }
        }
    }
    Ok(())
}

/// One brick, or each that is up, ends the grants and waiters of a client.
pub(crate) fn cut_from<C: Conduct>(
    clients: &Clients<C>,
    cluster: &mut Cluster,
    client: u8,
    brick: Option<u8>,
) -> Result<(), Refused>
    requires sound { IsSound cluster.old }
    requires few { size_of cluster.old ≤ 31 }
    ensures { (records : List Records) → Outcome C.stands (tabled C.begins C.goes) (Unit {0}) (Cut client brick) cluster.old cluster.new clients.now clients.now records records result }
{
    match brick {
        Some(brick) => cut(clients, cluster, client, brick),
        None => cut_all(clients, cluster, client),
    }
}
