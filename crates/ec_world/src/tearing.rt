// Writes that are cut short.
ghost use Rattle.std.specs.Prelude.{◌≡◌, List, Option, Some, None, true, length, map};
ghost use Rattle.std.specs.List.{list_all};
ghost use Rattle.ec_clients.specs.Calls.{tabled};
ghost use Rattle.ec_cluster.specs.Sound.{IsSound};
ghost use Rattle.ec_cluster.specs.Views.{flight, size_of};
ghost use Rattle.ec_wire.specs.declared.event.Event.TheVariants.{Tear};
ghost use Rattle.ec_world.specs.Events.{FirstOfEvent, OfEvent, Stepped};
ghost use Rattle.ec_world.specs.Refusals.{IsFound, brick_of, tear_refusal};

use crate::named::missing;
use crate::refused::Refused;
use ec_clients::{Clients, brick_law};
use ec_cluster::Cluster;
use ec_store::BrickStore;
use ec_txn::Conduct;
use ec_wire::Which;

/// The brick between which and a client the message in flight is, 0 where none is in flight.
fn brick_of(cluster: &Cluster, no: u64) -> u8
    ensures { result ≡ brick_of (flight cluster.now no) }
{
    match cluster.get(no) {
        Some(message) => message.brick,
        None => 0,
    }
}

/// A brick writes the first bytes of a write in flight and stops. `named` is the number that `which` names.
pub fn tear<S: BrickStore, C: Conduct>(
    clients: &Clients<C>,
    cluster: &mut Cluster,
    stores: &mut [S],
    which: Which,
    named: Option<u64>,
    bytes: u64,
) -> Result<(), Refused>
    requires sound { IsSound cluster.old }
    requires stores { length stores.old ≡ size_of cluster.old }
    requires named { IsFound cluster.old which named }
    ensures tells { list_all S.told stores.new ≡ list_all S.told stores.old }
    ensures stepped { Stepped C.stands (tabled C.begins C.goes) (list_all S.told stores.old ≡ true) (OfEvent (size_of cluster.old) (Tear which bytes)) (FirstOfEvent (size_of cluster.old) (Tear which bytes)) cluster.old cluster.new clients.now clients.now (map S.records stores.old) (map S.records stores.new) (tear_refusal cluster.old which named bytes) result }
{
    let no = match named {
        Some(no) => no,
        None => return Err(missing(which)),
    };
    let most = match cluster.bytes_in(no) {
        Some(most) => most,
        None => return Err(Refused::NotTearable(no)),
    };
    let brick = brick_of(cluster, no);
    if !cluster.is_up(brick) {
        return Err(Refused::Down(brick));
    }
    if bytes > most {
        return Err(Refused::TooMany(bytes));
    }
    // No write is so long that its bytes don't fit the log's numbers.
    if bytes > 0xFFFF_FFFF {
        return Err(Refused::NoMemory);
    }
    brick_law::<C>();
    match cluster.tear(stores, no, bytes as u32) {
        Ok(()) => Ok(()),
        Err(_) => Err(Refused::NoMemory),
    }
}
