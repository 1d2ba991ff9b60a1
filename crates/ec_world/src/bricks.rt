// Events of bricks and of messages, which no client decides.
ghost use Rattle.std.specs.Prelude.{◌≡◌, ℕ, List, Option, Some, None, true, is_some, length, map, ◌<◌, OnOk};
ghost use Rattle.std.specs.List.{list_all};
ghost use Rattle.ec_cluster.specs.Views.{can_execute, flight, log_of, size_of};
ghost use Rattle.ec_clients.specs.Calls.{tabled};
ghost use Rattle.ec_cluster.specs.Sound.{IsSound};
ghost use Rattle.ec_store.specs.Records.{Records};
ghost use Rattle.ec_wire.specs.declared.event.Event.TheVariants.{Cut, Lose, Return, Stop};
ghost use Rattle.ec_world.specs.Events.{FirstOfEvent, OfEvent, Stepped};
ghost use Rattle.ec_world.specs.Steps.{IsDelivery, IsLoss, NoneOr, OneStep};
ghost use Rattle.ec_world.specs.Refusals.{IsFound, lose_refusal, return_refusal, stop_refusal};

use crate::named::missing;
use crate::refused::Refused;
use ec_clients::{Clients, brick_law, reply_law};
use ec_cluster::Cluster;
use ec_store::BrickStore;
use ec_txn::Conduct;
use ec_wire::Which;

/// A brick stops.
pub fn stop<C: Conduct>(
    clients: &Clients<C>,
    cluster: &mut Cluster,
    brick: u8,
) -> Result<(), Refused>
    requires sound { IsSound cluster.old }
    ensures { (records : List Records) → Stepped C.stands (tabled C.begins C.goes) (Unit {0}) (OfEvent (size_of cluster.old) (Stop brick)) (FirstOfEvent (size_of cluster.old) (Stop brick)) cluster.old cluster.new clients.now clients.now records records (stop_refusal cluster.old brick) result }
{
    if usize::from(brick) >= cluster.bricks().len() {
        return Err(Refused::NoBrick(brick));
    }
    if !cluster.is_up(brick) {
        return Err(Refused::Down(brick));
    }
    brick_law::<C>();
    match cluster.stop(brick) {
        Ok(()) => Ok(()),
        Err(_) => Err(Refused::NoMemory),
    }
}

/// A stopped brick comes back.
pub fn return_brick<C: Conduct>(
    clients: &Clients<C>,
    cluster: &mut Cluster,
    brick: u8,
) -> Result<(), Refused>
    requires sound { IsSound cluster.old }
    ensures { (records : List Records) → Stepped C.stands (tabled C.begins C.goes) (Unit {0}) (OfEvent (size_of cluster.old) (Return brick)) (FirstOfEvent (size_of cluster.old) (Return brick)) cluster.old cluster.new clients.now clients.now records records (return_refusal cluster.old brick) result }
{
    if usize::from(brick) >= cluster.bricks().len() {
        return Err(Refused::NoBrick(brick));
    }
    if cluster.is_up(brick) {
        return Err(Refused::Up(brick));
    }
    brick_law::<C>();
    match cluster.start(brick) {
        Ok(()) => Ok(()),
        Err(_) => Err(Refused::NoMemory),
    }
}

/// A message that is in flight is lost.
pub fn lose_one<C: Conduct>(
    clients: &Clients<C>,
    cluster: &mut Cluster,
    no: u64,
) -> Result<(), Refused>
    requires sound { IsSound cluster.old }
    requires flies { is_some (flight cluster.old no) ≡ true }
    ensures stepped { (records : List Records) → Stepped C.stands (tabled C.begins C.goes) (Unit {0}) (OneStep (IsLoss no)) (NoneOr (OneStep (IsLoss no))) cluster.old cluster.new clients.now clients.now records records None result }
    ensures grows { OnOk result (length (log_of cluster.old) < length (log_of cluster.new)) }
{
    brick_law::<C>();
    match cluster.lose(no) {
        Ok(()) => Ok(()),
        Err(_) => Err(Refused::NoMemory),
    }
}

/// A message in flight is lost. `named` is the number that `which` names.
pub fn lose<C: Conduct>(
    clients: &Clients<C>,
    cluster: &mut Cluster,
    which: Which,
    named: Option<u64>,
) -> Result<(), Refused>
    requires sound { IsSound cluster.old }
    requires named { IsFound cluster.old which named }
    ensures { (records : List Records) → Stepped C.stands (tabled C.begins C.goes) (Unit {0}) (OfEvent (size_of cluster.old) (Lose which)) (FirstOfEvent (size_of cluster.old) (Lose which)) cluster.old cluster.new clients.now clients.now records records (lose_refusal which named) result }
{
    match named {
        Some(no) => lose_one(clients, cluster, no),
        None => Err(missing(which)),
    }
}

/// A brick that is up ends the grants and waiters of a client.
pub fn cut<C: Conduct>(
    clients: &Clients<C>,
    cluster: &mut Cluster,
    client: u8,
    brick: u8,
) -> Result<(), Refused>
    requires sound { IsSound cluster.old }
    ensures { (records : List Records) → Stepped C.stands (tabled C.begins C.goes) (Unit {0}) (OfEvent (size_of cluster.old) (Cut client (Some brick))) (FirstOfEvent (size_of cluster.old) (Cut client (Some brick))) cluster.old cluster.new clients.now clients.now records records (stop_refusal cluster.old brick) result }
{
    if usize::from(brick) >= cluster.bricks().len() {
        return Err(Refused::NoBrick(brick));
    }
    if !cluster.is_up(brick) {
        return Err(Refused::Down(brick));
    }
    brick_law::<C>();
    reply_law();
    match cluster.cut(client, brick) {
        Ok(()) => Ok(()),
        Err(_) => Err(Refused::NoMemory),
    }
}

/// The brick of a request in flight, which is up, executes it.
pub fn execute<S: BrickStore, C: Conduct>(
    clients: &Clients<C>,
    cluster: &mut Cluster,
    stores: &mut [S],
    no: u64,
) -> Result<(), Refused>
    requires sound { IsSound cluster.old }
    requires stores { length stores.old ≡ size_of cluster.old }
    requires request { can_execute cluster.old no ≡ true }
    ensures tells { list_all S.told stores.new ≡ list_all S.told stores.old }
    ensures stepped { Stepped C.stands (tabled C.begins C.goes) (list_all S.told stores.old ≡ true) (OneStep (IsDelivery no)) (NoneOr (OneStep (IsDelivery no))) cluster.old cluster.new clients.now clients.now (map S.records stores.old) (map S.records stores.new) None result }
    ensures grows { OnOk result (length (log_of cluster.old) < length (log_of cluster.new)) }
{
    brick_law::<C>();
    reply_law();
    match cluster.execute(stores, no) {
        Ok(()) => Ok(()),
        Err(_) => Err(Refused::NoMemory),
    }
}
