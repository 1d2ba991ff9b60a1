// Messages that are delivered.
ghost use Rattle.std.specs.Prelude.{◌≡◌, List, None, is_some, true, length, map, ◌<◌, OnOk};
ghost use Rattle.std.specs.List.{list_all};
ghost use Rattle.ec_clients.specs.Calls.{tabled};
ghost use Rattle.ec_clients.specs.Come.{Come};
ghost use Rattle.ec_clients.specs.Owned.{Sees};
ghost use Rattle.ec_cluster.specs.Sound.{IsSound};
ghost use Rattle.ec_cluster.specs.Views.{flight, log_of, size_of};
ghost use Rattle.ec_world.specs.Address.{address_of};
ghost use Rattle.ec_wire.specs.declared.event.Event.TheVariants.{Deliver};
ghost use Rattle.ec_world.specs.Events.{FirstOfEvent, OfEvent, Stepped};
ghost use Rattle.ec_world.specs.Steps.{IsDelivery, NoneOr, OneStep};
ghost use Rattle.ec_world.specs.Refusals.{IsFound, deliver_refusal, message_refusal};
ghost use Rattle.ec_world.specs.Settling.{Moves};

use crate::address::Address;
use crate::bricks::{execute, lose_one};
use crate::clients::hear;
use crate::named::missing;
use crate::refused::Refused;
use ec_clients::Clients;
use ec_cluster::Cluster;
use ec_store::BrickStore;
use ec_txn::Call;
use ec_wire::{Body, Which};
use std::alloc::Global;

/// Whither a message in flight goes.
fn address(cluster: &Cluster, no: u64) -> Option<Address>
    ensures { result ≡ address_of (flight cluster.now no) }
{
    match cluster.get(no) {
        Some(message) => match &message.body {
            Body::ToBrick(_) => Some(Address::Brick(message.brick)),
            Body::ToClient { re, .. } => Some(Address::Client {
                client: message.client,
                call: message.call,
                brick: message.brick,
                re: *re,
            }),
        },
        None => None,
    }
}

/// A message in flight is delivered: a brick that is up executes a request, or a client that lives hears a reply. `named`
/// is the number that `which` names.
pub fn deliver<S: BrickStore, T, C: Call<T>>(
    clients: &mut Clients<C>,
    cluster: &mut Cluster,
    stores: &mut [S],
    alloc: Global,
    rows: &T,
    which: Which,
    named: Option<u64>,
) -> Result<(), Refused>
    requires sound { IsSound cluster.old }
    requires size { size_of cluster.old ≡ clients.old.options.geometry.n }
    requires sees { (p : Come) × Sees C.stands (tabled C.begins C.goes) cluster.old clients.old p }
    requires stores { length stores.old ≡ size_of cluster.old }
    requires named { IsFound cluster.old which named }
    ensures tells { list_all S.told stores.new ≡ list_all S.told stores.old }
    ensures stepped { Stepped C.stands (tabled C.begins C.goes) (list_all S.told stores.old ≡ true) (OfEvent (size_of cluster.old) (Deliver which)) (FirstOfEvent (size_of cluster.old) (Deliver which)) cluster.old cluster.new clients.old clients.new (map S.records stores.old) (map S.records stores.new) (deliver_refusal cluster.old clients.old which named) result }
{
    match named {
        Some(no) => deliver_one::<S, T, C>(clients, cluster, stores, alloc, rows, no),
        None => Err(missing(which)),
    }
}

/// The message in flight of this number is delivered.
fn deliver_one<S: BrickStore, T, C: Call<T>>(
    clients: &mut Clients<C>,
    cluster: &mut Cluster,
    stores: &mut [S],
    alloc: Global,
    rows: &T,
    no: u64,
) -> Result<(), Refused>
    requires sound { IsSound cluster.old }
    requires size { size_of cluster.old ≡ clients.old.options.geometry.n }
    requires sees { (p : Come) × Sees C.stands (tabled C.begins C.goes) cluster.old clients.old p }
    requires stores { length stores.old ≡ size_of cluster.old }
    requires flies { is_some (flight cluster.old no) ≡ true }
    ensures tells { list_all S.told stores.new ≡ list_all S.told stores.old }
    ensures stepped { Stepped C.stands (tabled C.begins C.goes) (list_all S.told stores.old ≡ true) (OneStep (IsDelivery no)) (NoneOr (OneStep (IsDelivery no))) cluster.old cluster.new clients.old clients.new (map S.records stores.old) (map S.records stores.new) (message_refusal cluster.old clients.old (flight cluster.old no)) result }
{
    match address(cluster, no) {
        Some(Address::Brick(brick)) => {
            if !cluster.is_up(brick) {
                return Err(Refused::Down(brick));
            }
            execute::<S, C>(clients, cluster, stores, no)
        }
        Some(
            Address::Client {
                client,
                call,
                brick,
                re,
            },
        ) => {
            if clients.is_dead(client) {
                return Err(Refused::Dead(client));
            }
            hear::<T, C>(clients, cluster, alloc, rows, no, client, call, brick, re)
        }
        None => unreachable!(),
    }
}

/// The message in flight of this number is delivered, or lost where it goes to a brick that is stopped or to a client that
/// is dead.
pub(crate) fn move_on<S: BrickStore, T, C: Call<T>>(
    clients: &mut Clients<C>,
    cluster: &mut Cluster,
    stores: &mut [S],
    alloc: Global,
    rows: &T,
    no: u64,
) -> Result<(), Refused>
    requires sound { IsSound cluster.old }
    requires size { size_of cluster.old ≡ clients.old.options.geometry.n }
    requires sees { (p : Come) × Sees C.stands (tabled C.begins C.goes) cluster.old clients.old p }
    requires stores { length stores.old ≡ size_of cluster.old }
    requires flies { is_some (flight cluster.old no) ≡ true }
    ensures tells { list_all S.told stores.new ≡ list_all S.told stores.old }
    ensures stepped { Stepped C.stands (tabled C.begins C.goes) (list_all S.told stores.old ≡ true) (OneStep (Moves cluster.old clients.old no)) (NoneOr (OneStep (Moves cluster.old clients.old no))) cluster.old cluster.new clients.old clients.new (map S.records stores.old) (map S.records stores.new) None result }
    ensures grows { OnOk result (length (log_of cluster.old) < length (log_of cluster.new)) }
{
    match address(cluster, no) {
        Some(Address::Brick(brick)) => {
            if cluster.is_up(brick) {
                execute::<S, C>(clients, cluster, stores, no)
            } else {
                lose_one::<C>(clients, cluster, no)
            }
        }
        Some(
            Address::Client {
                client,
                call,
                brick,
                re,
            },
        ) => {
            if clients.is_dead(client) {
                lose_one::<C>(clients, cluster, no)
            } else {
                hear::<T, C>(clients, cluster, alloc, rows, no, client, call, brick, re)
            }
        }
        None => unreachable!(),
    }
}
