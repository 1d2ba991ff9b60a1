// Events, whichever they are.
ghost use Rattle.std.specs.Prelude.{◌≡◌, length, map, true};
ghost use Rattle.std.specs.List.{list_all};
ghost use Rattle.ec_clients.specs.Beginning.{HasClients};
ghost use Rattle.ec_clients.specs.Calls.{tabled};
ghost use Rattle.ec_clients.specs.Come.{Come};
ghost use Rattle.ec_clients.specs.Owned.{Sees};
ghost use Rattle.ec_cluster.specs.Sound.{IsSound};
ghost use Rattle.ec_cluster.specs.Views.{size_of};
ghost use Rattle.ec_world.specs.Events.{Outcome};
ghost use Rattle.ec_world.specs.World.{FitsEvent};

use crate::bricks::{lose, return_brick, stop};
use crate::clients::{awaited, call, die, give_up, yield_grants};
use crate::cutting::cut_from;
use crate::delivery::deliver;
use crate::named::find;
use crate::refused::Refused;
use crate::settling::{settle, until};
use crate::tearing::tear;
use crate::via::bad_via;
use ec_clients::{Begins, Clients};
use ec_cluster::Cluster;
use ec_store::BrickStore;
use ec_wire::Event;
use std::alloc::Global;

/// An event is refused, or done. A replacement isn't built.
pub fn obey<S: BrickStore, T, C: Begins<T>>(
    clients: &mut Clients<C>,
    cluster: &mut Cluster,
    stores: &mut [S],
    alloc: Global,
    rows: &T,
    event: &Event,
) -> Result<(), Refused>
    requires sound { IsSound cluster.old }
    requires size { size_of cluster.old ≡ clients.old.options.geometry.n }
    requires many { HasClients clients.old }
    requires sees { (p : Come) × Sees C.stands (tabled C.begins C.goes) cluster.old clients.old p }
    requires stores { length stores.old ≡ size_of cluster.old }
    requires fits { FitsEvent event.now }
    ensures tells { list_all S.told stores.new ≡ list_all S.told stores.old }
    ensures outcome { Outcome C.stands (tabled C.begins C.goes) (list_all S.told stores.old ≡ true) event.now cluster.old cluster.new clients.old clients.new (map S.records stores.old) (map S.records stores.new) result }
{
    match event {
        Event::Call { client, op } => {
            let wrong = bad_via(&clients.options().geometry, op);
            call::<T, C>(clients, cluster, alloc, *client, op, wrong)
        }
        Event::Deliver(which) => {
            let named = find(cluster, *which);
            deliver::<S, T, C>(clients, cluster, stores, alloc, rows, *which, named)
        }
        Event::Lose(which) => {
            let named = find(cluster, *which);
            lose::<C>(clients, cluster, *which, named)
        }
        Event::GiveUp { client, brick } => {
            let number = awaited::<T, C>(clients, *client, *brick);
            give_up::<T, C>(clients, cluster, alloc, rows, *client, *brick, number)
        }
        Event::Stop(brick) => stop::<C>(clients, cluster, *brick),
        Event::Return(brick) => return_brick::<C>(clients, cluster, *brick),
        Event::Cut { client, brick } => cut_from::<C>(clients, cluster, *client, *brick),
        Event::Die(client) => die::<T, C>(clients, cluster, *client),
        Event::Tear { which, bytes } => {
            let named = find(cluster, *which);
            tear::<S, C>(clients, cluster, stores, *which, named, *bytes)
        }
        Event::Yield(client) => Err(yield_grants(clients, *client)),
        Event::Settle => settle::<S, T, C>(clients, cluster, stores, alloc, rows),
        Event::Until { client, phase } => {
            until::<S, T, C>(clients, cluster, stores, alloc, rows, *client, *phase)
        }
        Event::Replace(_) => Err(Refused::Unbuilt),
    }
}
