// Settling: steps until none is left that applies.
ghost use Rattle.std.specs.Prelude.{◌≡◌, ◌<◌, ◌≤◌, ◌⊎◌, ℕ, None, IfOk, IfSome, IsTrue, OnErr, OnOk, false, length, map, true};
ghost use Rattle.std.specs.List.{list_all};
ghost use Rattle.ec_clients.specs.Beginning.{HasClients};
ghost use Rattle.ec_clients.specs.Calls.{tabled};
ghost use Rattle.ec_clients.specs.Come.{Come};
ghost use Rattle.ec_clients.specs.Owned.{Sees};
ghost use Rattle.ec_cluster.specs.Sound.{IsSound};
ghost use Rattle.ec_cluster.specs.Views.{log_of, size_of};
ghost use Rattle.ec_history.specs.Script.{IsSettling};
ghost use Rattle.ec_wire.specs.declared.event.Event.TheVariants.{Settle};
ghost use Rattle.ec_world.specs.Events.{Breaks, FirstOfEvent, OfEvent, Stepped};
ghost use Rattle.ec_world.specs.UnderWay.{IsStill};
ghost use Rattle.ec_world.specs.Refusals.{until_refusal};
ghost use Rattle.ec_world.specs.Resting.{IsFirst, IsFree, IsFreeBelow, IsFreeOf, IsStuckAt, IsStuckBy, Rests};
ghost use Rattle.ec_world.specs.Settling.{GoesOn};
ghost use Rattle.ec_world.specs.Steps.{NoneOr, OneStep};
ghost use Rattle.ec_world.specs.World.{IsCallOf, IsPast, OfUntil};

use crate::clients::{awaited, leave_one};
use crate::delivery::move_on;
use crate::refused::Refused;
use ec_clients::Clients;
use ec_cluster::Cluster;
use ec_store::BrickStore;
use ec_txn::Call;
use ec_wire::Phase;
use std::alloc::{AllocError, Global};

/// A client whose call waits in vain for a brick's reply to request `no`: the brick doesn't keep it in a queue.
#[derive(Clone, Copy)]
pub struct Stuck {
    pub client: u8,
    pub brick: u8,
    pub no: u64,
}

/// The number of the request to the brick that the client's call waits for in vain.
fn stuck_at<T, C: Call<T>>(
    clients: &Clients<C>,
    cluster: &Cluster,
    client: u8,
    brick: u8,
) -> Option<u64>
    ensures stuck { IfSome result (λ no. IsStuckBy C.stands cluster.now clients.now client brick no) }
    ensures free { result ≡ None → IsFree C.stands cluster.now clients.now client brick }
{
    match awaited::<T, C>(clients, client, brick) {
        Some(no) => {
            if cluster.queued(brick, no) {
                None
            } else {
                Some(no)
            }
        }
        None => None,
    }
}

/// The lowest brick that the client's call waits for in vain, with the request's number.
fn stuck_brick<T, C: Call<T>>(
    clients: &Clients<C>,
    cluster: &Cluster,
    client: u8,
) -> Option<(u8, u64)>
    requires few { size_of cluster.now ≤ 31 }
    ensures stuck { IfSome result (λ x. IsStuckAt C.stands cluster.now clients.now client x.0 x.1) }
    ensures free { result ≡ None → IsFreeBelow C.stands cluster.now clients.now (size_of cluster.now) client }
{
    for brick in 0..cluster.bricks().len() {
        match stuck_at::<T, C>(clients, cluster, client, brick as u8) {
            Some(no) => return Some((brick as u8, no)),
            None => {}
        }
    }
    None
}

/// The lowest client that lives and whose call waits in vain.
fn first_stuck<T, C: Call<T>>(clients: &Clients<C>, cluster: &Cluster) -> Option<Stuck>
    requires few { size_of cluster.now ≤ 31 }
    ensures stuck { IfSome result (IsFirst C.stands cluster.now clients.now) }
    ensures free { result ≡ None → (j : ℕ) → j < 17 → IsFreeOf C.stands cluster.now clients.now j }
{
    for client in 0..17u8 {
        if !clients.is_dead(client) {
            match stuck_brick::<T, C>(clients, cluster, client) {
                Some((brick, no)) => return Some(Stuck { client, brick, no }),
                None => {}
            }
        }
    }
    None
}

/// One step of settling, and whether there was one to take.
fn settle_step<S: BrickStore, T, C: Call<T>>(
    clients: &mut Clients<C>,
    cluster: &mut Cluster,
    stores: &mut [S],
    alloc: Global,
    rows: &T,
) -> Result<bool, AllocError>
    requires sound { IsSound cluster.old }
    requires size { size_of cluster.old ≡ clients.old.options.geometry.n }
    requires sees { (p : Come) × Sees C.stands (tabled C.begins C.goes) cluster.old clients.old p }
    requires stores { length stores.old ≡ size_of cluster.old }
    ensures tells { list_all S.told stores.new ≡ list_all S.told stores.old }
    ensures ok { IfOk result (GoesOn C.stands (tabled C.begins C.goes) (list_all S.told stores.old ≡ true) cluster.old cluster.new clients.old clients.new (map S.records stores.old) (map S.records stores.new)) }
    ensures err { OnErr result (Breaks C.stands (tabled C.begins C.goes) (list_all S.told stores.old ≡ true) (NoneOr (OneStep IsSettling)) cluster.old cluster.new clients.old (map S.records stores.old) (map S.records stores.new)) }
    ensures grows { IfOk result (λ more. more ≡ true → length (log_of cluster.old) < length (log_of cluster.new)) }
{
    match cluster.first() {
        Some(no) => match move_on::<S, T, C>(clients, cluster, stores, alloc, rows, no) {
            Ok(()) => Ok(true),
            Err(_) => Err(AllocError),
        },
        None => match first_stuck::<T, C>(clients, cluster) {
            Some(stuck) => {
                match leave_one::<T, C>(
                    clients,
                    cluster,
                    alloc,
                    rows,
                    stuck.client,
                    stuck.brick,
                    stuck.no,
                ) {
                    Ok(()) => Ok(true),
                    Err(_) => Err(AllocError),
                }
            }
            None => Ok(false),
        },
    }
}

/// Steps until none is left that applies: the lowest message in flight is delivered, or lost where it goes nowhere; where
/// none is in flight, the lowest client that waits in vain gives up the lowest such brick. No client keeps grants.
pub fn settle<S: BrickStore, T, C: Call<T>>(
    clients: &mut Clients<C>,
    cluster: &mut Cluster,
    stores: &mut [S],
    alloc: Global,
    rows: &T,
) -> Result<(), Refused>
    requires sound { IsSound cluster.old }
    requires size { size_of cluster.old ≡ clients.old.options.geometry.n }
    requires sees { (p : Come) × Sees C.stands (tabled C.begins C.goes) cluster.old clients.old p }
    requires many { HasClients clients.old }
    requires stores { length stores.old ≡ size_of cluster.old }
    ensures tells { list_all S.told stores.new ≡ list_all S.told stores.old }
    ensures stepped { Stepped C.stands (tabled C.begins C.goes) (list_all S.told stores.old ≡ true) (OfEvent (size_of cluster.old) Settle) (FirstOfEvent (size_of cluster.old) Settle) cluster.old cluster.new clients.old clients.new (map S.records stores.old) (map S.records stores.new) None result }
    ensures rests { OnOk result (Rests C.stands cluster.new clients.new) }
{
    loop {
        // Each step adds an entry to the log, which never has 2^64 of them.
        let _ = cluster.log().len();
        match settle_step::<S, T, C>(clients, cluster, stores, alloc, rows) {
            Ok(true) => {}
            Ok(false) => return Ok(()),
            Err(_) => return Err(Refused::NoMemory),
        }
    }
}

/// Whether the call of this number that a client runs is over, or is in the phase.
fn is_over<T, C: Call<T>>(clients: &Clients<C>, client: u8, number: u32, phase: Phase) -> bool
    ensures over { IsTrue result → IsPast C.stage C.phase_of clients.now client number phase }
    ensures still { result ≡ false → IsStill C.stage C.phase_of clients.now client number phase }
{
    match clients.running(client) {
        Some(running) => {
            running.number != number || <C as Call<T>>::phase(&running.call) == phase
        }
        None => true,
    }
}

/// Steps of settling until the client's call is over or in the phase, or none is left that applies: no step is taken once
/// the call is so.
pub fn until<S: BrickStore, T, C: Call<T>>(
    clients: &mut Clients<C>,
    cluster: &mut Cluster,
    stores: &mut [S],
    alloc: Global,
    rows: &T,
    client: u8,
    phase: Phase,
) -> Result<(), Refused>
    requires sound { IsSound cluster.old }
    requires size { size_of cluster.old ≡ clients.old.options.geometry.n }
    requires sees { (p : Come) × Sees C.stands (tabled C.begins C.goes) cluster.old clients.old p }
    requires stores { length stores.old ≡ size_of cluster.old }
    ensures tells { list_all S.told stores.new ≡ list_all S.told stores.old }
    ensures stepped { Stepped C.stands (tabled C.begins C.goes) (list_all S.told stores.old ≡ true) (OfUntil C.stands (tabled C.begins C.goes) C.stage C.phase_of (size_of cluster.old) clients.old client phase) (OfUntil C.stands (tabled C.begins C.goes) C.stage C.phase_of (size_of cluster.old) clients.old client phase) cluster.old cluster.new clients.old clients.new (map S.records stores.old) (map S.records stores.new) (until_refusal clients.old client) result }
    ensures ends { OnOk result (Rests C.stands cluster.new clients.new ⊎ ((number : ℕ) × IsCallOf clients.old client number × IsPast C.stage C.phase_of clients.new client number phase)) }
{
    if clients.is_dead(client) {
        return Err(Refused::Dead(client));
    }
    let number = match clients.running(client) {
        Some(running) => running.number,
        None => return Err(Refused::Idle(client)),
    };
    loop {
        // Each step adds an entry to the log, which never has 2^64 of them.
        let _ = cluster.log().len();
        if is_over::<T, C>(clients, client, number, phase) {
            return Ok(());
        }
        match settle_step::<S, T, C>(clients, cluster, stores, alloc, rows) {
            Ok(true) => {}
            Ok(false) => return Ok(()),
            Err(_) => return Err(Refused::NoMemory),
        }
    }
}
