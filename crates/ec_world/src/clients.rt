// Events of clients.
ghost use Rattle.std.specs.Prelude.{◌≡◌, ◌<◌, ◌-◌, ◌^◌, ℕ, List, Option, Some, None, false, length, OnOk};
ghost use Rattle.ec_clients.specs.Come.{Come};
ghost use Rattle.ec_clients.specs.Hearing.{IsReplyAt, IsWaiting};
ghost use Rattle.ec_clients.specs.Owned.{Sees};
ghost use Rattle.ec_clients.specs.Views.{is_dead_at, running_at, slots_of};
ghost use Rattle.ec_cluster.specs.Views.{log_of, size_of};
ghost use Rattle.ec_clients.specs.Calls.{tabled};
ghost use Rattle.ec_cluster.specs.Sound.{IsSound};
ghost use Rattle.ec_store.specs.Records.{Records};
ghost use Rattle.ec_wire.specs.declared.event.Event.TheVariants.{Call as CallOf, Die, GiveUp};
ghost use Rattle.ec_world.specs.Events.{FirstOfEvent, OfEvent, Stepped};
ghost use Rattle.ec_world.specs.Steps.{IsDelivery, IsGivingUp, NoneOr, OneStep};
ghost use Rattle.ec_world.specs.Refusals.{IsAwaitedBy, call_refusal, die_refusal, give_up_refusal, yield_refusal};

use crate::refused::Refused;
use ec_clients::{Begins, Clients, hear_awaited, hear_idle, is_awaited, leave};
use ec_cluster::Cluster;
use ec_txn::Call;
use ec_wire::Op;
use std::alloc::Global;

/// A client dies.
pub fn die<T, C: Call<T>>(
    clients: &mut Clients<C>,
    cluster: &mut Cluster,
    client: u8,
) -> Result<(), Refused>
    requires sound { IsSound cluster.old }
    requires there { client < length clients.old.dead.items }
    ensures { (records : List Records) → Stepped C.stands (tabled C.begins C.goes) (Unit {0}) (OfEvent (size_of cluster.old) (Die client)) (FirstOfEvent (size_of cluster.old) (Die client)) cluster.old cluster.new clients.old clients.new records records (die_refusal clients.old client) result }
{
    if clients.is_dead(client) {
        return Err(Refused::Dead(client));
    }
    match ec_clients::die::<T, C>(clients, cluster, client) {
        Ok(()) => Ok(()),
        Err(_) => Err(Refused::NoMemory),
    }
}

/// A client yields: none keeps grants.
pub fn yield_grants<C>(clients: &Clients<C>, client: u8) -> Refused
    ensures { Some result ≡ yield_refusal clients.now client }
{
    if clients.is_dead(client) {
        Refused::Dead(client)
    } else {
        Refused::NotKeeping(client)
    }
}

/// No call has a greater number.
const LAST_CALL: u32 = 0xffff_ffff;

/// Whether no number is left for another call.
fn are_spent<C>(clients: &Clients<C>) -> bool
    ensures { result ≡ false → clients.now.calls < 2 ^ 32 - 1 }
{
    clients.calls() >= LAST_CALL
}

/// A client calls. Where the numbers of calls are used up it ends as want of memory. `wrong` is the brick with which the bricks
/// that the call names are refused.
pub fn call<T, C: Begins<T>>(
    clients: &mut Clients<C>,
    cluster: &mut Cluster,
    alloc: Global,
    client: u8,
    op: &Op,
    wrong: Option<u8>,
) -> Result<(), Refused>
    requires sound { IsSound cluster.old }
    requires size { size_of cluster.old ≡ clients.old.options.geometry.n }
    requires there { client < length (slots_of clients.old) }
    ensures { (records : List Records) → Stepped C.stands (tabled C.begins C.goes) (Unit {0}) (OfEvent (size_of cluster.old) (CallOf client op.now)) (FirstOfEvent (size_of cluster.old) (CallOf client op.now)) cluster.old cluster.new clients.old clients.new records records (call_refusal clients.old client wrong) result }
{
    if clients.is_dead(client) {
        return Err(Refused::Dead(client));
    }
    match clients.running(client) {
        Some(running) => return Err(Refused::Busy(running.number)),
        None => {}
    }
    match wrong {
        Some(brick) => return Err(Refused::NoBrick(brick)),
        None => {}
    }
    if are_spent(clients) {
        return Err(Refused::NoMemory);
    }
    match ec_clients::begin::<T, C>(clients, cluster, alloc, client, op) {
        Ok(()) => Ok(()),
        Err(_) => Err(Refused::NoMemory),
    }
}

/// A client hears a reply. Its call goes on where it waits for it.
pub fn hear<T, C: Call<T>>(
    clients: &mut Clients<C>,
    cluster: &mut Cluster,
    alloc: Global,
    rows: &T,
    no: u64,
    client: u8,
    call: u32,
    brick: u8,
    re: u64,
) -> Result<(), Refused>
    requires sound { IsSound cluster.old }
    requires size { size_of cluster.old ≡ clients.old.options.geometry.n }
    requires sees { (p : Come) × Sees C.stands (tabled C.begins C.goes) cluster.old clients.old p }
    requires there { IsReplyAt cluster.old no call client brick re }
    requires lives { is_dead_at clients.old client ≡ false }
    ensures stepped { (records : List Records) → Stepped C.stands (tabled C.begins C.goes) (Unit {0}) (OneStep (IsDelivery no)) (NoneOr (OneStep (IsDelivery no))) cluster.old cluster.new clients.old clients.new records records None result }
    ensures grows { OnOk result (length (log_of cluster.old) < length (log_of cluster.new)) }
{
    if is_awaited::<T, C>(clients, client, call, brick, re) {
        match hear_awaited::<T, C>(clients, cluster, alloc, rows, no, client, call, brick, re) {
            Ok(()) => Ok(()),
            Err(_) => Err(Refused::NoMemory),
        }
    } else {
        match hear_idle::<T, C>(clients, cluster, no, client, call, brick, re) {
            Ok(()) => Ok(()),
            Err(_) => Err(Refused::NoMemory),
        }
    }
}

/// A client gives up a brick, of which its call waits for the reply to request `no`.
pub fn leave_one<T, C: Call<T>>(
    clients: &mut Clients<C>,
    cluster: &mut Cluster,
    alloc: Global,
    rows: &T,
    client: u8,
    brick: u8,
    no: u64,
) -> Result<(), Refused>
    requires sound { IsSound cluster.old }
    requires size { size_of cluster.old ≡ clients.old.options.geometry.n }
    requires sees { (p : Come) × Sees C.stands (tabled C.begins C.goes) cluster.old clients.old p }
    requires waiting { IsWaiting C.stands clients.old client brick no }
    requires lives { is_dead_at clients.old client ≡ false }
    ensures stepped { (records : List Records) → Stepped C.stands (tabled C.begins C.goes) (Unit {0}) (OneStep (IsGivingUp client brick no)) (NoneOr (OneStep (IsGivingUp client brick no))) cluster.old cluster.new clients.old clients.new records records None result }
    ensures grows { OnOk result (length (log_of cluster.old) < length (log_of cluster.new)) }
{
    match leave::<T, C>(clients, cluster, alloc, rows, client, brick, no) {
        Ok(()) => Ok(()),
        Err(_) => Err(Refused::NoMemory),
    }
}

/// The number of the request to a brick that the client's call waits for.
pub fn awaited<T, C: Call<T>>(clients: &Clients<C>, client: u8, brick: u8) -> Option<u64>
    ensures { IsAwaitedBy C.stands (running_at clients.now client) brick result }
{
    match clients.running(client) {
        Some(running) => running.call.awaits(brick),
        None => None,
    }
}

/// A client gives up a brick. `number` is that of the request to it that its call waits for.
pub fn give_up<T, C: Call<T>>(
    clients: &mut Clients<C>,
    cluster: &mut Cluster,
    alloc: Global,
    rows: &T,
    client: u8,
    brick: u8,
    number: Option<u64>,
) -> Result<(), Refused>
    requires sound { IsSound cluster.old }
    requires size { size_of cluster.old ≡ clients.old.options.geometry.n }
    requires sees { (p : Come) × Sees C.stands (tabled C.begins C.goes) cluster.old clients.old p }
    requires awaited { IsAwaitedBy C.stands (running_at clients.old client) brick number }
    ensures { (records : List Records) → Stepped C.stands (tabled C.begins C.goes) (Unit {0}) (OfEvent (size_of cluster.old) (GiveUp client brick)) (FirstOfEvent (size_of cluster.old) (GiveUp client brick)) cluster.old cluster.new clients.old clients.new records records (give_up_refusal cluster.old clients.old client brick number) result }
{
    if usize::from(brick) >= cluster.bricks().len() {
        return Err(Refused::NoBrick(brick));
    }
    if clients.is_dead(client) {
        return Err(Refused::Dead(client));
    }
    match number {
        Some(no) => leave_one::<T, C>(clients, cluster, alloc, rows, client, brick, no),
        None => Err(Refused::NotAsked { client, brick }),
    }
}
