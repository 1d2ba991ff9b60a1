// The opening of the stores of a volume.
ghost use Rattle.std.specs.Prelude.{◌≡◌, ◌+◌, ◌≤◌, ◌<◌, ◌^◌, ◌⊎◌, None, true, length, map, IfErr, IfOk, IfSome, OnOk};
ghost use Rattle.std.specs.List.{list_all};
ghost use Rattle.ec_brick.specs.Index.{IndexIs};
ghost use Rattle.ec_brick.specs.Opening.{AcceptsAll, IsForeign, IsStartFault, Opens};
ghost use Rattle.ec_brick.specs.StartFault.{is_of_store, start_failed};
ghost use Rattle.ec_brick.specs.State.{indexed};
ghost use Rattle.ec_cluster.specs.Matches.{Matches};
ghost use Rattle.ec_cluster.specs.Sound.{IsSound};
ghost use Rattle.ec_history.specs.Run.{fresh};
ghost use Rattle.ec_store.specs.Does.{HasFaultCause};
ghost use Rattle.ec_cluster.specs.Open.{AreAccepted, AreKept, AreLater, AreOpened, AreRooted, AreUnused, HasRisen, IsAfterTaken, IsEmpty, IsFaultOf, IsNextGfid, IsOpened, TellsUnused, opened};
ghost use Rattle.ec_cluster.specs.Views.{bricks_of, size_of};

use crate::cluster::Cluster;
use ec_attr::{Config, Gfid};
use ec_brick::{Brick, StartFault, known_laws};
use ec_store::BrickStore;
use ec_wire::{Log, Wire};
use std::alloc::Global;

/// A brick whose store is opened, and the greatest gfid that is taken there, or none where the store is unused.
#[derive(Drop)]
struct Opened {
    brick: Brick,
    last: Option<Gfid>,
}

/// Opens the store of one brick. The store is as before.
fn open_brick<S: BrickStore>(
    alloc: Global,
    config: Config,
    store: &mut S,
) -> Result<Opened, StartFault>
    ensures tells { S.told store.new ≡ S.told store.old }
    ensures same { S.told store.old ≡ true → S.records store.new ≡ S.records store.old }
    ensures opened { IfOk result (λ o. IsOpened config o.brick) }
    ensures index { IfOk result (λ o. S.told store.old ≡ true → IndexIs (indexed o.brick) (S.records store.old)) }
    ensures last { IfOk result (λ o. S.told store.old ≡ true → Opens config (S.records store.old) o.last) }
    ensures accepts { OnOk result (S.told store.old ≡ true → AcceptsAll config (S.records store.old)) }
    ensures range { IfOk result (λ o. IfSome o.last (λ g. (0 < g.0) × (g.0 ≤ 2 ^ 96))) }
    ensures refused { IfErr result (λ e. S.told store.old ≡ true → IsStartFault config (S.records store.old) e) }
    ensures foreign { IfErr result (IsForeign config) }
    ensures cause { HasFaultCause start_failed (S.faults store.old) (S.faults store.new) result }
{
    let mut brick = Brick::new(alloc, config);
    match brick.open_store(store) {
        Ok(last) => Ok(Opened { brick, last }),
        Err(e) => Err(e),
    }
}

/// The bricks of all stores, and the next gfid.
#[derive(Drop)]
struct AllOpened {
    bricks: Vec<Brick>,
    next: u128,
    unused: bool,
}

/// The gfid after the greatest that is taken, at least `next`.
fn next_after(next: u128, last: Option<Gfid>) -> u128
    requires least { 2 ≤ next }
    requires most { next ≤ 2 ^ 96 + 1 }
    requires range { IfSome last (λ g. (0 < g.0) × (g.0 ≤ 2 ^ 96)) }
    ensures grows { next ≤ result }
    ensures most { result ≤ 2 ^ 96 + 1 }
    ensures above { IfSome last (λ g. g.0 < result) }
    ensures none { last ≡ None → result ≡ next }
    ensures least { IfSome last (λ g. (result ≡ next) ⊎ (result ≡ g.0 + 1)) }
{
    match last {
        Some(g) => { if g.0 < next { next } else { g.0 + 1 } }
        None => next,
    }
}

/// Opens the stores in order, and tells the first that is refused.
fn open_all<S: BrickStore>(
    alloc: Global,
    config: Config,
    stores: &mut [S],
) -> Result<AllOpened, (u8, StartFault)>
    requires few { length stores.old ≤ 31 }
    ensures tells { list_all S.told stores.new ≡ list_all S.told stores.old }
    ensures same { list_all S.told stores.old ≡ true → map S.records stores.new ≡ map S.records stores.old }
    ensures many { IfOk result (λ a. length a.bricks.items ≡ length stores.old) }
    ensures opened { IfOk result (λ a. AreOpened (list_all S.told stores.old ≡ true) config a.bricks.items (map S.records stores.old)) }
    ensures next { IfOk result (λ a. IsNextGfid (list_all S.told stores.old ≡ true) (length stores.old) (map S.records stores.old) a.next) }
    ensures after { IfOk result (λ a. list_all S.told stores.old ≡ true → IsAfterTaken (length stores.old) (map S.records stores.old) a.next) }
    ensures unused { IfOk result (λ a. list_all S.told stores.old ≡ true → TellsUnused config (length stores.old) (map S.records stores.old) a.unused) }
    ensures foreign { IfErr result (λ e. (e.0 < length stores.old) × IsForeign config e.1) }
    ensures accepted { OnOk result (list_all S.told stores.old ≡ true → AreAccepted config (length stores.old) (map S.records stores.old)) }
    ensures refused { IfErr result (λ e. list_all S.told stores.old ≡ true → IsFaultOf config (map S.records stores.old) e) }
    ensures first { IfErr result (λ e. list_all S.told stores.old ≡ true → AreAccepted config e.0 (map S.records stores.old)) }
    ensures later { AreLater (map S.faults stores.old) (map S.faults stores.new) }
    ensures cause { IfErr result (HasRisen (map S.faults stores.old) (map S.faults stores.new)) }
{
    let mut bricks = Vec::new(alloc);
    let mut next = 2u128;
    let mut unused = true;
    for b in 0..stores.len() {
        let store = &mut stores[b];
        let opened = match open_brick(alloc, config, store) {
            Ok(opened) => opened,
            Err(e) => return Err((b as u8, e)),
        };
        next = next_after(next, opened.last);
        unused = unused && opened.last.is_none();
        if bricks.push(opened.brick).is_err() {
            return Err((b as u8, StartFault::NoMemory));
        }
    }
    Ok(AllOpened {
        bricks,
        next,
        unused,
    })
}

/// Puts the root's record on each store where there is none.
fn put_roots<S: BrickStore>(
    bricks: &mut Vec<Brick>,
    stores: &mut [S],
    config: Config,
) -> Result<(), (u8, StartFault)>
    requires few { length stores.old ≤ 31 }
    requires many { length bricks.old.items ≡ length stores.old }
    requires opened { AreOpened (list_all S.told stores.old ≡ true) config bricks.old.items (map S.records stores.old) }
    ensures tells { list_all S.told stores.new ≡ list_all S.told stores.old }
    ensures many { length bricks.new.items ≡ length bricks.old.items }
    ensures opened { OnOk result (AreOpened (list_all S.told stores.old ≡ true) config bricks.new.items (map S.records stores.new)) }
    ensures roots { OnOk result (list_all S.told stores.old ≡ true → AreRooted config (length stores.old) (map S.records stores.old) (map S.records stores.new)) }
    ensures refused { IfErr result (λ e. (e.0 < length stores.old) × (is_of_store e.1 ≡ true)) }
    ensures part { IfErr result (λ e. list_all S.told stores.old ≡ true → AreRooted config e.0 (map S.records stores.old) (map S.records stores.new)) }
    ensures later { AreLater (map S.faults stores.old) (map S.faults stores.new) }
    ensures cause { IfErr result (HasRisen (map S.faults stores.old) (map S.faults stores.new)) }
{
    for b in 0..stores.len() {
        let store = &mut stores[b];
        match bricks[b].put_root(store) {
            Ok(()) => {}
            Err(e) => return Err((b as u8, e)),
        }
    }
    Ok(())
}

/// A cluster of these bricks: nothing is in flight, and the log is empty.
fn cluster_of(alloc: Global, bricks: Vec<Brick>) -> Cluster
    ensures bricks { bricks_of result ≡ bricks.items }
    ensures empty { IsEmpty result }
{
    Cluster {
        bricks,
        wire: Wire::new(alloc),
        log: Log::new(alloc),
        places: Vec::new(alloc),
    }
}

impl Cluster {
    /// Opens the stores in order and, only where all of them are unused, puts the root's record on each. It gives the next
    /// gfid with the cluster, the least from 2 on that is above each gfid that is taken in a store. A refusal tells the
    /// store; where a root can't be put those before it have theirs.
    pub fn open<S: BrickStore>(
        alloc: Global,
        config: Config,
        stores: &mut [S],
    ) -> Result<(Cluster, u128), (u8, StartFault)>
        requires few { length stores.old ≤ 31 }
        ensures tells { list_all S.told stores.new ≡ list_all S.told stores.old }
        ensures sound { IfOk result (λ r. IsSound r.0) }
        ensures size { IfOk result (λ r. size_of r.0 ≡ length stores.old) }
        ensures empty { IfOk result (λ r. IsEmpty r.0) }
        ensures matches { IfOk result (λ r. list_all S.told stores.old ≡ true → Matches r.0 (map S.records stores.new) (fresh (opened config (map S.records stores.new)))) }
        ensures next { IfOk result (λ r. IsNextGfid (list_all S.told stores.old ≡ true) (length stores.old) (map S.records stores.old) r.1) }
        ensures records { OnOk result (list_all S.told stores.old ≡ true → AreKept config (length stores.old) (map S.records stores.old) (map S.records stores.new)) }
        ensures refused { IfErr result (λ e. (e.0 < length stores.old) × IsForeign config e.1) }

        // Roots are put exactly where all stores are unused.
        ensures roots { OnOk result (list_all S.told stores.old ≡ true → AreUnused config (length stores.old) (map S.records stores.old) → AreRooted config (length stores.old) (map S.records stores.old) (map S.records stores.new)) }
        ensures kept { list_all S.told stores.old ≡ true → ¬ (AreUnused config (length stores.old) (map S.records stores.old)) → map S.records stores.new ≡ map S.records stores.old }
        ensures part { IfErr result (λ e. list_all S.told stores.old ≡ true → (map S.records stores.new ≡ map S.records stores.old) ⊎ AreRooted config e.0 (map S.records stores.old) (map S.records stores.new)) }

        // With `next` the next gfid is the least one from 2 on that is above all that are taken.
        ensures after { IfOk result (λ r. list_all S.told stores.old ≡ true → IsAfterTaken (length stores.old) (map S.records stores.old) r.1) }

        // Which head is refused: one of the first store that has such. A store that failed has counted it, and no count
        // falls.
        ensures later { AreLater (map S.faults stores.old) (map S.faults stores.new) }
        ensures head { IfErr result (λ e. list_all S.told stores.old ≡ true → IsFaultOf config (map S.records stores.old) e) }
        ensures first { IfErr result (λ e. list_all S.told stores.old ≡ true → AreAccepted config e.0 (map S.records stores.old)) }
        ensures accepted { OnOk result (list_all S.told stores.old ≡ true → AreAccepted config (length stores.old) (map S.records stores.old)) }
        ensures cause { IfErr result (HasRisen (map S.faults stores.old) (map S.faults stores.new)) }
    {
        known_laws();
        let mut all = match open_all(alloc, config, stores) {
            Ok(all) => all,
            Err(e) => return Err(e),
        };
        if !all.unused {
            return Ok((cluster_of(alloc, all.bricks), all.next));
        }
        match put_roots(&mut all.bricks, stores, config) {
            Ok(()) => Ok((cluster_of(alloc, all.bricks), all.next)),
            Err(e) => Err(e),
        }
    }
}
