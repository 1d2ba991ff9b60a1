// The world of a volume.
ghost use Rattle.std.specs.Prelude.{◌≡◌, ◌⊎◌, ◌<◌, ℕ, false, IfErr, IfOk, IsTrue, OnOk, length, map, true};
ghost use Rattle.std.specs.List.{list_all};
ghost use Rattle.ec_brick.specs.Opening.{IsForeign};
ghost use Rattle.ec_brick.specs.State.{State};
ghost use Rattle.ec_clients.specs.Calls.{tabled};
ghost use Rattle.ec_cluster.specs.Open.{AreAccepted, AreKept, AreLater, AreRooted, AreUnused, HasRisen, IsAfterTaken, IsEmpty, IsFaultOf, IsNextGfid, opened};
ghost use Rattle.ec_cluster.specs.Views.{log_of};
ghost use Rattle.ec_attr.specs.declared.config.Config.{Config};
ghost use Rattle.ec_attr.specs.declared.geometry.Geometry.{Geometry};
ghost use Rattle.ec_history.specs.Flat.{Tree};
ghost use Rattle.ec_history.specs.IsRun.{IsRun};
ghost use Rattle.ec_history.specs.Run.{fresh, run};
ghost use Rattle.ec_history.specs.Starts.{IsStart};
ghost use Rattle.ec_store.specs.Records.{Records};
ghost use Rattle.ec_world.specs.Unanswered.{AreUnanswered};
ghost use Rattle.ec_world.specs.Consistency.{AreAllOfVolume, ButForMemory, IsConsistent, BeganWith, ConsistencyLaws};
ghost use Rattle.ec_world.specs.Whole.{IsAs, IsOpen, IsUnbuilt, StaysOpen, Steps, config_of, options_of};
ghost use Rattle.ec_world.specs.World.{FitsEvent};

use crate::obeying::obey;
use crate::refused::Refused;
use crate::unanswered::held_calls;
use ec_attr::Config;
use ec_bank::RowTimes;
use ec_brick::StartFault;
use ec_calls::{AnyCall, is_built};
use ec_clients::{Clients, Options, new_clients, set_next_gfid};
use ec_cluster::Cluster;
use ec_law_answers::answer_laws;
use ec_law_calls::world_laws;
use ec_law_causes::world_cause_laws;
use ec_law_commits::commit_laws;
use ec_law_heads::world_head_laws;
use ec_law_names::world_name_laws;
use ec_law_parts::world_flat_laws;
use ec_law_settled::world_answered_laws;
use ec_law_sizes::world_size_laws;
use ec_law_stands::world_stand_laws;
use ec_law_stripes::world_held_laws;
use ec_store::BrickStore;
use ec_txn::Conduct;
use ec_volfile::Volume;
use ec_wire::{Event, ItemList, Log};
use std::alloc::{AllocError, Global};

/// The bricks, messages and clients of a volume. The stores of the bricks are lent at each call, one for each brick.
#[derive(Drop)]
pub struct World {
    pub(crate) clients: Clients<AnyCall>,
    pub(crate) cluster: Cluster,
    /// How many bricks there are.
    pub(crate) bricks: u8,
    pub(crate) alloc: Global,
}

/// How the records of a volume are coded.
fn config_of(volume: &Volume) -> Config
    ensures { result ≡ config_of volume.now }
{
    Config {
        geometry: volume.geometry,
    }
}

/// After the log of every world that began with bricks of its volume that stand for a tree, versions, commits and answers are consistent at each
/// moment: what is answered as done is committed, by one entry between its call and its answer, K records that agree have the
/// version of the flat file, records at that version hold its closed stripes and names, and the bricks stand for it. It does nothing when it runs.
pub fn consistency_laws()
    ensures { ConsistencyLaws (⟦<AnyCall as Conduct>⟧.stands) (tabled (⟦<AnyCall as Conduct>⟧.begins) (⟦<AnyCall as Conduct>⟧.goes)) }
{
    world_laws();
    answer_laws();
    commit_laws();
    world_flat_laws();
    world_head_laws();
    world_name_laws();
    world_cause_laws();
    world_size_laws();
    world_held_laws();
    world_stand_laws();
    world_answered_laws();
}

/// With what the calls of a volume are begun.
fn options_of(volume: &Volume) -> Options
    ensures { result ≡ options_of volume.now }
{
    Options {
        geometry: volume.geometry,
        policy: volume.policy,
        window: volume.window,
        eager: volume.eager,
    }
}

/// Whether the event is a call of a kind that isn't built.
fn is_unbuilt(event: &Event) -> bool
    ensures yes { IsTrue result → IsUnbuilt event.now }
    ensures not { result ≡ false → ¬ (IsUnbuilt event.now) }
{
    match event {
        Event::Call { op, .. } => !is_built(op),
        _ => false,
    }
}

impl World {
    /// Opens the stores of a volume in order and, only where all of them are unused, puts the root's record on each. A
    /// refusal tells the store; where a root can't be put those before it have theirs. No client has made a call.
    pub fn start<S: BrickStore>(
        alloc: Global,
        volume: &Volume,
        stores: &mut [S],
    ) -> Result<World, (u8, StartFault)>
        requires stores { length stores.old ≡ volume.now.geometry.n }
        ensures tells { list_all S.told stores.new ≡ list_all S.told stores.old }
        ensures open { IfOk result (IsOpen (⟦<AnyCall as Conduct>⟧.stands) (tabled (⟦<AnyCall as Conduct>⟧.begins) (⟦<AnyCall as Conduct>⟧.goes))) }
        ensures bricks { IfOk result (λ w. w.bricks ≡ length stores.old) }
        ensures empty { IfOk result (λ w. IsEmpty w.cluster) }
        ensures from { IfOk result (λ w. BeganWith (⟦<AnyCall as Conduct>⟧.stands) (tabled (⟦<AnyCall as Conduct>⟧.begins) (⟦<AnyCall as Conduct>⟧.goes)) w volume.now.geometry w.clients.next_gfid) }
        ensures options { IfOk result (λ w. w.clients.options ≡ options_of volume.now) }
        ensures stands { IfOk result (λ w. list_all S.told stores.old ≡ true → IsAs (⟦<AnyCall as Conduct>⟧.stands) (tabled (⟦<AnyCall as Conduct>⟧.begins) (⟦<AnyCall as Conduct>⟧.goes)) w (map S.records stores.new) (fresh (opened (config_of volume.now) (map S.records stores.new)))) }

        // The next gfid is the least one from 2 on that is above all that are taken.
        ensures next { IfOk result (λ w. IsNextGfid (list_all S.told stores.old ≡ true) (length stores.old) (map S.records stores.old) w.clients.next_gfid) }
        ensures after { IfOk result (λ w. list_all S.told stores.old ≡ true → IsAfterTaken (length stores.old) (map S.records stores.old) w.clients.next_gfid) }

        // Roots are put exactly where all stores are unused.
        ensures records { OnOk result (list_all S.told stores.old ≡ true → AreKept (config_of volume.now) (length stores.old) (map S.records stores.old) (map S.records stores.new)) }
        ensures roots { OnOk result (list_all S.told stores.old ≡ true → AreUnused (config_of volume.now) (length stores.old) (map S.records stores.old) → AreRooted (config_of volume.now) (length stores.old) (map S.records stores.old) (map S.records stores.new)) }
        ensures kept { list_all S.told stores.old ≡ true → ¬ (AreUnused (config_of volume.now) (length stores.old) (map S.records stores.old)) → map S.records stores.new ≡ map S.records stores.old }
        ensures part { IfErr result (λ e. list_all S.told stores.old ≡ true → (map S.records stores.new ≡ map S.records stores.old) ⊎ AreRooted (config_of volume.now) e.0 (map S.records stores.old) (map S.records stores.new)) }

        // Which head is refused: one of the first store that has such. A store that failed has counted it, and no count
        // falls.
        ensures refused { IfErr result (λ e. (e.0 < length stores.old) × IsForeign (config_of volume.now) e.1) }
        ensures head { IfErr result (λ e. list_all S.told stores.old ≡ true → IsFaultOf (config_of volume.now) (map S.records stores.old) e) }
        ensures first { IfErr result (λ e. list_all S.told stores.old ≡ true → AreAccepted (config_of volume.now) e.0 (map S.records stores.old)) }
        ensures accepted { OnOk result (list_all S.told stores.old ≡ true → AreAccepted (config_of volume.now) (length stores.old) (map S.records stores.old)) }
        ensures cause { IfErr result (HasRisen (map S.faults stores.old) (map S.faults stores.new)) }
        ensures later { AreLater (map S.faults stores.old) (map S.faults stores.new) }
    {
        let mut clients = match new_clients::<AnyCall>(alloc, options_of(volume), 2) {
            Ok(clients) => clients,
            Err(_) => return Err((0, StartFault::NoMemory)),
        };
        match Cluster::open(alloc, config_of(volume), stores) {
            Ok((cluster, next)) => {
                set_next_gfid::<AnyCall>(&mut clients, next);
                Ok(World {
                    clients,
                    cluster,
                    bricks: volume.geometry.n,
                    alloc,
                })
            }
            Err(e) => Err(e),
        }
    }

    /// Obeys an event, or refuses it. A call of a kind that isn't built is refused before all else. After want of memory
    /// the world isn't used further, its log has the entries so far and the stores stand as these say. The 2^32nd call
    /// ends as want of memory.
    pub fn step<S: BrickStore, T: RowTimes>(
        &mut self,
        stores: &mut [S],
        rows: &T,
        event: &Event,
    ) -> Result<(), Refused>
        requires open { IsOpen (⟦<AnyCall as Conduct>⟧.stands) (tabled (⟦<AnyCall as Conduct>⟧.begins) (⟦<AnyCall as Conduct>⟧.goes)) self.old }
        requires stores { length stores.old ≡ self.old.bricks }
        requires fits { FitsEvent event.now }
        ensures tells { list_all S.told stores.new ≡ list_all S.told stores.old }
        ensures same { self.new ≡ record self.old { clients = self.new.clients; cluster = self.new.cluster } }
        ensures steps { Steps (⟦<AnyCall as Conduct>⟧.stands) (tabled (⟦<AnyCall as Conduct>⟧.begins) (⟦<AnyCall as Conduct>⟧.goes)) (list_all S.told stores.old ≡ true) event.now self.old self.new (map S.records stores.old) (map S.records stores.new) result }
        ensures open { StaysOpen (⟦<AnyCall as Conduct>⟧.stands) (tabled (⟦<AnyCall as Conduct>⟧.begins) (⟦<AnyCall as Conduct>⟧.goes)) self.new result }

        // What it was begun with, and that all is consistent: no two attempts have the same version, a commit's is above those of
        // all bricks outside it, K records that agree have that of the flat file, records at it hold its closed stripes and names, the
        // bricks stand for it, each call keeps its conduct, what is answered as done is committed, and each answer has its cause.
        ensures from { (geometry : Geometry) (first : ℕ) → BeganWith (⟦<AnyCall as Conduct>⟧.stands) (tabled (⟦<AnyCall as Conduct>⟧.begins) (⟦<AnyCall as Conduct>⟧.goes)) self.old geometry first → ButForMemory result (BeganWith (⟦<AnyCall as Conduct>⟧.stands) (tabled (⟦<AnyCall as Conduct>⟧.begins) (⟦<AnyCall as Conduct>⟧.goes)) self.new geometry first) }
        ensures consistent { (config : Config) (records : ℕ → Records) (bricks : ℕ → State) (tree : Tree) (next : ℕ)
            → IsStart config records bricks tree next → AreAllOfVolume config records tree → BeganWith (⟦<AnyCall as Conduct>⟧.stands) (tabled (⟦<AnyCall as Conduct>⟧.begins) (⟦<AnyCall as Conduct>⟧.goes)) self.old config.geometry next
            → IsRun config.geometry.n (log_of self.new.cluster) (fresh bricks)
            → ButForMemory result (IsConsistent config records bricks tree next (log_of self.new.cluster)) }
    {
        consistency_laws();
        if is_unbuilt(event) {
            return Err(Refused::Unbuilt);
        }
        obey::<S, T, AnyCall>(
            &mut self.clients,
            &mut self.cluster,
            stores,
            self.alloc,
            rows,
            event,
        )
    }

    /// The gfid that the next create or mkdir takes.
    pub fn next_gfid(&self) -> u128
        ensures { result ≡ self.now.clients.next_gfid }
    {
        self.clients.next_gfid()
    }

    /// The entries so far.
    pub fn log(&self) -> &Log
        ensures { result.now ≡ log_of self.now.cluster }
    {
        self.cluster.log()
    }

    /// The log, where the world isn't used further.
    pub fn finish(self) -> Log
        ensures { result ≡ log_of self.cluster }
    {
        self.cluster.finish()
    }

    /// The numbers of the calls that were made and have no answer, rising. A dead client's call is among them.
    pub fn unanswered(&self) -> Result<ItemList<u32>, AllocError>
        requires { IsOpen (⟦<AnyCall as Conduct>⟧.stands) (tabled (⟦<AnyCall as Conduct>⟧.begins) (⟦<AnyCall as Conduct>⟧.goes)) self.now }
        ensures { IfOk result (λ calls. (bricks : ℕ → State) → AreUnanswered (run (log_of self.now.cluster) (fresh bricks)) calls) }
    {
        match held_calls::<AnyCall>(self.alloc, &self.clients) {
            Ok(calls) => Ok(calls),
            Err(e) => Err(e),
        }
    }
}
