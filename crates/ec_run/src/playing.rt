// A script that is played on a world.
ghost use Rattle.std.specs.Prelude.{◌≡◌, ℕ, IfSome, [], false, length, map, true};
ghost use Rattle.std.specs.List.{list_all};
ghost use Rattle.ec_attr.specs.declared.geometry.Geometry.{Geometry};
ghost use Rattle.ec_brick.specs.State.{State};
ghost use Rattle.ec_history.specs.Run.{fresh};
ghost use Rattle.ec_play.specs.Ends.{Ends};
ghost use Rattle.ec_play.specs.Statuses.{ButForMemoryIn, is_refusal};
ghost use Rattle.ec_play.specs.Taken.{LooksAt, TakesAtMost, most_of_script};
ghost use Rattle.ec_run.specs.Consistency.{IsLogSince};
ghost use Rattle.ec_store.specs.Causes.{Rose};

use ec_bank::RowTimes;
use ec_play::{Means, Status, play};
use ec_store::{BrickStore, Sink, Source};
use ec_wire::Log;
use ec_world::World;
use std::alloc::Global;

/// Plays a script on a world over its stores, and keeps the log.
pub fn play_world<S: Source, O: Sink, B: BrickStore, T: RowTimes>(
    alloc: Global,
    logs: bool,
    world: World,
    stores: &mut [B],
    rows: &T,
    script: &mut S,
    out: &mut O,
    log: &mut Log,
) -> Status
    requires keeps { (⟦<World as Means>⟧.meaning).keeps world }
    requires stores { length stores.old ≡ (⟦<World as Means>⟧.meaning).bricks world }
    requires empty { (⟦<World as Means>⟧.meaning).log world ≡ [] }
    ensures going { is_refusal result ≡ false }
    ensures tells { list_all B.told stores.new ≡ list_all B.told stores.old }

    // The log, what is written and what the stores hold, by the status.
    ensures script { (bricks : ℕ → State)
        → (list_all B.told stores.old ≡ true
        → (⟦<World as Means>⟧.meaning).stands world (map B.records stores.old) (fresh bricks))
        → IfSome (S.left script.old) (λ input.
        Ends (⟦<World as Means>⟧.meaning) (list_all B.told stores.old ≡ true) (length stores.old) logs (fresh bricks)
        result input (O.written out.old) (O.written out.new) log.new (map B.records stores.new)) }

    // But for want of memory, the log is that of a world which was begun as this one.
    ensures since { ButForMemoryIn result ((geometry : Geometry) (first : ℕ) → (⟦<World as Means>⟧.meaning).since world geometry first
        → IsLogSince (⟦<World as Means>⟧.meaning) geometry first log.new) }

    // No more is taken of the script than a line more than it may have, and no more is looked at than the lines that are
    // obeyed and the one after them.
    ensures taken { TakesAtMost most_of_script (S.left script.old) (S.left script.new) }
    ensures looks { LooksAt result (S.left script.old) (S.left script.new) }

    // A fault of the source or the sink.
    ensures read { result ≡ Status.ReadFault → Rose (S.faults script.old) (S.faults script.new) }
    ensures write { result ≡ Status.WriteFault → Rose (O.faults out.old) (O.faults out.new) }
{
    let mut world = world;
    let status = play(alloc, logs, &mut world, stores, rows, script, out);
    *log = world.finish();
    status
}
