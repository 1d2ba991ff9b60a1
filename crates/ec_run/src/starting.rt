// The opening of the bricks of a volume, and its script.
ghost use Rattle.std.specs.Prelude.{◌≡◌, ◌≢◌, ℕ, IfSome, [], false, length, map, slice_index, true};
ghost use Rattle.std.specs.Io.KnownBytes.{Keeps};
ghost use Rattle.std.specs.List.{list_all};
ghost use Rattle.ec_brick.specs.StartFault.{is_failure};
ghost use Rattle.ec_play.specs.Statuses.{is_refusal};
ghost use Rattle.ec_play.specs.Taken.{LooksAt, TakesAtMost, most_of_script};
ghost use Rattle.ec_run.specs.Run.{is_before_opening};
ghost use Rattle.ec_run.specs.Starts.{EndsStarted, start_status};
ghost use Rattle.ec_store.specs.Causes.{Rose};

use crate::playing::play_world;
use ec_bank::{Bank, Combine, Multiply, RowBank};
use ec_brick::StartFault;
use ec_history::start_laws;
use ec_law_heads::restart_laws;
use ec_law_reads::stripe_laws;
use ec_law_stands::world_stand_laws;
use ec_play::{BricksWhy, Means, Status};
use ec_store::{BrickStore, Sink, Source};
use ec_volfile::{Kernel, Volume};
use ec_wire::Log;
use ec_world::{World, consistency_laws};
use std::alloc::Global;

/// The status of a run whose bricks aren't opened.
pub fn status_of_start(brick: u8, fault: StartFault) -> Status
    ensures status { result ≡ start_status brick fault }
    ensures unread { result ≢ Status.ReadFault }
    ensures unwritten { result ≢ Status.WriteFault }
    ensures store { (b : ℕ) → result ≡ Status.StoreFault b → (b ≡ brick) × (is_failure fault ≡ true) }
{
    match fault {
        StartFault::Failed => Status::StoreFault(brick),
        StartFault::Config(config) => Status::WrongBricks(BricksWhy::Config { brick, config }),
        StartFault::Head(gfid) => Status::WrongBricks(BricksWhy::Head { brick, gfid }),
        StartFault::NoMemory => Status::NoMemory,
    }
}

/// Opens the stores of a volume's bricks and plays a script, with the bank that the volume chooses.
pub fn start_and_play<S: Source, O: Sink, B: BrickStore, F: Multiply, G: Combine>(
    alloc: Global,
    logs: bool,
    volume: &Volume,
    stores: &mut [B],
    plain: &Bank<F>,
    fused: &RowBank<G>,
    script: &mut S,
    out: &mut O,
    log: &mut Log,
) -> Status
    requires count { length stores.old ≡ volume.now.geometry.n }
    requires empty { log.old ≡ [] }
    ensures tells { list_all B.told stores.new ≡ list_all B.told stores.old }
    ensures refused { is_refusal result ≡ true
        → Keeps (S.left script.old) (S.left script.new) × Keeps (O.written out.old) (O.written out.new)
        × (log.new ≡ []) }
    ensures ends { IfSome (S.left script.old) (λ input.
        EndsStarted (⟦<World as Means>⟧.meaning) (list_all B.told stores.old ≡ true) volume.now logs
        (map B.records stores.old) (map B.records stores.new) result input (O.written out.old) (O.written out.new)
        log.new) }
    ensures started { is_before_opening result ≡ false }
    ensures taken { TakesAtMost most_of_script (S.left script.old) (S.left script.new) }
    ensures looks { LooksAt result (S.left script.old) (S.left script.new) }
    ensures read { result ≡ Status.ReadFault → Rose (S.faults script.old) (S.faults script.new) }
    ensures write { result ≡ Status.WriteFault → Rose (O.faults out.old) (O.faults out.new) }
    ensures store { (b : ℕ) → result ≡ Status.StoreFault b
        → Rose (slice_index (map B.faults stores.old) b) (slice_index (map B.faults stores.new) b) }
{
    consistency_laws();
    restart_laws();
    start_laws();
    stripe_laws();
    world_stand_laws();
    let world = match World::start(alloc, volume, stores) {
        Ok(world) => world,
        Err((brick, fault)) => return status_of_start(brick, fault),
    };
    match volume.kernel {
        Kernel::Plain => play_world(alloc, logs, world, stores, plain, script, out, log),
        Kernel::Fused => play_world(alloc, logs, world, stores, fused, script, out, log),
    }
}
