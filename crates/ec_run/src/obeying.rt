// What a run does over the bricks of a volume, by what its words order.
ghost use Rattle.std.specs.Prelude.{◌≡◌, ℕ, IfSome, Some, [], false, length, map, slice_index, true};
ghost use Rattle.std.specs.Io.KnownBytes.{Keeps};
ghost use Rattle.std.specs.List.{list_all};
ghost use Rattle.ec_play.specs.Statuses.{is_refusal};
ghost use Rattle.ec_play.specs.Taken.{LooksAt, TakesAtMost, most_of_script};
ghost use Rattle.ec_run.specs.Run.{EndsOrdered, is_before_opening, is_report_order};
ghost use Rattle.ec_store.specs.Causes.{Rose};

use crate::reporting::{Report, start_and_report};
use crate::starting::start_and_play;
use ec_bank::{Bank, Combine, Multiply, RowBank};
use ec_play::{Means, Status};
use ec_store::{BrickStore, Sink, Source};
use ec_volfile::Volume;
use ec_wire::Log;
use ec_words::Command;
use ec_world::World;
use std::alloc::Global;

/// Opens the stores of a volume's bricks and does what is ordered.
pub fn start_and_obey<S: Source, O: Sink, B: BrickStore, F: Multiply, G: Combine>(
    alloc: Global,
    command: Command,
    volume: &Volume,
    stores: &mut [B],
    plain: &Bank<F>,
    fused: &RowBank<G>,
    script: &mut S,
    out: &mut O,
    log: &mut Log,
) -> Status
    requires count { length stores.old ≡ volume.now.geometry.n }
    requires empty { log.old ≡ [] }
    ensures tells { list_all B.told stores.new ≡ list_all B.told stores.old }
    ensures refused { is_refusal result ≡ true
        → Keeps (S.left script.old) (S.left script.new) × Keeps (O.written out.old) (O.written out.new)
        × (log.new ≡ []) }
    ensures unasked { is_report_order (Some command) ≡ true → Keeps (S.left script.old) (S.left script.new) }
    ensures ends { IfSome (S.left script.old) (λ input.
        EndsOrdered (⟦<World as Means>⟧.meaning) (list_all B.told stores.old ≡ true) volume.now command
        (map B.records stores.old) (map B.records stores.new) result input (O.written out.old) (O.written out.new)
        log.new) }
    ensures started { is_before_opening result ≡ false }
    ensures taken { TakesAtMost most_of_script (S.left script.old) (S.left script.new) }
    ensures looks { is_report_order (Some command) ≡ false → LooksAt result (S.left script.old) (S.left script.new) }
    ensures read { result ≡ Status.ReadFault → Rose (S.faults script.old) (S.faults script.new) }
    ensures write { result ≡ Status.WriteFault → Rose (O.faults out.old) (O.faults out.new) }
    ensures store { (b : ℕ) → result ≡ Status.StoreFault b
        → Rose (slice_index (map B.faults stores.old) b) (slice_index (map B.faults stores.new) b) }
{
    match command {
        Command::Play { logs } => {
            start_and_play(alloc, logs, volume, stores, plain, fused, script, out, log)
        }
        Command::Info => start_and_report(alloc, Report::Info, volume, stores, out),
        Command::Check => start_and_report(alloc, Report::Check, volume, stores, out),
    }
}
