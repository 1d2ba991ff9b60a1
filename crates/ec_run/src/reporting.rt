// Reports of the bricks of a volume.
ghost use Rattle.std.specs.Prelude.{◌≡◌, ◌≢◌, ℕ, Err, Option, List, false, length, map, slice_index, string_bytes, true, IfErr, IfOk};
ghost use Rattle.std.specs.Io.KnownBytes.{Keeps};
ghost use Rattle.std.specs.List.{list_all};
ghost use Rattle.ec_play.specs.Statuses.{is_refusal};
ghost use Rattle.ec_run.specs.Reports.{EndsReported, IsTold, IsWritten, fault_status};
ghost use Rattle.ec_run.specs.Run.{is_before_opening};
ghost use Rattle.ec_store.specs.Causes.{Rose};

use crate::starting::status_of_start;
use ec_play::{Status, WriteError, write_all};
use ec_report::CheckFault;
use ec_store::{BrickStore, Sink};
use ec_volfile::Volume;
use ec_world::World;
use std::alloc::Global;

/// What is reported of the bricks of a volume.
#[derive(Clone, Copy, Debug, PartialEq, Eq)]
pub enum Report {
    /// The ids in each brick's index.
    Info,
    /// What each brick has of every id.
    Check,
}

/// The status of a run whose report can't be made.
fn status_of_fault(fault: CheckFault) -> Status
    ensures { result ≡ fault_status fault }
{
    match fault {
        CheckFault::Store(brick) => Status::StoreFault(brick),
        CheckFault::NoMemory => Status::NoMemory,
    }
}

/// Opens the stores of a volume's bricks and makes the text of a report of them, or tells the status of a run that
/// can't.
fn report_text<B: BrickStore>(
    alloc: Global,
    report: Report,
    volume: &Volume,
    stores: &mut [B],
) -> Result<String, Status>
    requires count { length stores.old ≡ volume.now.geometry.n }
    ensures tells { list_all B.told stores.new ≡ list_all B.told stores.old }
    ensures text { IfOk result (λ text.
        IsTold (list_all B.told stores.old ≡ true) report volume.now (map B.records stores.old)
        (map B.records stores.new) (string_bytes text)) }
    ensures ends { IfErr result (λ how. (known : Option (List ℕ))
        → EndsReported (list_all B.told stores.old ≡ true) report volume.now (map B.records stores.old)
        (map B.records stores.new) how known known) }
    ensures unwritten { result ≢ Err Status.WriteFault }
    ensures store { (b : ℕ) → result ≡ Err (Status.StoreFault b)
        → Rose (slice_index (map B.faults stores.old) b) (slice_index (map B.faults stores.new) b) }
{
    let world = match World::start(alloc, volume, stores) {
        Ok(world) => world,
        Err((brick, fault)) => return Err(status_of_start(brick, fault)),
    };
    match report {
        Report::Info => match world.info_text() {
            Ok(text) => Ok(text),
            Err(_) => Err(Status::NoMemory),
        },
        Report::Check => match world.check_text(stores) {
            Ok(text) => Ok(text),
            Err(fault) => Err(status_of_fault(fault)),
        },
    }
}

/// Writes a report, the last of what a run does.
fn write_report<O: Sink>(text: &String, out: &mut O) -> Status
    ensures written { IsWritten result (string_bytes text.now) (O.written out.old) (O.written out.new) }
    ensures cause { result ≡ Status.WriteFault → Rose (O.faults out.old) (O.faults out.new) }
{
    match write_all(out, text.as_bytes()) {
        Ok(()) => Status::Done,
        Err(WriteError::WriteFault) => Status::WriteFault,
        Err(WriteError::NoMemory) => Status::NoMemory,
    }
}

/// Opens the stores of a volume's bricks and writes a report of them. The stores are as opening leaves them.
pub fn start_and_report<O: Sink, B: BrickStore>(
    alloc: Global,
    report: Report,
    volume: &Volume,
    stores: &mut [B],
    out: &mut O,
) -> Status
    requires count { length stores.old ≡ volume.now.geometry.n }
    ensures tells { list_all B.told stores.new ≡ list_all B.told stores.old }
    ensures refused { is_refusal result ≡ true → Keeps (O.written out.old) (O.written out.new) }
    ensures ends { EndsReported (list_all B.told stores.old ≡ true) report volume.now (map B.records stores.old)
        (map B.records stores.new) result (O.written out.old) (O.written out.new) }
    ensures started { is_before_opening result ≡ false }
    ensures read { result ≢ Status.ReadFault }
    ensures write { result ≡ Status.WriteFault → Rose (O.faults out.old) (O.faults out.new) }
    ensures store { (b : ℕ) → result ≡ Status.StoreFault b
        → Rose (slice_index (map B.faults stores.old) b) (slice_index (map B.faults stores.new) b) }
{
    match report_text(alloc, report, volume, stores) {
        Ok(text) => write_report(&text, out),
        Err(status) => status,
    }
}
