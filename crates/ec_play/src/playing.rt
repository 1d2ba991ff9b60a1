// A script that is played.
ghost use Rattle.std.specs.Prelude.{◌≡◌, ◌≢◌, ◌<◌, ◌≤◌, ℕ, List, [], false, true, length, map, IfSome, IsErrOf, is_some};
ghost use Rattle.std.specs.List.{list_all};
ghost use Rattle.ec_attr.specs.declared.geometry.Geometry.{Geometry};
ghost use Rattle.ec_brick.specs.State.{State};
ghost use Rattle.ec_history.specs.Run.{fresh, run};
ghost use Rattle.ec_store.specs.Causes.{Rose};
ghost use Rattle.ec_play.specs.Ends.{Ends};
ghost use Rattle.ec_play.specs.Going.{Finishes};
ghost use Rattle.ec_play.specs.Statuses.{ButForMemoryIn, is_refusal, stop_status};
ghost use Rattle.ec_play.specs.Taken.{LooksAt, StopsAfter, TakesAtMost, most_of_script};

use crate::obeying::{Stop, obey};
use crate::reader::{LineReader, MOST_LINES, ReadError};
use crate::stage::{Means, Stage};
use crate::status::{ScriptWhy, Status};
use crate::texts::write_open;
use crate::writer::WriteError;
use ec_script::LineFault;
use ec_store::{BrickStore, Sink, Source};
use std::alloc::Global;

/// Plays a script line by line, and writes the lines of the answers, or of all entries of the log where `logs` says so.
pub fn play<W: Stage<B, T>, B: BrickStore, T, S: Source, O: Sink>(
    alloc: Global,
    logs: bool,
    stage: &mut W,
    stores: &mut [B],
    rows: &T,
    script: &mut S,
    out: &mut O,
) -> Status
    requires keeps { W.meaning.keeps stage.old }
    requires stores { length stores.old ≡ W.meaning.bricks stage.old }
    requires log { W.meaning.log stage.old ≡ [] }
    ensures going { is_refusal result ≡ false }
    ensures tells { list_all B.told stores.new ≡ list_all B.told stores.old }

    // The log, what is written and what the stores hold, by the status.
    ensures script { (bricks : ℕ → State) → (list_all B.told stores.old ≡ true → W.meaning.stands stage.old (map B.records stores.old) (fresh bricks))
        → IfSome (S.left script.old) (λ input.
        Ends W.meaning (list_all B.told stores.old ≡ true) (W.meaning.bricks stage.old) logs (fresh bricks) result input
        (O.written out.old) (O.written out.new) (W.meaning.log stage.new) (map B.records stores.new)) }

    // But for want of memory, what it was begun with is as before.
    ensures since { ButForMemoryIn result ((geometry : Geometry) (first : ℕ) → W.meaning.since stage.old geometry first → W.meaning.since stage.new geometry first) }

    // No more is taken of the script than a line more than it may have, and no more is looked at than the lines that are
    // obeyed and the one after them.
    ensures taken { TakesAtMost most_of_script (S.left script.old) (S.left script.new) }
    ensures looks { LooksAt result (S.left script.old) (S.left script.new) }

    // A fault of the source or the sink.
    ensures read { result ≡ Status.ReadFault → Rose (S.faults script.old) (S.faults script.new) }
    ensures write { result ≡ Status.WriteFault → Rose (O.faults out.old) (O.faults out.new) }
{
    let mut reader = LineReader::new();
    let mut line = Vec::new(alloc);
    'lines: for number in 1..MOST_LINES + 1 {
        match reader.next_line(script, &mut line) {
            Ok(true) => {}
            Ok(false) => return end(alloc, stage, out),
            Err(ReadError::TooLong) => return bad(number, LineFault::TooLong),
            Err(ReadError::ReadFault) => return Status::ReadFault,
            Err(ReadError::NoMemory) => return Status::NoMemory,
        }
        match obey(
            alloc,
            logs,
            number,
            line.as_slice(),
            stage,
            stores,
            rows,
            out,
        ) {
            Ok(()) => {}
            Err(stop) => return status_of(number, stop),
        }
    }
    // No line may follow the last one that a script may have.
    match reader.has_more(script) {
        Ok(true) => bad(MOST_LINES + 1, LineFault::TooMany),
        Ok(false) => end(alloc, stage, out),
        Err(_) => Status::ReadFault,
    }
}

fn bad(line: u64, fault: LineFault) -> Status
    ensures { result ≡ Status.BadScript line (ScriptWhy.Line fault) }
{
    Status::BadScript {
        line,
        why: ScriptWhy::Line(fault),
    }
}

/// The status of a script that goes no further than a line.
fn status_of(line: u64, stop: Stop) -> Status
    ensures status { result ≡ stop_status line stop }
    ensures going { is_refusal result ≡ false }
    ensures unread { result ≢ Status.ReadFault }
    ensures unwritten { result ≡ Status.WriteFault → stop ≡ Stop.WriteFault }
{
    match stop {
        Stop::Bad(why) => Status::BadScript { line, why },
        Stop::WriteFault => Status::WriteFault,
        Stop::NoMemory => Status::NoMemory,
    }
}

/// Ends a script whose lines are all obeyed: writes the lines of the calls without an answer.
fn end<W: Means, O: Sink>(alloc: Global, stage: &W, out: &mut O) -> Status
    requires keeps { W.meaning.keeps stage.now }
    ensures going { is_refusal result ≡ false }
    ensures unread { result ≢ Status.ReadFault }
    ensures stops { (front : List (List ℕ)) → StopsAfter result front [] }
    ensures text { (bricks : ℕ → State) → Finishes result (run (W.meaning.log stage.now) (fresh bricks)) (O.written out.old) (O.written out.new) }
    ensures later { O.faults out.old ≤ O.faults out.new }
    ensures cause { result ≡ Status.WriteFault → Rose (O.faults out.old) (O.faults out.new) }
{
    let calls = match stage.unanswered() {
        Ok(calls) => calls,
        Err(_) => return Status::NoMemory,
    };
    match write_open(alloc, calls.items(), out) {
        Ok(()) => Status::Done,
        Err(WriteError::WriteFault) => Status::WriteFault,
        Err(WriteError::NoMemory) => Status::NoMemory,
    }
}
