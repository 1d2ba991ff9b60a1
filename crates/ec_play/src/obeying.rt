// One line of a script.
ghost use Rattle.std.specs.Prelude.{◌≡◌, ◌≤◌, ℕ, List, Option, Some, Ok, true, length, map, is_some, OnOk, IfErr, IsErrOf};
ghost use Rattle.std.specs.List.{list_all};
ghost use Rattle.ec_attr.specs.declared.geometry.Geometry.{Geometry};
ghost use Rattle.ec_history.specs.Run.{Net};
ghost use Rattle.ec_script.specs.Printed.{IsEvent};
ghost use Rattle.ec_store.specs.Causes.{Rose};
ghost use Rattle.ec_wire.specs.declared.event.Event.{Event as EventOf};
ghost use Rattle.ec_play.specs.Going.{ButForMemory, Goes, Obeys, Stopped};
ghost use Rattle.ec_play.specs.Orders.{line_order};

use crate::reader::MOST_LINES;
use crate::stage::Stage;
use crate::status::ScriptWhy;
use crate::texts::write_entries;
use crate::writer::WriteError;
use ec_script::{LineFault, read_line};
use ec_store::{BrickStore, Sink};
use ec_wire::Event;
use ec_world::Refused;
use std::alloc::Global;

/// Why a script goes no further.
#[derive(Clone, Copy, Debug, PartialEq, Eq)]
pub enum Stop {
    /// The line can't be obeyed.
    Bad(ScriptWhy),
    /// The sink failed, or took nothing.
    WriteFault,
    NoMemory,
}

/// Obeys an event and writes the text of its entries: of all, or of the answers alone.
fn obey_event<W: Stage<B, T>, B: BrickStore, T, O: Sink>(
    alloc: Global,
    logs: bool,
    event: &Event,
    stage: &mut W,
    stores: &mut [B],
    rows: &T,
    out: &mut O,
) -> Result<(), Stop>
    requires keeps { W.meaning.keeps stage.old }
    requires stores { length stores.old ≡ W.meaning.bricks stage.old }
    requires event { IsEvent event.now }
    ensures tells { list_all B.told stores.new ≡ list_all B.told stores.old }
    ensures bricks { W.meaning.bricks stage.new ≡ W.meaning.bricks stage.old }
    ensures keeps { OnOk result (W.meaning.keeps stage.new) }
    ensures since { ButForMemory result ((geometry : Geometry) (first : ℕ) → W.meaning.since stage.old geometry first → W.meaning.since stage.new geometry first) }
    ensures ok { OnOk result ((start : Net) (old : Option (List ℕ)) (events : List EventOf)
        → Goes W.meaning (list_all B.told stores.old ≡ true) logs start old events stage.old (map B.records stores.old) (O.written out.old)
        → Obeys W.meaning (list_all B.told stores.old ≡ true) logs start old events (Ok (Some event.now)) stage.new
        (map B.records stores.new) (O.written out.new)) }
    ensures err { IfErr result (λ stop. (start : Net) (old : Option (List ℕ)) (events : List EventOf)
        → Goes W.meaning (list_all B.told stores.old ≡ true) logs start old events stage.old (map B.records stores.old) (O.written out.old)
        → Stopped W.meaning (list_all B.told stores.old ≡ true) logs start old events (Ok (Some event.now)) stage.old stage.new (map B.records stores.new) (O.written out.new) stop) }
    ensures told { is_some (O.written out.new) ≡ is_some (O.written out.old) }
    ensures later { O.faults out.old ≤ O.faults out.new }
    ensures cause { IsErrOf result Stop.WriteFault → Rose (O.faults out.old) (O.faults out.new) }
{
    let before = stage.log().len();
    match stage.step(stores, rows, event) {
        Ok(()) => {}
        Err(Refused::NoMemory) => return Err(Stop::NoMemory),
        Err(why) => return Err(Stop::Bad(ScriptWhy::Event(why))),
    }
    match write_entries(alloc, logs, &stage.log().items()[before..], out) {
        Ok(()) => Ok(()),
        Err(WriteError::WriteFault) => Err(Stop::WriteFault),
        Err(WriteError::NoMemory) => Err(Stop::NoMemory),
    }
}

/// Obeys line number `number`, which is none after the last that a script may have, and writes the text of its event.
pub fn obey<W: Stage<B, T>, B: BrickStore, T, O: Sink>(
    alloc: Global,
    logs: bool,
    number: u64,
    line: &[u8],
    stage: &mut W,
    stores: &mut [B],
    rows: &T,
    out: &mut O,
) -> Result<(), Stop>
    requires keeps { W.meaning.keeps stage.old }
    requires stores { length stores.old ≡ W.meaning.bricks stage.old }
    requires number { number ≤ MOST_LINES }
    ensures tells { list_all B.told stores.new ≡ list_all B.told stores.old }
    ensures bricks { W.meaning.bricks stage.new ≡ W.meaning.bricks stage.old }
    ensures keeps { OnOk result (W.meaning.keeps stage.new) }
    ensures since { ButForMemory result ((geometry : Geometry) (first : ℕ) → W.meaning.since stage.old geometry first → W.meaning.since stage.new geometry first) }
    ensures ok { OnOk result ((start : Net) (old : Option (List ℕ)) (events : List EventOf)
        → Goes W.meaning (list_all B.told stores.old ≡ true) logs start old events stage.old (map B.records stores.old) (O.written out.old)
        → Obeys W.meaning (list_all B.told stores.old ≡ true) logs start old events (line_order number line.now) stage.new (map B.records stores.new) (O.written out.new)) }
    ensures err { IfErr result (λ stop. (start : Net) (old : Option (List ℕ)) (events : List EventOf)
        → Goes W.meaning (list_all B.told stores.old ≡ true) logs start old events stage.old (map B.records stores.old) (O.written out.old)
        → Stopped W.meaning (list_all B.told stores.old ≡ true) logs start old events (line_order number line.now) stage.old stage.new (map B.records stores.new) (O.written out.new) stop) }
    ensures told { is_some (O.written out.new) ≡ is_some (O.written out.old) }
    ensures later { O.faults out.old ≤ O.faults out.new }
    ensures cause { IsErrOf result Stop.WriteFault → Rose (O.faults out.old) (O.faults out.new) }
{
    match read_line(alloc, line) {
        Ok(None) => Ok(()),
        Ok(Some(event)) => obey_event(alloc, logs, &event, stage, stores, rows, out),
        Err(LineFault::NoMemory) => Err(Stop::NoMemory),
        Err(fault) => Err(Stop::Bad(ScriptWhy::Line(fault))),
    }
}
