// The lines that a run writes.
ghost use Rattle.std.specs.Prelude.{◌≡◌, ◌≤◌, ◌++◌, ◌∷◌, [], is_some, string_bytes, IfOk, OnOk, OnErr, IsErrOf};
ghost use Rattle.std.specs.Io.KnownBytes.{Appends};
ghost use Rattle.ec_store.specs.Causes.{Begins, Rose};
ghost use Rattle.ec_wire.specs.Entries.{entry_text};
ghost use Rattle.ec_play.specs.Texts.{entry_line, is_told, open_line, open_text, text_of};

use crate::writer::{WriteError, write_all};
use ec_store::Sink;
use ec_wire::{Entry, entry_text};
use std::alloc::{AllocError, Global};

/// Whether the line of an entry is written: of all entries, or of answers alone.
fn is_told(logs: bool, entry: &Entry) -> bool
    ensures { result ≡ is_told logs entry.now }
{
    if logs {
        return true;
    }
    match entry {
        Entry::Answered { .. } => true,
        _ => false,
    }
}

/// The text of an entry with its newline.
fn line_of(alloc: Global, entry: &Entry) -> Result<String, AllocError>
    ensures { IfOk result (λ text. string_bytes text ≡ entry_text entry.now ++ 10 ∷ []) }
{
    let mut text = entry_text(alloc, entry)?;
    text.push_str("\n")?;
    Ok(text)
}

/// Writes the line of an entry, if it is to be written.
fn write_entry<O: Sink>(
    alloc: Global,
    logs: bool,
    entry: &Entry,
    out: &mut O,
) -> Result<(), WriteError>
    ensures all { OnOk result (Appends (O.written out.old) (O.written out.new) (entry_line logs entry.now)) }
    ensures part { OnErr result (Begins (O.written out.old) (O.written out.new) (entry_line logs entry.now)) }
    ensures told { is_some (O.written out.new) ≡ is_some (O.written out.old) }
    ensures later { O.faults out.old ≤ O.faults out.new }
    ensures cause { IsErrOf result WriteError.WriteFault → Rose (O.faults out.old) (O.faults out.new) }
{
    if !is_told(logs, entry) {
        return Ok(());
    }
    match line_of(alloc, entry) {
        Ok(text) => write_all(out, text.as_bytes()),
        Err(_) => Err(WriteError::NoMemory),
    }
}

/// Writes the lines of entries, in order. After an error a front part of them is written.
pub fn write_entries<O: Sink>(
    alloc: Global,
    logs: bool,
    entries: &[Entry],
    out: &mut O,
) -> Result<(), WriteError>
    ensures all { OnOk result (Appends (O.written out.old) (O.written out.new) (text_of logs entries.now)) }
    ensures part { OnErr result (Begins (O.written out.old) (O.written out.new) (text_of logs entries.now)) }
    ensures told { is_some (O.written out.new) ≡ is_some (O.written out.old) }
    ensures later { O.faults out.old ≤ O.faults out.new }
    ensures cause { IsErrOf result WriteError.WriteFault → Rose (O.faults out.old) (O.faults out.new) }
{
    for entry in entries {
        write_entry(alloc, logs, entry, out)?;
    }
    Ok(())
}

/// The line of a call without an answer.
fn open_line(alloc: Global, call: u32) -> Result<String, AllocError>
    ensures { IfOk result (λ text. string_bytes text ≡ open_line call) }
{
    format!(in alloc; "open {call}\n")
}

/// Writes the line of a call without an answer.
fn write_open_line<O: Sink>(alloc: Global, call: u32, out: &mut O) -> Result<(), WriteError>
    ensures all { OnOk result (Appends (O.written out.old) (O.written out.new) (open_line call)) }
    ensures part { OnErr result (Begins (O.written out.old) (O.written out.new) (open_line call)) }
    ensures told { is_some (O.written out.new) ≡ is_some (O.written out.old) }
    ensures later { O.faults out.old ≤ O.faults out.new }
    ensures cause { IsErrOf result WriteError.WriteFault → Rose (O.faults out.old) (O.faults out.new) }
{
    match open_line(alloc, call) {
        Ok(text) => write_all(out, text.as_bytes()),
        Err(_) => Err(WriteError::NoMemory),
    }
}

/// Writes the lines of calls without an answer, in order. After an error a front part of them is written.
pub fn write_open<O: Sink>(alloc: Global, calls: &[u32], out: &mut O) -> Result<(), WriteError>
    ensures all { OnOk result (Appends (O.written out.old) (O.written out.new) (open_text calls.now)) }
    ensures part { OnErr result (Begins (O.written out.old) (O.written out.new) (open_text calls.now)) }
    ensures told { is_some (O.written out.new) ≡ is_some (O.written out.old) }
    ensures later { O.faults out.old ≤ O.faults out.new }
    ensures cause { IsErrOf result WriteError.WriteFault → Rose (O.faults out.old) (O.faults out.new) }
{
    for call in calls {
        write_open_line(alloc, *call, out)?;
    }
    Ok(())
}
