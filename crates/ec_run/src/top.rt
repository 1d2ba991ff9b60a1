// The top call.
ghost use Rattle.std.specs.Prelude.{◌≡◌, ◌⊎◌, ℕ, IfSome, None, [], false, map, slice_index, true, vec_len};
ghost use Rattle.std.specs.Io.KnownBytes.{Keeps};
ghost use Rattle.std.specs.List.{list_all};
ghost use Rattle.ec_play.specs.Statuses.{is_refusal};
ghost use Rattle.ec_play.specs.Taken.{LooksAt, TakesAtMost, most_of_script};
ghost use Rattle.ec_run.specs.Run.{EndsRun, is_before_opening, is_report_order};
ghost use Rattle.ec_run.specs.VolumeText.{most_of_volume};
ghost use Rattle.ec_store.specs.Causes.{Rose};
ghost use Rattle.ec_words.specs.Program.{ordered};

use crate::obeying::start_and_obey;
use crate::volume::{VolumeError, volume_of};
use ec_bank::{Bank, Combine, Multiply, RowBank};
use ec_play::{BricksWhy, Means, Status};
use ec_store::{BrickStore, Sink, Source};
use ec_wire::Log;
use ec_words::{WordsFault, command_of};
use ec_world::World;
use std::alloc::Global;

/// Does what the words after the program's name order, over the stores of a volume's bricks: reads the volume file to
/// its end, opens the stores, and plays the script line by line, with the bank that the volume file chooses, or writes
/// a report of the bricks.
///
/// `play`: after each event the text of its answers is written, or where `--log` is among the words that of all its
/// entries, and after the last line `open CALL` for each call without an answer. `info` lists each brick's index,
/// `check` what each brick has of every id. `log` holds the run's log at every exit; a report logs nothing.
pub fn run<V: Source, S: Source, O: Sink, B: BrickStore, F: Multiply, G: Combine>(
    alloc: Global,
    words: &[&str],
    vol: &mut V,
    script: &mut S,
    out: &mut O,
    bricks: &mut Vec<B>,
    plain: &Bank<F>,
    fused: &RowBank<G>,
    log: &mut Log,
) -> Status
    requires empty { log.old ≡ [] }

    // Words that order nothing are bad, and then nothing is read. A report reads no script.
    ensures words { result ≡ Status.BadWords → ordered (map (λ w. w.now) words.now) ≡ None }
    ensures bad_words { ordered (map (λ w. w.now) words.now) ≡ None
        → (result ≡ Status.BadWords) ⊎ (result ≡ Status.NoMemory) }
    ensures unasked { is_report_order (ordered (map (λ w. w.now) words.now)) ≡ true
        → Keeps (S.left script.old) (S.left script.new) }
    ensures unread { result ≡ Status.BadWords → Keeps (V.left vol.old) (V.left vol.new) }

    // With words, a volume file or bricks that are refused, the script isn't read and nothing is written or logged; the
    // bricks are not touched before they are as many as the volume names.
    ensures refused { is_refusal result ≡ true
        → Keeps (S.left script.old) (S.left script.new) × Keeps (O.written out.old) (O.written out.new)
        × (log.new ≡ []) }
    ensures untouched { is_before_opening result ≡ true → bricks.new ≡ bricks.old }

    // What is wrong with the words, the volume file or the bricks, what the log and the stores hold and what is
    // written, by the status.
    ensures run { IfSome (V.left vol.old) (λ file. IfSome (S.left script.old) (λ input.
        EndsRun (⟦<World as Means>⟧.meaning) (list_all B.told bricks.old.items ≡ true) (map (λ w. w.now) words.now)
        file (vec_len bricks.old) (map B.records bricks.old.items) (map B.records bricks.new.items)
        result input (O.written out.old) (O.written out.new) log.new)) }

    // However long they are, no more is taken of the volume file than a byte more than it may have, and of the script
    // than a line more. The lines that are obeyed are at most 2^20, none of them too long; the one after them is looked at
    // no further than its first 2,200,001 bytes.
    ensures volume_taken { TakesAtMost most_of_volume (V.left vol.old) (V.left vol.new) }
    ensures script_taken { TakesAtMost most_of_script (S.left script.old) (S.left script.new) }
    ensures script_lines { is_report_order (ordered (map (λ w. w.now) words.now)) ≡ false
        → LooksAt result (S.left script.old) (S.left script.new) }

    // However the run ends, the bricks are as many, and tell their records or not as before.
    ensures count { vec_len bricks.new ≡ vec_len bricks.old }
    ensures tells { list_all B.told bricks.new.items ≡ list_all B.told bricks.old.items }

    // A fault of a source, the sink or a store.
    ensures read { result ≡ Status.ReadFault
        → Rose (V.faults vol.old) (V.faults vol.new) ⊎ Rose (S.faults script.old) (S.faults script.new) }
    ensures write { result ≡ Status.WriteFault → Rose (O.faults out.old) (O.faults out.new) }
    ensures store { (b : ℕ) → result ≡ Status.StoreFault b
        → Rose (slice_index (map B.faults bricks.old.items) b) (slice_index (map B.faults bricks.new.items) b) }
{
    let command = match command_of(alloc, words) {
        Ok(command) => command,
        Err(WordsFault::Bad) => return Status::BadWords,
        Err(WordsFault::NoMemory) => return Status::NoMemory,
    };
    let volume = match volume_of(alloc, vol) {
        Ok(volume) => volume,
        Err(VolumeError::ReadFault) => return Status::ReadFault,
        Err(VolumeError::Refused { line, why }) => return Status::BadVolume { line, why },
        Err(VolumeError::NoMemory) => return Status::NoMemory,
    };
    let want = volume.geometry.n;
    if bricks.len() != usize::from(want) {
        return Status::WrongBricks(BricksWhy::Count {
            have: bricks.len() as u64,
            want: u64::from(want),
        });
    }
    start_and_obey(
        alloc,
        command,
        &volume,
        bricks.as_mut_slice(),
        plain,
        fused,
        script,
        out,
        log,
    )
}
