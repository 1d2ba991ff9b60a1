// The volume of a run: its file, read to its end.
ghost use Rattle.std.specs.Prelude.{◌≡◌, ◌≢◌, ◌⊎◌, ◌≤◌, ℕ, List, [], IfOk, IfErr, IfSome, OnOk, IsErrOf};
ghost use Rattle.ec_volfile.specs.Faults.{IsFirstFaultOrNoMemory};
ghost use Rattle.ec_volfile.specs.Grammar.{IsVolumeFile};
ghost use Rattle.ec_volfile.specs.Outline.{outline};
ghost use Rattle.ec_play.specs.Taken.{TakesAtMost};
ghost use Rattle.ec_store.specs.Causes.{Rose};
ghost use Rattle.ec_run.specs.VolumeText.{IsTextOf, IsRefusedFor, most_of_volume};
ghost use Rattle.ec_run.specs.declared.volume.VolumeError.TheVariants.{ReadFault, NoMemory};

use ec_store::{Failed, Source};
use ec_volfile::{Volume, VolumeFault, read};
use std::alloc::{AllocError, Global};
use std::cmp::min;

/// A volume file has no more bytes; of a longer one a byte more is read.
pub const MOST_VOLUME_BYTES: usize = 1 << 20;

/// How many bytes the source is asked for at a time.
const PIECE: usize = 4096;

/// Why there is no volume.
#[derive(Clone, Copy, Debug, PartialEq, Eq)]
pub enum VolumeError {
    /// The source failed.
    ReadFault,
    /// Line number `line` has the first fault of the file, or none has it where `line` is 0.
    Refused { line: u64, why: VolumeFault },
    /// Memory ran out.
    NoMemory,
}

/// The volume that the bytes of a source describe.
pub fn volume_of<V: Source>(alloc: Global, source: &mut V) -> Result<Volume, VolumeError>
    ensures found { IfSome (V.left source.old) (λ text. IfOk result (λ v. IsVolumeFile text (outline v))) }
    ensures refused { IfSome (V.left source.old) (λ text. IfErr result (IsRefusedFor text)) }
    ensures taken { TakesAtMost most_of_volume (V.left source.old) (V.left source.new) }
    ensures later { V.faults source.old ≤ V.faults source.new }
    ensures cause { IsErrOf result VolumeError.ReadFault → Rose (V.faults source.old) (V.faults source.new) }
{
    let mut bytes = Vec::new(alloc);
    if let Err(e) = read_text(source, &mut bytes) {
        return Err(e);
    }
    match read(alloc, bytes.as_slice()) {
        Ok(volume) => Ok(volume),
        Err((line, why)) => Err(error_of(line, why)),
    }
}

fn error_of(line: u64, why: VolumeFault) -> VolumeError
    ensures refused { (text : List ℕ) → IsFirstFaultOrNoMemory text line why → IsRefusedFor text result }
    ensures other { result ≢ VolumeError.ReadFault }
{
    match why {
        VolumeFault::NoMemory => VolumeError::NoMemory,
        _ => VolumeError::Refused { line, why },
    }
}

/// Reads all that a source has, or one byte more than a volume file may have.
fn read_text<V: Source>(source: &mut V, bytes: &mut Vec<u8>) -> Result<(), VolumeError>
    requires empty { bytes.old.items ≡ [] }
    ensures unread { IfErr result (λ e. e ≡ VolumeError.ReadFault ⊎ e ≡ VolumeError.NoMemory) }
    ensures text { OnOk result (IsTextOf (V.left source.old) bytes.new.items) }
    ensures taken { TakesAtMost most_of_volume (V.left source.old) (V.left source.new) }
    ensures later { V.faults source.old ≤ V.faults source.new }
    ensures cause { IsErrOf result VolumeError.ReadFault → Rose (V.faults source.old) (V.faults source.new) }
{
    let mut buffer = [0u8; PIECE];
    // Each turn but the last reads a byte at least.
    'pieces: for _ in 0..MOST_VOLUME_BYTES + 2 {
        let room = MOST_VOLUME_BYTES + 1 - bytes.len();
        if room == 0 {
            return Ok(());
        }
        let piece = &mut buffer[..min(room, PIECE)];
        let count = source.read(piece)?;
        if count == 0 {
            return Ok(());
        }
        bytes.extend_from_slice(&piece[..count])?;
    }
    unreachable!()
}

impl From<Failed> for VolumeError {
    ghost from_gives = { λ _ e. e ≡ ReadFault };

    fn from(_e: Failed) -> VolumeError {
        VolumeError::ReadFault
    }
}

impl From<AllocError> for VolumeError {
    ghost from_gives = { λ _ e. e ≡ NoMemory };

    fn from(_e: AllocError) -> VolumeError {
        VolumeError::NoMemory
    }
}
