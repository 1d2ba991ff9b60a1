// Reading a volume file.
ghost use Rattle.std.specs.Prelude.{ℕ, ◌^◌, ◌≤◌, length, IfOk, IfErr};
ghost use Rattle.ec_volfile.specs.declared.fault.VolumeFault.{VolumeFault};
ghost use Rattle.ec_volfile.specs.declared.volume.Volume.{Volume};
ghost use Rattle.ec_volfile.specs.Faults.{IsFirstFault, IsFirstFaultOrNoMemory};
ghost use Rattle.ec_volfile.specs.Grammar.{IsVolumeFile};
ghost use Rattle.ec_volfile.specs.Lines.{lines};
ghost use Rattle.ec_volfile.specs.Outline.{Outline, outline};
ghost use Rattle.ec_volfile.specs.Reading.{IsReadAs, Reads};
ghost use Rattle.ec_volfile.specs.Sections.{outcome, run, start};
ghost use Rattle.ec_volfile.specs.Volumes.{HasWords, IsVolume};

use crate::fault::VolumeFault;
use crate::lines::first_line;
use crate::state::State;
use crate::volume::Volume;
use std::alloc::Global;

/// A volume file has no more bytes.
const MOST_BYTES: usize = 1 << 20;

/// The volume that the lines of a file describe.
fn read_lines(alloc: Global, bytes: &[u8]) -> Result<Volume, (u64, VolumeFault)>
    requires { length bytes.now ≤ 2 ^ 20 }
    ensures { Reads result (run start 0 (lines bytes.now)) }
{
    let mut state = State::start();
    let mut rest = bytes;
    let mut number = 0u64;
    while !rest.is_empty() {
        let (line, after) = first_line(rest);
        number += 1;
        match state.step(alloc, line) {
            Ok(next) => state = next,
            Err(fault) => return Err((number, fault)),
        }
        rest = after;
    }
    match state.finish() {
        Ok(volume) => Ok(volume),
        Err(fault) => Err((number, fault)),
    }
}

/// What `read` gives, by the steps of the grammar.
fn read_file(alloc: Global, bytes: &[u8]) -> Result<Volume, (u64, VolumeFault)>
    ensures { Reads result (outcome bytes.now) }
{
    if bytes.len() > MOST_BYTES {
        return Err((0, VolumeFault::TooLong));
    }
    read_lines(alloc, bytes)
}

/// The volume that a volume file describes, or the file's first fault with the number of its line, from 1 on.
pub fn read(alloc: Global, bytes: &[u8]) -> Result<Volume, (u64, VolumeFault)>
    // What is read is in the grammar and has its meaning. What is in the grammar is read, unless memory runs out.
    ensures found { IfOk result (λ v. IsVolumeFile bytes.now (outline v)) }
    ensures only { (o : Outline) → IsVolumeFile bytes.now o → Reads result (Ok o) }

    // What is printed of a volume is read as that volume.
    ensures again { (v : Volume) → IsVolumeFile bytes.now (outline v) → IsReadAs result v }

    // What is refused has this fault first. What has a first fault is refused with it, unless memory runs out.
    ensures fault { IfErr result (λ e. IsFirstFaultOrNoMemory bytes.now e.0 e.1) }
    ensures first { (n : ℕ) (e : VolumeFault) → IsFirstFault bytes.now n e → Reads result (Err (n, e)) }

    // As many different bricks as the geometry says, a cache of at most 10, a window from 1 to 1024.
    ensures volume { IfOk result (λ v. IsVolume (outline v)) }
    ensures words { IfOk result (λ v. HasWords (outline v)) }
{
    read_file(alloc, bytes)
}
