// Chunks that are read from a store and written to it.
ghost use Rattle.std.specs.Prelude.{◌≡◌, ◌+◌, ◌*◌, ◌^◌, ◌≤◌, IfOk, Some, length, true};
ghost use Rattle.ec_attr.specs.declared.kind.Kind.TheVariants.{File};
ghost use Rattle.ec_brick.specs.Replies.{AreChunks};
ghost use Rattle.ec_brick.specs.Work.{bytes_of};
ghost use Rattle.ec_store.specs.Does.{Does, HasFaultCause, WritesPart, failed};
ghost use Rattle.ec_store.specs.Records.{Record, kind_at};

use ec_attr::Gfid;
use ec_field::Chunk;
use ec_store::{BrickStore, StoreFault};
use ec_wire::ChunkList;
use std::alloc::{AllocError, Global};

/// The bytes of a chunk.
pub const CHUNK: u64 = 512;

/// The bytes of chunks, one after the other.
pub fn bytes_of(alloc: Global, chunks: &ChunkList) -> Result<Vec<u8>, AllocError>
    ensures bytes { IfOk result (λ v. v.items ≡ bytes_of chunks.now) }
    ensures size { IfOk result (λ v. length v.items ≡ 512 * length chunks.now) }
{
    let mut bytes = Vec::new(alloc);
    for c in chunks.items() {
        bytes.extend_from_slice(c.bytes())?;
    }
    Ok(bytes)
}

/// So many chunks of a file from chunk `first` on.
pub fn read_chunks<S: BrickStore>(
    alloc: Global,
    store: &mut S,
    gfid: Gfid,
    first: u64,
    count: u32,
) -> Result<ChunkList, StoreFault>
    requires file { S.told store.old ≡ true → kind_at (S.records store.old) gfid.0 ≡ Some File }
    requires fit { first + count ≤ 2 ^ 30 }
    ensures does { Does (S.told store.old) (S.told store.new) (S.records store.old) (S.records store.new) (S.records store.old) result }
    ensures many { IfOk result (λ l. length l ≡ count) }
    ensures shows { IfOk result (λ l. S.told store.old ≡ true → (r : Record) → S.records store.old gfid.0 ≡ Some r → AreChunks r.piece first count l) }
    ensures cause { HasFaultCause failed (S.faults store.old) (S.faults store.new) result }
{
    let mut list = ChunkList::new(alloc);
    let mut chunk = Chunk::zero();
    for k in 0..count {
        store.read_chunk(gfid, first + u64::from(k), &mut chunk)?;
        if list.push(chunk).is_err() {
            return Err(StoreFault::NoMemory);
        }
    }
    Ok(list)
}

/// Writes chunks of a file from chunk `first` on, in one call of the store.
pub fn write_chunks<S: BrickStore>(
    alloc: Global,
    store: &mut S,
    gfid: Gfid,
    first: u64,
    chunks: &ChunkList,
) -> Result<(), StoreFault>
    requires file { S.told store.old ≡ true → kind_at (S.records store.old) gfid.0 ≡ Some File }
    requires fit { first + length chunks.now ≤ 2 ^ 30 }
    ensures does { WritesPart (S.told store.old) (S.told store.new) (S.records store.old) (S.records store.new) gfid.0 (512 * first) (bytes_of chunks.now) result }
    ensures cause { HasFaultCause failed (S.faults store.old) (S.faults store.new) result }
{
    match bytes_of(alloc, chunks) {
        Ok(bytes) => store.write_part(gfid, CHUNK * first, bytes.as_slice()),
        Err(_) => Err(StoreFault::NoMemory),
    }
}
