// The chunks of the new stripes.
ghost use Rattle.std.specs.Prelude.{◌≡◌, ◌+◌, ◌*◌, ◌^◌, ◌<◌, ◌≤◌, ℕ, length, slice_index, IfOk};
ghost use Rattle.ec_field.specs.Chunk.{IsChunk};
ghost use Rattle.ec_field.specs.Code.{chunk_at};
ghost use Rattle.ec_write.specs.Range.{count_stripes as count_of, new_byte};
ghost use Rattle.ec_write.specs.Filled.{AreFilled};

use crate::place::{count_stripes, head_of, kept_bytes, reach};
use ec_field::Chunk;
use std::alloc::{AllocError, Global};

/// The byte at a place of the new stripes.
fn new_byte(k: u8, off: u64, bytes: &[u8], size: u64, old: u8, at: u128) -> u8
    requires { 0 < k }
    ensures { result ≡ new_byte k off bytes.now size old at }
{
    let head = u128::from(head_of(k, off));
    if head <= at && at < reach(k, off, bytes.len()) {
        bytes[(at - head) as usize]
    } else if at < u128::from(kept_bytes(k, off, size)) {
        old
    } else {
        0
    }
}

/// A chunk of bytes of the call alone.
fn whole_chunk(bytes: &[u8], from: usize) -> Chunk
    requires { from + 512 ≤ length bytes.now }
    ensures chunk { IsChunk result }
    ensures bytes { (q : ℕ) → q < 512 → slice_index result q ≡ slice_index bytes.now (from + q) }
{
    let mut chunk = [0u8; 512];
    chunk.copy_from_slice(&bytes[from..from + 512]);
    Chunk::from_array(chunk)
}

/// A chunk of which some bytes are the old ones.
fn mixed_chunk(k: u8, off: u64, bytes: &[u8], size: u64, old: &Chunk, from: u128) -> Chunk
    requires k { 0 < k }
    requires from { from < 2 ^ 100 }
    ensures chunk { IsChunk result }
    ensures bytes { (q : ℕ) → q < 512 → slice_index result q ≡ new_byte k off bytes.now size (slice_index old.now q) (from + q) }
{
    let mut chunk = [0u8; 512];
    for q in 0..512usize {
        chunk[q] = new_byte(k, off, bytes, size, old.bytes()[q], from + q as u128);
    }
    Chunk::from_array(chunk)
}

/// The chunk from a place of the new stripes on.
fn new_chunk(k: u8, off: u64, bytes: &[u8], size: u64, old: &Chunk, from: u128) -> Chunk
    requires k { 0 < k }
    requires from { from < 2 ^ 100 }
    ensures chunk { IsChunk result }
    ensures bytes { (q : ℕ) → q < 512 → slice_index result q ≡ new_byte k off bytes.now size (slice_index old.now q) (from + q) }
{
    let head = u128::from(head_of(k, off));
    if head <= from && from + 512 <= reach(k, off, bytes.len()) {
        whole_chunk(bytes, (from - head) as usize)
    } else {
        mixed_chunk(k, off, bytes, size, old, from)
    }
}

/// The chunk at a place of a stripe, zeros where there is none.
fn chunk_or_zero(stripe: &[Chunk], j: usize) -> Chunk
    ensures { (q : ℕ) → q < 512 → slice_index result q ≡ slice_index (chunk_at stripe.now j) q }
{
    if j < stripe.len() {
        stripe[j]
    } else {
        Chunk::zero()
    }
}

/// The chunks of the new stripes, one stripe after another: `front` is the first stripe as it was, `back` the last one.
pub fn new_chunks(
    alloc: Global,
    k: u8,
    off: u64,
    bytes: &[u8],
    size: u64,
    front: &[Chunk],
    back: &[Chunk],
) -> Result<Vec<Chunk>, AllocError>
    requires { 0 < k }
    ensures { IfOk result (λ chunks. AreFilled k off bytes.now size front.now back.now (k * count_of k off (length bytes.now)) chunks.items) }
{
    let width = usize::from(k);
    let total = width * count_stripes(k, off, bytes.len()) as usize;
    let mut chunks = Vec::with_capacity(alloc, total)?;
    for m in 0..total {
        let old = if m < width {
            chunk_or_zero(front, m % width)
        } else {
            chunk_or_zero(back, m % width)
        };
        chunks.push(new_chunk(k, off, bytes, size, &old, 512 * m as u128))?;
    }
    Ok(chunks)
}
