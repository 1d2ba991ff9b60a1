// The chunks of a fragment in memory: those that aren't there are zeros.
ghost use Rattle.std.specs.Prelude.{◌≡◌, ℕ, ◌+◌, ◌*◌, ◌-◌, ◌<◌, ◌≤◌, ◌^◌, ◌&&◌, true, cond, ◌==◌, nat_lt, nat_le, is_some, length, slice_index, OnOk, OnErr};
ghost use Rattle.std.specs.BTreeMap.{get};
ghost use Rattle.std.specs.Ordering.{nat_cmp};
ghost use Rattle.ec_field.specs.Chunk.{IsChunk};
ghost use Rattle.ec_store.specs.Memory.{pieces_of};
ghost use Rattle.ec_store.specs.Records.{kept, over};

use ec_field::Chunk;
use std::alloc::AllocError;
use std::collections::BTreeMap;

/// The chunk with the bytes from byte `at` on, as far as they reach it; it begins at byte `base`.
fn overlaid(chunk: &Chunk, base: u64, at: u64, bytes: &[u8]) -> Chunk
    requires base { base < 2 ^ 40 }
    requires room { at + length bytes.now < 2 ^ 40 }
    ensures bytes { (i : ℕ) → slice_index result i
        ≡ cond (nat_lt i 512 && nat_le at (base + i) && nat_lt (base + i) (at + length bytes.now))
        (slice_index bytes.now (base + i - at)) (slice_index chunk.now i) }
{
    let end = at + bytes.len() as u64;
    let mut new = [0u8; 512];
    new.copy_from_slice(chunk.bytes());
    for i in 0..512usize {
        let place = base + i as u64;
        if at <= place && place < end {
            new[i] = bytes[(place - at) as usize];
        }
    }
    Chunk::from_array(new)
}

/// A chunk of zeros.
pub fn zeros() -> Chunk
    ensures { (i : ℕ) → slice_index result i ≡ 0 }
{
    Chunk::zero()
}

/// Makes a chunk that isn't there, so that it can be written without memory. No byte changes by it.
fn room_at(chunks: &mut BTreeMap<u64, Chunk>, s: u64) -> Result<(), AllocError>
    ensures same { (q i : ℕ) → pieces_of chunks.new q i ≡ pieces_of chunks.old q i }
    ensures there { OnOk result (is_some (get nat_cmp chunks.new s) ≡ true) }
    ensures still { (q : ℕ) → is_some (get nat_cmp chunks.old q) ≡ true → is_some (get nat_cmp chunks.new q) ≡ true }
{
    if !chunks.contains_key(&s) {
        chunks.insert(s, zeros())?;
    }
    Ok(())
}

/// The same of the chunks from `first` to before `end`.
fn make_room(chunks: &mut BTreeMap<u64, Chunk>, first: u64, end: u64) -> Result<(), AllocError>
    ensures same { (q i : ℕ) → pieces_of chunks.new q i ≡ pieces_of chunks.old q i }
    ensures there { OnOk result ((q : ℕ) → first ≤ q → q < end → is_some (get nat_cmp chunks.new q) ≡ true) }
{
    for s in first..end {
        room_at(chunks, s)?;
    }
    Ok(())
}

fn write_chunk(chunks: &mut BTreeMap<u64, Chunk>, s: u64, at: u64, bytes: &[u8])
    requires there { is_some (get nat_cmp chunks.old s) ≡ true }
    requires low { s < 2 ^ 30 }
    requires room { at + length bytes.now < 2 ^ 40 }
    ensures bytes { (q i : ℕ) → pieces_of chunks.new q i ≡ cond (q == s) (over (pieces_of chunks.old) at bytes.now q i) (pieces_of chunks.old q i) }
    ensures still { (q : ℕ) → is_some (get nat_cmp chunks.old q) ≡ true → is_some (get nat_cmp chunks.new q) ≡ true }
{
    if let Some(chunk) = chunks.get_mut(&s) {
        overlay(chunk, 512 * s, at, bytes);
    }
}

fn overlay(chunk: &mut Chunk, base: u64, at: u64, bytes: &[u8])
    requires base { base < 2 ^ 40 }
    requires room { at + length bytes.now < 2 ^ 40 }
    ensures bytes { (i : ℕ) → slice_index chunk.new i
        ≡ cond (nat_lt i 512 && nat_le at (base + i) && nat_lt (base + i) (at + length bytes.now))
        (slice_index bytes.now (base + i - at)) (slice_index chunk.old i) }
{
    *chunk = overlaid(chunk, base, at, bytes);
}

fn write_chunks(chunks: &mut BTreeMap<u64, Chunk>, first: u64, end: u64, at: u64, bytes: &[u8])
    requires there { (q : ℕ) → first ≤ q → q < end → is_some (get nat_cmp chunks.old q) ≡ true }
    requires low { end ≤ 2 ^ 30 }
    requires order { first ≤ end }
    requires room { at + length bytes.now < 2 ^ 40 }
    ensures { (q i : ℕ) → pieces_of chunks.new q i ≡ cond (nat_lt q first) (pieces_of chunks.old q i) (cond (nat_lt q end) (over (pieces_of chunks.old) at bytes.now q i) (pieces_of chunks.old q i)) }
{
    for s in first..end {
        write_chunk(chunks, s, at, bytes);
    }
}

/// Writes bytes from byte `at` on. All the memory is taken before a byte changes.
pub fn write(chunks: &mut BTreeMap<u64, Chunk>, at: u64, bytes: &[u8]) -> Result<(), AllocError>
    requires { at + length bytes.now ≤ 2 ^ 39 }
    ensures ok { OnOk result (pieces_of chunks.new ≡ over (pieces_of chunks.old) at bytes.now) }
    ensures err { OnErr result (pieces_of chunks.new ≡ pieces_of chunks.old) }
{
    let first = at / 512;
    let end = (at + bytes.len() as u64 + 511) / 512;
    make_room(chunks, first, end)?;
    write_chunks(chunks, first, end, at, bytes);
    Ok(())
}

/// Drops the chunks from `keep` on, and those past the length.
pub fn cut(chunks: &mut BTreeMap<u64, Chunk>, keep: u64, length: u64)
    ensures { pieces_of chunks.new ≡ kept (pieces_of chunks.old) keep length }
{
    chunks.retain(|s, _| *s < keep && *s < length);
}
