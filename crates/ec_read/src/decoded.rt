// The bytes that the chunks of K bricks decode to.
ghost use Rattle.std.specs.Prelude.{◌≡◌, ℕ, ◌+◌, ◌-◌, ◌*◌, ◌^◌, ◌<◌, ◌≤◌, true, length, slice_index, min, IfOk, OnOk};
ghost use Rattle.ec_attr.specs.Bricks.{bricks as bricks_in, count_below, is_in};
ghost use Rattle.ec_field.specs.Code.{chunk_at};
ghost use Rattle.ec_read.specs.Decoded.{AreBytes, IsDecoded, chunk_given};
ghost use Rattle.ec_read.specs.Stripes.{IsLonger, IsPart};
ghost use Rattle.ec_txn.specs.Digest.{place_at};
ghost use Rattle.ec_txn.specs.ReadPhase.{is_done as is_done_at};
ghost use Rattle.ec_txn.specs.Replies.{reply_at};

use crate::range::stripe_bytes;
use ec_attr::{Blob, BrickSet, Geometry};
use ec_bank::RowTimes;
use ec_field::Chunk;
use ec_stripe::Decoder;
use ec_txn::{Known, Reading};
use ec_wire::Reply;
use std::alloc::{AllocError, Global};

/// The first K bricks that gave their chunks, or all of them where they are fewer.
pub fn givers(reading: &Reading, known: &Known, k: u8) -> BrickSet
    ensures done { (x : ℕ) → is_in result x ≡ true → is_done_at reading.now (place_at known.now.places.items) (reply_at known.now.replies.items.items) x ≡ true }
    ensures many { count_below 31 (is_in result) ≡ min k (count_below 31 (is_done_at reading.now (place_at known.now.places.items) (reply_at known.now.replies.items.items))) }
{
    let mut bricks = BrickSet::empty();
    let mut count = 0;
    for brick in 0..31u8 {
        if count < k && reading.is_done(known, brick) {
            bricks = bricks.plus(brick);
            count += 1;
        }
    }
    bricks
}

/// A chunk of those that a brick replied, zeros where it replied fewer.
fn chunk_given(known: &Known, brick: u8, at: usize) -> Chunk
    ensures { result ≡ chunk_given (reply_at known.now.replies.items.items brick) at }
{
    if usize::from(brick) >= known.replies.items.len() {
        return Chunk::zero();
    }
    match &known.replies.items[usize::from(brick)] {
        Some(Reply::Chunks(chunks)) => {
            if at < chunks.len() {
                chunks.items()[at]
            } else {
                Chunk::zero()
            }
        }
        _ => Chunk::zero(),
    }
}

/// The chunks of one stripe that the bricks of a set gave, in rising order of the bricks.
fn gather(known: &Known, which: &BrickSet, at: usize, pieces: &mut [Chunk])
    requires places { length pieces.old ≡ length (bricks_in which.now) }
    ensures { (i : ℕ) → i < length pieces.old
        → chunk_at pieces.new i ≡ chunk_given (reply_at known.now.replies.items.items (slice_index (bricks_in which.now) i)) at }
{
    let mut count = 0;
    for brick in 0..31u8 {
        if which.has(brick) {
            pieces[count] = chunk_given(known, brick, at);
            count += 1;
        }
    }
}

/// Decodes one stripe.
fn decode_stripe<T: RowTimes>(
    rows: &T,
    decoder: &Decoder,
    known: &Known,
    which: &BrickSet,
    at: usize,
    out: &mut [Chunk],
)
    requires bits { decoder.now.bits ≡ which.now }
    requires few { length (bricks_in which.now) ≤ 16 }
    requires places { length out.old ≡ length (bricks_in which.now) }
    ensures { IsDecoded (length out.old) decoder.now.algorithm which.now (reply_at known.now.replies.items.items) at out.new }
{
    let mut chunks = [Chunk::zero(); 16];
    let pieces = &mut chunks[..out.len()];
    gather(known, which, at, pieces);
    decoder.decode(rows, pieces, out);
}

/// Adds the bytes of a chunk that begins at a place, those from `off` on and before `end`.
fn add_chunk(
    bytes: &mut Blob,
    chunk: &Chunk,
    place: u64,
    off: u64,
    end: u64,
) -> Result<(), AllocError>
    ensures { OnOk result (length bytes.old ≡ min end place - off → IsPart off end place 512 (λ i. slice_index chunk.now i) bytes.old bytes.new) }
{
    let from = off.saturating_sub(place).min(512) as usize;
    let to = end.saturating_sub(place).min(512) as usize;
    if from < to {
        bytes.extend(&chunk.bytes()[from..to])?;
    }
    Ok(())
}

/// Adds the bytes of a stripe that begins at a place, those from `off` on and before `end`.
fn add_stripe(
    bytes: &mut Blob,
    stripe: &[Chunk],
    place: u64,
    off: u64,
    end: u64,
) -> Result<(), AllocError>
    requires few { length stripe.now ≤ 16 }
    requires place { place ≤ 2 ^ 50 }
    ensures { OnOk result (length bytes.old ≡ min end place - off → IsLonger off end place stripe.now bytes.old bytes.new) }
{
    for j in 0..stripe.len() {
        add_chunk(bytes, &stripe[j], place + 512 * j as u64, off, end)?;
    }
    Ok(())
}

/// The bytes from `off` on and before `end`, which the chunks of these K bricks decode to. Each stripe is decoded once.
pub fn decode_bytes<T: RowTimes>(
    rows: &T,
    alloc: Global,
    geometry: &Geometry,
    known: &Known,
    which: &BrickSet,
    reading: &Reading,
    off: u64,
    end: u64,
) -> Result<Blob, AllocError>
    requires which { length (bricks_in which.now) + geometry.now.r ≡ geometry.now.n }
    requires few { 0 < reading.now.count → reading.now.first + reading.now.count ≤ 2 ^ 30 }
    requires first { 512 * (geometry.now.n - geometry.now.r) * reading.now.first ≤ off }
    requires last { off < end → end ≤ 512 * (geometry.now.n - geometry.now.r) * (reading.now.first + reading.now.count) }
    ensures { IfOk result (λ bytes. AreBytes (geometry.now.n - geometry.now.r) geometry.now.algorithm which.now (reply_at known.now.replies.items.items) reading.now.first off end bytes) }
{
    let k = usize::from(geometry.k());
    let size = stripe_bytes(geometry);
    let decoder = Decoder::new(geometry, which);
    let mut chunks = [Chunk::zero(); 16];
    let stripe = &mut chunks[..k];
    let mut bytes = Blob::new(alloc);
    for i in 0..reading.count {
        decode_stripe(rows, &decoder, known, which, i as usize, stripe);
        add_stripe(
            &mut bytes,
            stripe,
            size * (reading.first + u64::from(i)),
            off,
            end,
        )?;
    }
    Ok(bytes)
}
