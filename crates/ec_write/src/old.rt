// The stripe that was read.
ghost use Rattle.std.specs.Prelude.{◌≡◌, ◌-◌, ◌≤◌, ◌<◌, ℕ, length, slice_index, true, IfOk, min};
ghost use Rattle.ec_attr.specs.Bricks.{bricks as bricks_in, count_below, is_in};
ghost use Rattle.ec_field.specs.Code.{chunk_at};
ghost use Rattle.ec_txn.specs.Digest.{place_at};
ghost use Rattle.ec_txn.specs.Replies.{reply_at};
ghost use Rattle.ec_write.specs.Stripes.{IsDecoded, chunk_given, count_gave, gave as gave_at, has_chunk};

use ec_attr::{BrickSet, Geometry};
use ec_bank::RowTimes;
use ec_field::Chunk;
use ec_stripe::decode;
use ec_txn::{Known, Reading};
use ec_wire::{ChunkList, Reply};
use std::alloc::{AllocError, Global};

/// Whether a brick's last reply has a chunk.
fn has_chunk(known: &Known, brick: u8) -> bool
    ensures { result ≡ has_chunk (reply_at known.now.replies.items.items brick) }
{
    if usize::from(brick) >= known.replies.items.len() {
        return false;
    }
    match &known.replies.items[usize::from(brick)] {
        Some(Reply::Chunks(chunks)) => chunks.len() > 0,
        _ => false,
    }
}

/// The first chunk of a brick's last reply, zeros where it has none.
fn chunk_given(known: &Known, brick: u8) -> Chunk
    ensures { result ≡ chunk_given (reply_at known.now.replies.items.items brick) }
{
    if usize::from(brick) >= known.replies.items.len() {
        return Chunk::zero();
    }
    match &known.replies.items[usize::from(brick)] {
        Some(Reply::Chunks(chunks)) => {
            if chunks.len() > 0 {
                chunks.items()[0]
            } else {
                Chunk::zero()
            }
        }
        _ => Chunk::zero(),
    }
}

/// Whether a brick gave the chunk of the stripe that is read.
fn gave(reading: &Reading, known: &Known, brick: u8) -> bool
    requires { brick < 31 }
    ensures { result ≡ gave_at reading.now (place_at known.now.places.items) (reply_at known.now.replies.items.items) brick }
{
    reading.is_done(known, brick) && has_chunk(known, brick)
}

/// How many bricks gave their chunk.
#[tactic(auto, using(ec_attr::proofs::Sets::counting))]
pub fn count_gave(reading: &Reading, known: &Known) -> u8
    ensures { result ≡ count_gave reading.now (place_at known.now.places.items) (reply_at known.now.replies.items.items) }
{
    let mut count = 0;
    for brick in 0..31u8 {
        if gave(reading, known, brick) {
            count += 1;
        }
    }
    count
}

/// The first K bricks that gave their chunk, or all of them where they are fewer.
fn givers(reading: &Reading, known: &Known, k: u8) -> BrickSet
    ensures done { (x : ℕ) → is_in result x ≡ true → gave_at reading.now (place_at known.now.places.items) (reply_at known.now.replies.items.items) x ≡ true }
    ensures below { (x : ℕ) → is_in result x ≡ true → x < 31 }
    ensures many { count_below 31 (is_in result) ≡ min k (count_gave reading.now (place_at known.now.places.items) (reply_at known.now.replies.items.items)) }
{
    let mut bricks = BrickSet::empty();
    let mut count = 0;
    for brick in 0..31u8 {
        if count < k && gave(reading, known, brick) {
            bricks = bricks.plus(brick);
            count += 1;
        }
    }
    bricks
}

/// The chunks that the bricks of a set gave, in rising order of the bricks.
fn gather(known: &Known, which: &BrickSet, pieces: &mut [Chunk])
    requires places { length pieces.old ≡ length (bricks_in which.now) }
    ensures { (i : ℕ) → i < length pieces.old
        → chunk_at pieces.new i ≡ chunk_given (reply_at known.now.replies.items.items (slice_index (bricks_in which.now) i)) }
{
    let mut count = 0;
    for brick in 0..31u8 {
        if which.has(brick) {
            pieces[count] = chunk_given(known, brick);
            count += 1;
        }
    }
}

/// Chunks as a list.
fn listed(alloc: Global, chunks: &[Chunk]) -> Result<ChunkList, AllocError>
    ensures { IfOk result (λ list. list ≡ chunks.now) }
{
    let mut list = ChunkList::new(alloc);
    for j in 0..chunks.len() {
        list.push(chunks[j])?;
    }
    Ok(list)
}

/// The stripe whose codes K bricks gave.
pub fn old_stripe<T: RowTimes>(
    rows: &T,
    alloc: Global,
    geometry: &Geometry,
    reading: &Reading,
    known: &Known,
) -> Result<ChunkList, AllocError>
    requires { geometry.now.n - geometry.now.r ≤ count_gave reading.now (place_at known.now.places.items) (reply_at known.now.replies.items.items) }
    ensures { IfOk result (λ stripe. IsDecoded geometry.now reading.now (place_at known.now.places.items) (reply_at known.now.replies.items.items) stripe) }
{
    let k = geometry.k();
    let which = givers(reading, known, k);
    let mut pieces = vec![in alloc; Chunk::zero(); usize::from(k)]?;
    let mut stripe = vec![in alloc; Chunk::zero(); usize::from(k)]?;
    gather(known, &which, pieces.as_mut_slice());
    decode(
        rows,
        geometry,
        &which,
        pieces.as_slice(),
        stripe.as_mut_slice(),
    );
    listed(alloc, stripe.as_slice())
}
