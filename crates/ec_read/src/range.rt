// Which bytes a read gives, and what is read for them.
ghost use Rattle.std.specs.Prelude.{◌≡◌, ◌-◌, ◌*◌, ◌+◌, ◌<◌, ◌≤◌, ◌^◌};
ghost use Rattle.ec_read.specs.Range.{end_of, reading_by, start_by};

use ec_attr::{BrickSet, Geometry, Gfid, Policy};
use ec_txn::{Ctx, Reading};

/// The bytes that a file has at most.
const MOST: u64 = 1 << 40;

/// Where the bytes end that lie below the size.
pub fn end_of(off: u64, len: u64, size: u64) -> u64
    ensures value { result ≡ end_of off len size }
    ensures most { result ≤ 2 ^ 40 }
{
    off.saturating_add(len).min(size.min(MOST))
}

/// The bytes of a stripe.
pub fn stripe_bytes(geometry: &Geometry) -> u64
    ensures value { result ≡ 512 * (geometry.now.n - geometry.now.r) }
    ensures least { 1024 ≤ result }
    ensures most { result ≤ 8192 }
{
    512 * u64::from(geometry.k())
}

/// The brick from which on a read chooses.
fn start_by(ctx: &Ctx, gfid: Gfid) -> u8
    ensures value { result ≡ start_by ctx.now.policy ctx.now.call gfid.0 ctx.now.geometry.n }
    ensures below { result < 31 }
{
    let bricks = ctx.geometry.n;
    match ctx.policy {
        Policy::RoundRobin => (ctx.call.saturating_sub(1) % u32::from(bricks)) as u8,
        Policy::GfidHash => (gfid.0 % u128::from(bricks)) as u8,
    }
}

/// What is read of the bricks `among` for the bytes of a file of this size.
pub fn reading_by(ctx: &Ctx, gfid: Gfid, off: u64, len: u64, among: &BrickSet, size: u64) -> Reading
    ensures value { result ≡ reading_by ctx.now gfid.0 (ctx.now.geometry.n - ctx.now.geometry.r) off len among.now size }
    ensures start { result.start < 31 }
    ensures few { 0 < result.count → result.first + result.count ≤ 2 ^ 30 }
{
    let bytes = stripe_bytes(&ctx.geometry);
    let first = off / bytes;
    let past = end_of(off, len, size).saturating_sub(1) / bytes + 1;
    Reading {
        among: *among,
        start: start_by(ctx, gfid),
        first,
        count: past.saturating_sub(first) as u32,
    }
}
