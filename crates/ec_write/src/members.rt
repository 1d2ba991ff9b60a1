// What bricks that did all so far are asked for, between the PreOps and the PostOps.
ghost use Rattle.std.specs.Prelude.{◌≡◌, ◌<◌, ◌&&◌, ℕ, IfOk, cond, is_some, nat_lt};
ghost use Rattle.std.specs.declared.option.Option.{Option};
ghost use Rattle.std.specs.declared.option.Option.TheVariants.{None};
ghost use Rattle.ec_conduct.specs.Account.{Account};
ghost use Rattle.ec_conduct.specs.Given.{bricks_of};
ghost use Rattle.ec_txn.specs.Ballot.{is_within, serving_by, under, version_at};
ghost use Rattle.ec_txn.specs.Digest.{Shows, place_at};
ghost use Rattle.ec_txn.specs.Rounds.{subject};
ghost use Rattle.ec_txn.specs.Tables.{IsOf};
ghost use Rattle.ec_write.specs.Stripes.{list_at as list_of};
ghost use Rattle.ec_write.specs.Write.{read_asks, reading_of as reading_at, start_of as start_at, write_request};

use ec_answers::Group;
use ec_attr::{Gfid, Policy};
use ec_txn::{Ctx, Known, Reading, is_within};
use ec_wire::{ChunkList, ItemList, Request};
use std::alloc::{AllocError, Global};

/// The brick from which on K bricks are chosen.
fn start_of(ctx: &Ctx, gfid: Gfid) -> u8
    ensures value { result ≡ start_at ctx.now gfid.0 }
    ensures below { result < 31 }
{
    let bricks = ctx.geometry.n;
    match ctx.policy {
        Policy::RoundRobin => (ctx.call.saturating_sub(1) % u32::from(bricks)) as u8,
        Policy::GfidHash => (gfid.0 % u128::from(bricks)) as u8,
    }
}

/// One stripe is read from the bricks of the group.
pub fn reading_of(ctx: &Ctx, gfid: Gfid, group: &Group, stripe: u64) -> Reading
    ensures { result ≡ reading_at ctx.now gfid.0 group.now stripe }
{
    Reading {
        among: group.bricks,
        start: start_of(ctx, gfid),
        first: stripe,
        count: 1,
    }
}

/// What a stage that reads asks of a brick. A brick from which a stage was begun is below 31.
pub fn chunk_asked(
    ctx: &Ctx,
    gfid: Gfid,
    reading: &Reading,
    known: &Known,
    brick: u8,
) -> Option<Request>
    requires { brick < 31 }
    ensures { (c : Account) → subject c.given.op ≡ gfid.0 → IsOf ctx.now c.given → Shows (subject c.given.op) (bricks_of c.given) known.now c → result ≡ read_asks reading.now c brick }
{
    if reading.start >= 31 {
        return None;
    }
    reading.request(ctx, gfid, known, brick)
}

/// The chunks of a brick.
fn list_at(alloc: Global, lists: &ItemList<ChunkList>, brick: u8) -> Result<ChunkList, AllocError>
    ensures { IfOk result (λ list. list ≡ list_of lists.now brick) }
{
    if usize::from(brick) < lists.len() {
        lists.items()[usize::from(brick)].copy()
    } else {
        Ok(ChunkList::new(alloc))
    }
}

/// The grant of a brick that did all that it was sent in this window.
pub fn serving(known: &Known, brick: u8) -> Option<u64>
    ensures { result ≡ serving_by (place_at known.now.places.items brick) }
{
    let place = known.place(brick);
    if place.failed {
        return None;
    }
    match place.lock {
        Some(lock) if lock.granted => Some(lock.number),
        _ => None,
    }
}

/// Whether a brick is of the group or one of its sinks.
pub fn is_member(group: &Group, brick: u8) -> bool
    requires { brick < 31 }
    ensures { result ≡ is_some (version_at group.now brick) }
{
    group.bricks.has(brick) || group.sinks.has(brick)
}

/// The chunks that a brick is sent, from stripe `first` on.
pub fn chunks_sent(
    ctx: &Ctx,
    gfid: Gfid,
    first: u64,
    group: &Group,
    lists: &ItemList<ChunkList>,
    known: &Known,
    brick: u8,
) -> Result<Option<Request>, AllocError>
    requires { brick < 31 }
    ensures { IfOk result (λ request. request ≡ cond (is_within group.now.head && nat_lt brick ctx.now.geometry.n)
        (under (serving_by (place_at known.now.places.items brick)) (version_at group.now brick) (write_request gfid.0 first (list_of lists.now brick))) None) }
{
    if !is_within(&group.head) || brick >= ctx.geometry.n || !is_member(group, brick) {
        return Ok(None);
    }
    match serving(known, brick) {
        Some(grant) => Ok(Some(Request::WriteChunks {
            gfid,
            grant,
            first,
            chunks: list_at(*known.places.allocator(), lists, brick)?,
        })),
        None => Ok(None),
    }
}
