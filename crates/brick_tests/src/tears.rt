// Writes that are cut short.
ghost use Rattle.std.specs.Prelude.{◌≡◌, IfOk, length};

use crate::records::{brick_of, head_of, put};
use ec_attr::{Domain, Gfid, Kind, LockKind};
use ec_brick::Brick;
use ec_field::Chunk;
use ec_store::{BrickStore, Fail as StoreFail, FailList, MemStore};
use ec_wire::{ChunkList, Reply, Request};
use std::alloc::Global;
use std::process::Abort;
use std::test::Fail;

/// Two chunks of this byte.
fn two_chunks(alloc: Global, byte: u8) -> Result<ChunkList, Fail>
    ensures { IfOk result (λ l. length l ≡ 2) }
{
    let mut chunks = ChunkList::new(alloc);
    chunks.push(Chunk::from_array([byte; 512]))?;
    chunks.push(Chunk::from_array([byte; 512]))?;
    Ok(chunks)
}

/// Asks for the Inode lock of gfid 5 as message 1.
fn ask(rt: &impl Abort, brick: &mut Brick, store: &mut MemStore) {
    let request = Request::Ask {
        gfid: Gfid(5),
        domain: Domain::Inode,
        kind: LockKind::Exclusive,
    };
    assert!(rt; brick.up() && brick.execute(store, 1, 1, &request).is_ok());
}

/// Puts a record of gfid 5 at version 3, a file with two chunks of ones or an empty directory.
fn put_record(
    rt: &(impl Abort + AllocGlobal),
    store: &mut MemStore,
    kind: Kind,
) -> Result<(), Fail> {
    put(rt, store, 5, &head_of(rt, kind, 3, 0));
    if kind == Kind::File {
        let ones = [1; 512];
        assert!(rt; store.write_part(Gfid(5), 0, &ones).is_ok());
        assert!(rt; store.write_part(Gfid(5), 512, &ones).is_ok());
    }
    Ok(())
}

/// Cuts a write of two chunks of sevens short.
fn tear(
    rt: &(impl Abort + AllocGlobal),
    brick: &mut Brick,
    store: &mut MemStore,
    n: u32,
) -> Result<Option<u64>, Fail> {
    let request = Request::WriteChunks {
        gfid: Gfid(5),
        grant: 1,
        first: 0,
        chunks: two_chunks(rt.alloc(), 7)?,
    };
    assert!(rt; brick.up() && n <= 1024);
    Ok(brick.tear(store, 2, &request, n)?)
}

/// Whether two chunks have sevens as their first `n` bytes and else ones.
fn are_sevens(chunks: &ChunkList, n: u32) -> bool {
    let mut at = 0u32;
    for chunk in chunks.items() {
        for byte in chunk.bytes() {
            let wanted = if at < n { 7 } else { 1 };
            if *byte != wanted {
                return false;
            }
            at = at.saturating_add(1);
        }
    }
    at == 1024
}

/// Whether the first `n` bytes are sevens and the others ones, once the brick has come back.
fn has_sevens(rt: &impl Abort, brick: &mut Brick, store: &mut MemStore, n: u32) -> bool {
    brick.start();
    ask(rt, brick, store);
    let request = Request::ReadChunks {
        gfid: Gfid(5),
        grant: 1,
        first: 0,
        count: 2,
    };
    assert!(rt; brick.up());
    let effects = brick.execute(store, 1, 2, &request).expect(rt, "memory");
    match &effects.reply {
        Some(Reply::Chunks(list)) => are_sevens(list, n),
        _ => false,
    }
}

#[test]
fn the_first_bytes_are_written(rt: HostRuntime) -> Result<(), Fail> {
    for n in [0u32, 1, 511, 512, 1024] {
        let mut store = MemStore::steady(rt.alloc());
        let mut brick = brick_of(&rt);
        put_record(&rt, &mut store, Kind::File)?;
        ask(&rt, &mut brick, &mut store);
        assert_eq!(rt; tear(&rt, &mut brick, &mut store, n)?, Some(3));
        assert!(rt;
            !brick.up()
                && !brick
                    .locks()
                    .holds(1, Gfid(5), Domain::Inode, LockKind::Shared)
        );
        assert!(rt; has_sevens(&rt, &mut brick, &mut store, n), "{n} bytes");
    }
    Ok(())
}

/// With no grant no head is read, and a directory is not written to. The store in memory fails before it writes.
#[test]
fn what_is_refused_is_not_written(rt: HostRuntime) -> Result<(), Fail> {
    let mut store = MemStore::steady(rt.alloc());
    let mut brick = brick_of(&rt);
    put_record(&rt, &mut store, Kind::File)?;
    assert_eq!(rt; tear(&rt, &mut brick, &mut store, 1024)?, None);
    assert!(rt; has_sevens(&rt, &mut brick, &mut store, 0));
    let mut store = MemStore::steady(rt.alloc());
    let mut brick = brick_of(&rt);
    put_record(&rt, &mut store, Kind::Dir)?;
    ask(&rt, &mut brick, &mut store);
    assert_eq!(rt; tear(&rt, &mut brick, &mut store, 1024)?, Some(3));
    for (call, version) in [(1, None), (2, Some(3))] {
        let mut steady = MemStore::steady(rt.alloc());
        put_record(&rt, &mut steady, Kind::File)?;
        let mut fails = FailList::new(rt.alloc());
        fails.push(StoreFail::Call(steady.calls().saturating_add(call)))?;
        let mut store = MemStore::new(rt.alloc(), fails);
        let mut brick = brick_of(&rt);
        put_record(&rt, &mut store, Kind::File)?;
        ask(&rt, &mut brick, &mut store);
        assert_eq!(rt; tear(&rt, &mut brick, &mut store, 1024)?, version);
        assert!(rt; !brick.up() && store.faults() == 1);
        assert!(rt; has_sevens(&rt, &mut brick, &mut store, 0));
    }
    Ok(())
}
