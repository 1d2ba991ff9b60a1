// What is wanted is written out by hand.
ghost use Rattle.std.specs.Prelude.{◌≡◌, ◌≤◌, ◌^◌, length, IfOk, OnOk};
ghost use Rattle.ec_cluster.specs.Sound.{IsSound};
ghost use Rattle.ec_cluster.specs.Views.{can_execute, can_hear, size_of};

mod openings;
mod runs;

use crate::cluster::Cluster;
use ec_attr::{Attr, Config, Dirty, Domain, Geometry, Gfid, Head, Kind, LockKind, Version};
use ec_field::Chunk;
use ec_store::{BrickStore, Fail as StoreFail, FailList, MemStore};
use ec_wire::{Body, ChunkList, Entry, Request};
use std::alloc::Global;
use std::process::Abort;
use std::test::Fail;

/// The file that calls are about.
const FILE: Gfid = Gfid(5);

/// One step. Clients and bricks stand in this order.
#[derive(Clone, Copy)]
enum Step {
    Ask(u8, u8),
    Release(u8, u8, u64),
    Query(u8, u8, u64),
    Write(u8, u8, u64),
    Execute(u64),
    Hear(u64),
    Lose(u64),
    Stop(u8),
    Start(u8),
    Cut(u8, u8),
    Tear(u64, u32),
    Die(u8),
}

fn config_of(rt: &impl Abort, n: u32, r: u32) -> Config {
    Config {
        geometry: Geometry::new(n, r).expect(rt, "a geometry"),
    }
}

/// Puts a file of this gfid at version 3.
fn put_file(rt: &impl Abort, store: &mut MemStore, gfid: Gfid, config: Config) {
    let head = Head {
        kind: Kind::File,
        config,
        version: Version {
            content: 3,
            meta: 0,
        },
        size: 0,
        dirty: Dirty {
            content: 0,
            meta: 0,
        },
        attr: Attr::of_new(Kind::File),
    };
    assert!(rt; store.put_head(gfid, &head).is_ok());
}

/// A store that fails so, or never.
fn store_of(alloc: Global, failing: Option<StoreFail>) -> Result<MemStore, Fail> {
    let mut fails = FailList::new(alloc);
    if let Some(fail) = failing {
        fails.push(fail)?;
    }
    Ok(MemStore::new(alloc, fails))
}

/// Two chunks of sevens.
fn two_chunks(alloc: Global) -> Result<ChunkList, Fail>
    ensures { IfOk result (λ l. length l ≡ 2) }
{
    let mut chunks = ChunkList::new(alloc);
    chunks.push(Chunk::from_array([7; 512]))?;
    chunks.push(Chunk::from_array([7; 512]))?;
    Ok(chunks)
}

fn can_execute(cluster: &Cluster, no: u64) -> bool
    ensures { result ≡ can_execute cluster.now no }
{
    match cluster.get(no) {
        Some(message) => match &message.body {
            Body::ToBrick(_) => cluster.is_up(message.brick),
            Body::ToClient { .. } => false,
        },
        None => false,
    }
}

fn can_hear(cluster: &Cluster, no: u64) -> bool
    ensures { result ≡ can_hear cluster.now no }
{
    match cluster.get(no) {
        Some(message) => match &message.body {
            Body::ToBrick(_) => false,
            Body::ToClient { .. } => true,
        },
        None => false,
    }
}

/// Sends a request in the call of the client's number.
fn ask(rt: &(impl Abort + AllocGlobal), cluster: &mut Cluster, step: Step) -> Result<(), Fail>
    requires sound { IsSound cluster.old }
    requires bricks { size_of cluster.old ≡ 3 }
    ensures sound { OnOk result (IsSound cluster.new) }
    ensures bricks { OnOk result (size_of cluster.new ≡ 3) }
{
    let (client, brick, request) = match step {
        Step::Ask(client, brick) => (
            client,
            brick,
            Request::Ask {
                gfid: FILE,
                domain: Domain::Inode,
                kind: LockKind::Exclusive,
            },
        ),
        Step::Release(client, brick, grant) => {
            (client, brick, Request::Release { gfid: FILE, grant })
        }
        Step::Query(client, brick, grant) => (client, brick, Request::Query { gfid: FILE, grant }),
        _ => panic!(rt; "no request"),
    };
    assert!(rt; brick < 3);
    Ok(cluster.send(u32::from(client), client, brick, request)?)
}

/// Sends a write of two chunks.
fn write(
    rt: &(impl Abort + AllocGlobal),
    cluster: &mut Cluster,
    client: u8,
    brick: u8,
    grant: u64,
) -> Result<(), Fail>
    requires sound { IsSound cluster.old }
    requires bricks { size_of cluster.old ≡ 3 }
    ensures sound { OnOk result (IsSound cluster.new) }
    ensures bricks { OnOk result (size_of cluster.new ≡ 3) }
{
    let request = Request::WriteChunks {
        gfid: FILE,
        grant,
        first: 0,
        chunks: two_chunks(rt.alloc())?,
    };
    assert!(rt; brick < 3);
    Ok(cluster.send(u32::from(client), client, brick, request)?)
}

/// Cuts a write short.
fn tear(
    rt: &impl Abort,
    cluster: &mut Cluster,
    stores: &mut [MemStore],
    no: u64,
    bytes: u32,
) -> Result<(), Fail>
    requires sound { IsSound cluster.old }
    requires bricks { size_of cluster.old ≡ 3 }
    requires stores { length stores.old ≡ 3 }
    ensures sound { OnOk result (IsSound cluster.new) }
    ensures bricks { OnOk result (size_of cluster.new ≡ 3) }
{
    assert!(rt; can_execute(cluster, no));
    match cluster.bytes_in(no) {
        Some(n) => {
            assert!(rt; u64::from(bytes) <= n);
            Ok(cluster.tear(stores, no, bytes)?)
        }
        None => panic!(rt; "no write"),
    }
}

fn obey(
    rt: &(impl Abort + AllocGlobal),
    cluster: &mut Cluster,
    stores: &mut [MemStore],
    step: Step,
) -> Result<(), Fail>
    requires sound { IsSound cluster.old }
    requires bricks { size_of cluster.old ≡ 3 }
    requires stores { length stores.old ≡ 3 }
    ensures sound { OnOk result (IsSound cluster.new) }
    ensures bricks { OnOk result (size_of cluster.new ≡ 3) }
{
    match step {
        Step::Write(client, brick, grant) => write(rt, cluster, client, brick, grant),
        Step::Execute(no) => {
            assert!(rt; can_execute(cluster, no));
            Ok(cluster.execute(stores, no)?)
        }
        Step::Hear(no) => {
            assert!(rt; can_hear(cluster, no));
            let _ = cluster.take_reply(no)?;
            Ok(())
        }
        Step::Lose(no) => {
            assert!(rt; cluster.get(no).is_some());
            Ok(cluster.lose(no)?)
        }
        Step::Stop(brick) => {
            assert!(rt; cluster.is_up(brick));
            Ok(cluster.stop(brick)?)
        }
        Step::Start(brick) => {
            assert!(rt; brick < 3 && !cluster.is_up(brick));
            Ok(cluster.start(brick)?)
        }
        Step::Cut(client, brick) => {
            assert!(rt; cluster.is_up(brick));
            Ok(cluster.cut(client, brick)?)
        }
        Step::Tear(no, bytes) => tear(rt, cluster, stores, no, bytes),
        Step::Die(client) => Ok(cluster.note(Entry::Died { client })?),
        _ => ask(rt, cluster, step),
    }
}
