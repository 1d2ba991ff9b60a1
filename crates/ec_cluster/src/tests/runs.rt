// Steps of a cluster, and the texts of their entries.
ghost use Rattle.std.specs.Prelude.{◌≡◌, length};

use crate::cluster::Cluster;
use crate::tests::{FILE, Step, config_of, obey, put_file, store_of};
use ec_attr::Config;
use ec_store::Fail as StoreFail;
use ec_wire::{Entry, entry_text};
use std::process::Abort;
use std::test::Fail;

/// The failure of a store at a call after its opening, counted from 1.
fn failure(
    rt: &(impl Abort + AllocGlobal),
    config: Config,
    call: Option<u64>,
) -> Result<Option<StoreFail>, Fail> {
    let mut steady = [store_of(rt.alloc(), None)?];
    put_file(rt, &mut steady[0], FILE, config);
    assert!(rt; Cluster::open(rt.alloc(), config, &mut steady).is_ok());
    let opened = steady[0].calls();
    Ok(call.map(|k| StoreFail::Call(opened.saturating_add(k))))
}

/// Obeys the steps over three stores with a file at version 3, of which brick 0's fails at this call after its
/// opening. The log has these texts, and
/// of the entries Executed so many say that the store failed.
fn play(
    rt: &(impl Abort + AllocGlobal),
    failing: Option<u64>,
    steps: &[Step],
    wanted: &[&str],
    failed: usize,
) -> Result<(), Fail> {
    let config = config_of(rt, 3, 1);
    let failing = failure(rt, config, failing)?;
    let mut stores = [
        store_of(rt.alloc(), failing)?,
        store_of(rt.alloc(), None)?,
        store_of(rt.alloc(), None)?,
    ];
    for b in 0..3usize {
        put_file(rt, &mut stores[b], FILE, config);
    }
    let mut cluster = match Cluster::open(rt.alloc(), config, &mut stores) {
        Ok((cluster, _)) => cluster,
        Err(_) => panic!(rt; "not opened"),
    };
    for step in steps {
        obey(rt, &mut cluster, &mut stores, *step)?;
    }
    let log = cluster.finish();
    assert_eq!(rt; log.len(), wanted.len());
    for (entry, text) in log.items().iter().zip(wanted) {
        assert_eq!(rt; entry_text(rt.alloc(), entry)?.as_str(), *text);
    }
    let faults = log
        .items()
        .iter()
        .filter(|e| matches!(e, Entry::Executed { failed: true, .. }));
    assert_eq!(rt; faults.count(), failed);
    Ok(())
}

/// Client 1 is granted at once, client 2 waits and is let in, and reads the head.
#[test]
fn a_waiter_is_let_in(rt: HostRuntime) -> Result<(), Fail> {
    let steps = [
        Step::Ask(1, 0),
        Step::Ask(2, 0),
        Step::Execute(1),
        Step::Execute(2),
        Step::Hear(3),
        Step::Release(1, 0, 1),
        Step::Execute(4),
        Step::Hear(5),
        Step::Query(2, 0, 2),
        Step::Execute(6),
        Step::Lose(7),
    ];
    let wanted = [
        "sent 1 c1 b0 ask 5 inode exclusive",
        "sent 2 c2 b0 ask 5 inode exclusive",
        "executed 1 -",
        "sent 3 b0 c1 re 1 granted",
        "executed 2 -",
        "heard 3",
        "sent 4 c1 b0 release 5 1",
        "executed 4 -",
        "sent 5 b0 c2 re 2 granted",
        "heard 5",
        "sent 6 c2 b0 query 5 2",
        "executed 6 3",
        "sent 7 b0 c2 re 6 head file 0000080301000200 3 0 0 420 0 0",
        "lost 7",
    ];
    play(&rt, None, &steps, &wanted, 0)
}

/// A cut lets the first of two waiters in, and a stop ends the locks.
#[test]
fn a_brick_cuts_and_stops(rt: HostRuntime) -> Result<(), Fail> {
    let steps = [
        Step::Ask(1, 2),
        Step::Ask(2, 2),
        Step::Ask(3, 2),
        Step::Execute(1),
        Step::Execute(2),
        Step::Execute(3),
        Step::Cut(1, 2),
        Step::Die(1),
        Step::Stop(2),
        Step::Start(2),
        Step::Query(2, 2, 2),
        Step::Execute(6),
    ];
    let wanted = [
        "sent 1 c1 b2 ask 5 inode exclusive",
        "sent 2 c2 b2 ask 5 inode exclusive",
        "sent 3 c3 b2 ask 5 inode exclusive",
        "executed 1 -",
        "sent 4 b2 c1 re 1 granted",
        "executed 2 -",
        "executed 3 -",
        "cut 1 2",
        "sent 5 b2 c2 re 2 granted",
        "died 1",
        "stopped 2",
        "returned 2",
        "sent 6 c2 b2 query 5 2",
        "executed 6 -",
        "sent 7 b2 c2 re 6 nogrant 2",
    ];
    play(&rt, None, &steps, &wanted, 0)
}

/// A write is cut short after 0, 1 and 512 bytes.
#[test]
fn a_write_is_torn(rt: HostRuntime) -> Result<(), Fail> {
    for (bytes, text) in [(0, "torn 3 0 3"), (1, "torn 3 1 3"), (512, "torn 3 512 3")] {
        let steps = [
            Step::Ask(1, 0),
            Step::Execute(1),
            Step::Write(1, 0, 1),
            Step::Tear(3, bytes),
            Step::Start(0),
            Step::Query(1, 0, 1),
            Step::Execute(4),
        ];
        let wanted = [
            "sent 1 c1 b0 ask 5 inode exclusive",
            "executed 1 -",
            "sent 2 b0 c1 re 1 granted",
            "sent 3 c1 b0 writechunks 5 1 0 2",
            text,
            "returned 0",
            "sent 4 c1 b0 query 5 1",
            "executed 4 -",
            "sent 5 b0 c1 re 4 nogrant 1",
        ];
        play(&rt, None, &steps, &wanted, 0)?;
    }
    Ok(())
}

/// A store that fails as the head is read, and one that fails in the work.
#[test]
fn a_store_fails(rt: HostRuntime) -> Result<(), Fail> {
    for (call, executed) in [(1, "executed 3 -"), (2, "executed 3 3")] {
        let steps = [
            Step::Ask(1, 0),
            Step::Execute(1),
            Step::Write(1, 0, 1),
            Step::Execute(3),
        ];
        let wanted = [
            "sent 1 c1 b0 ask 5 inode exclusive",
            "executed 1 -",
            "sent 2 b0 c1 re 1 granted",
            "sent 3 c1 b0 writechunks 5 1 0 2",
            executed,
            "sent 4 b0 c1 re 3 fault",
        ];
        play(&rt, Some(call), &steps, &wanted, 1)?;
    }
    Ok(())
}
