// Tables of asks, releases and cuts, with whom they let in.
use super::{Asked, LockTable, Waiter};
use ec_attr::{Domain, Gfid, LockKind};
use std::test::Fail;

/// Asks in turn, each with number, client, gfid, domain, kind and answer: of gfid 5 two readers, a writer behind them
/// and readers that don't overtake it; heals apart from these; of gfid 4 two writers.
const ASKS: [(u64, u8, u128, Domain, LockKind, Asked); 10] = [
    (1, 1, 5, Domain::Inode, LockKind::Shared, Asked::Granted),
    (2, 2, 5, Domain::Inode, LockKind::Shared, Asked::Granted),
    (
        3,
        3,
        5,
        Domain::Inode,
        LockKind::Exclusive,
        Asked::Queued(0),
    ),
    (4, 4, 5, Domain::Inode, LockKind::Shared, Asked::Queued(1)),
    (5, 1, 5, Domain::Inode, LockKind::Shared, Asked::Queued(2)),
    (6, 1, 5, Domain::Heal, LockKind::Exclusive, Asked::Granted),
    (7, 2, 5, Domain::Heal, LockKind::Exclusive, Asked::Queued(0)),
    (8, 1, 4, Domain::Inode, LockKind::Exclusive, Asked::Granted),
    (
        9,
        3,
        4,
        Domain::Inode,
        LockKind::Exclusive,
        Asked::Queued(0),
    ),
    (10, 3, 4, Domain::Heal, LockKind::Shared, Asked::Granted),
];

fn waiter(number: u64, client: u8) -> Waiter {
    Waiter { number, client }
}

#[test]
fn asks_releases_and_cuts(rt: HostRuntime) -> Result<(), Fail> {
    let mut table = LockTable::new(rt.alloc());
    for (number, client, g, domain, kind, answer) in ASKS {
        let asked = table.ask(number, client, Gfid(g), domain, kind)?;
        assert_eq!(rt; asked, answer);
        assert_eq!(rt; table.queued(number), answer != Asked::Granted);
    }
    assert!(rt; table.waited(1) && !table.waited(3) && !table.waited(10) && !table.waited(11));
    assert!(rt; table.holds(8, Gfid(4), Domain::Inode, LockKind::Shared));
    assert!(rt; !table.holds(9, Gfid(4), Domain::Inode, LockKind::Shared));
    assert!(rt; table.release(11)?.is_none());
    let none = table.release(2)?.ok_or("not released")?;
    assert_eq!(rt; none.len(), 0);
    let list = table.cut(1)?;
    assert!(rt; list.items() == [waiter(9, 3), waiter(3, 3), waiter(7, 2)].as_slice());
    let copy = list.copy()?;
    assert!(rt; copy.items() == list.items());
    let list = table.release(3)?.ok_or("not released")?;
    assert!(rt; list.items() == [waiter(4, 4)].as_slice());
    let list = table.cut(3)?;
    assert_eq!(rt; list.len(), 0);
    assert!(rt; table.holds(7, Gfid(5), Domain::Heal, LockKind::Exclusive));
    table.clear();
    let asked = table.ask(12, 1, Gfid(5), Domain::Heal, LockKind::Exclusive)?;
    assert_eq!(rt; asked, Asked::Granted);
    Ok(())
}
