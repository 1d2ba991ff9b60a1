// The root's first record, and what is forgotten.
use crate::records::{brick_of, head_of, put};
use ec_attr::{Gfid, Kind};
use ec_brick::StartFault;
use ec_store::{BrickStore, Fail as StoreFail, FailList, MemStore, Method};
use std::test::Fail;

#[test]
fn the_root_is_put_once(rt: HostRuntime) -> Result<(), Fail> {
    let mut brick = brick_of(&rt);
    let mut store = MemStore::steady(rt.alloc());
    assert!(rt; brick.put_root(&mut store).is_ok());
    let first = head_of(&rt, Kind::Dir, 0, 0);
    assert_eq!(rt; store.head(Gfid(1)), Ok(Some(first)));
    assert_eq!(rt; brick.open_store(&mut store), Ok(None));
    let later = head_of(&rt, Kind::Dir, 5, 1);
    put(&rt, &mut store, 1, &later);
    assert!(rt; brick.put_root(&mut store).is_ok());
    assert_eq!(rt; store.head(Gfid(1)), Ok(Some(later)));
    for method in [Method::Head, Method::PutHead] {
        let mut fails = FailList::new(rt.alloc());
        fails.push(StoreFail::Each(method))?;
        let mut store = MemStore::new(rt.alloc(), fails);
        assert_eq!(rt; brick.put_root(&mut store), Err(StartFault::Failed));
        assert_eq!(rt; store.heads_after(None), Ok(None));
    }
    Ok(())
}

#[test]
fn gfids_are_forgotten(rt: HostRuntime) -> Result<(), Fail> {
    let rows: [(Option<u128>, [bool; 3]); 6] = [
        (Some(0), [true, true, true]),
        (Some(1), [true, true, true]),
        (Some(2), [false, true, true]),
        (Some(5), [false, false, true]),
        (Some(u128::MAX), [false, false, false]),
        (None, [false, false, false]),
    ];
    for (upto, wanted) in rows {
        let mut brick = brick_of(&rt);
        let mut store = MemStore::steady(rt.alloc());
        for gfid in [2, 5, 9] {
            put(&rt, &mut store, gfid, &head_of(&rt, Kind::File, 3, 1));
        }
        assert_eq!(rt; brick.open_store(&mut store), Ok(Some(Gfid(9))));
        brick.forget(upto.map(Gfid));
        for (gfid, there) in [2, 5, 9].into_iter().zip(wanted) {
            assert_eq!(rt; brick.index().has(Gfid(gfid)), there);
        }
    }
    Ok(())
}
