// Stores that are opened, and stores that are refused.
use crate::records::{brick_of, config_of, head_of, put, set};
use ec_attr::{Attr, Config, Dirty, Geometry, Gfid, Head, Kind, Version};
use ec_brick::StartFault;
use ec_store::{Fail as StoreFail, FailList, MemStore};
use std::process::Abort;
use std::test::Fail;

const EDGE: u64 = 1 << 61;

const MARK: u64 = 1 << 62;

const LAST: u128 = 1 << 96;

/// The greatest gfid of a store with a directory and these records and names.
#[test]
fn the_greatest_gfid_is_answered(rt: HostRuntime) -> Result<(), Fail> {
    let rows: [(Option<u64>, &[u128], &[u128], Option<u128>); 10] = [
        (None, &[], &[], None),
        (None, &[9, 2], &[], Some(9)),
        (None, &[LAST], &[], Some(LAST)),
        (Some(0), &[], &[], None),
        (Some(1), &[], &[], Some(1)),
        (Some(0), &[], &[LAST + 1], Some(1)),
        (Some(0), &[7], &[], Some(7)),
        (Some(3), &[7, 5], &[LAST + 1, 6], Some(7)),
        (Some(3), &[7, 5], &[8, LAST + 1, 6], Some(8)),
        (Some(3), &[7, 5], &[8, LAST, LAST + 1], Some(LAST)),
    ];
    for (root, files, children, wanted) in rows {
        let mut store = MemStore::steady(rt.alloc());
        if let Some(version) = root {
            put(&rt, &mut store, 1, &head_of(&rt, Kind::Dir, version, 0));
        }
        for gfid in files {
            put(&rt, &mut store, *gfid, &head_of(&rt, Kind::File, 4, 0));
        }
        for (place, child) in children.iter().enumerate() {
            set(&rt, &mut store, 1, &[97 + (place % 26) as u8], *child);
        }
        assert_eq!(rt; brick_of(&rt).open_store(&mut store), Ok(wanted.map(Gfid)));
    }
    Ok(())
}

/// 64 names fill a page, and the greatest child stands at the last name.
#[test]
fn all_pages_of_names_are_read(rt: HostRuntime) -> Result<(), Fail> {
    for count in [63u8, 64, 65, 128, 130] {
        let mut store = MemStore::steady(rt.alloc());
        put(&rt, &mut store, 1, &head_of(&rt, Kind::Dir, 0, 0));
        for place in 0..count {
            set(&rt, &mut store, 1, &[100 + place], 1000 + u128::from(place));
        }
        let wanted = Some(Gfid(999 + u128::from(count)));
        assert_eq!(rt;
            brick_of(&rt).open_store(&mut store),
            Ok(wanted),
            "{count} names"
        );
    }
    Ok(())
}

/// Numbers at both sides of each edge.
#[test]
fn heads_are_checked(rt: HostRuntime) -> Result<(), Fail> {
    let rows: [(u128, u64, u64, u64, u64, bool); 17] = [
        (2, EDGE - 1, 0, 0, 0, true),
        (2, EDGE, 0, 0, 0, false),
        (2, MARK + EDGE - 1, 0, 0, 0, true),
        (2, MARK, 0, 0, 0, true),
        (2, MARK + EDGE, 0, 0, 0, false),
        (2, 1 << 63, 0, 0, 0, false),
        (2, (1 << 63) + MARK, 0, 0, 0, false),
        (2, u64::MAX, 0, 0, 0, false),
        (2, 0, 0, EDGE - 1, 0, true),
        (2, 0, 0, EDGE, 0, false),
        (2, 0, 0, MARK, 0, false),
        (2, 0, 1, 0, 0, false),
        (2, 0, 0, 0, 1, false),
        (0, 0, 0, 0, 0, false),
        (1, 0, 0, 0, 0, true),
        (LAST, 0, 0, 0, 0, true),
        (LAST + 1, 0, 0, 0, 0, false),
    ];
    for (gfid, version, version_meta, dirty, dirty_meta, accepted) in rows {
        let mut store = MemStore::steady(rt.alloc());
        let head = Head {
            kind: Kind::File,
            config: config_of(&rt),
            version: Version {
                content: version,
                meta: version_meta,
            },
            size: 0,
            dirty: Dirty {
                content: dirty,
                meta: dirty_meta,
            },
            attr: Attr::of_new(Kind::File),
        };
        put(&rt, &mut store, gfid, &head);
        let wanted = if accepted {
            Ok(Some(Gfid(gfid)))
        } else {
            Err(StartFault::Head(Gfid(gfid)))
        };
        assert_eq!(rt;
            brick_of(&rt).open_store(&mut store),
            wanted,
            "{gfid} {version} {dirty}"
        );
    }
    Ok(())
}

/// Of each gfid a head with another config, with numbers too great, or with both.
#[test]
fn the_lowest_gfid_is_refused(rt: HostRuntime) -> Result<(), Fail> {
    let other = Config {
        geometry: Geometry::new(6, 2).expect(&rt, "a geometry"),
    };
    let rows: [(&[(u128, bool, bool)], StartFault); 5] = [
        (&[(2, true, false)], StartFault::Config(other)),
        (&[(2, true, true)], StartFault::Config(other)),
        (
            &[(2, false, true), (3, true, false)],
            StartFault::Head(Gfid(2)),
        ),
        (
            &[(3, false, true), (2, true, false)],
            StartFault::Config(other),
        ),
        (
            &[(2, false, false), (4, false, true), (3, false, true)],
            StartFault::Head(Gfid(3)),
        ),
    ];
    for (heads, wanted) in rows {
        let mut store = MemStore::steady(rt.alloc());
        for (gfid, foreign, great) in heads {
            let mut head = head_of(&rt, Kind::File, if *great { EDGE } else { 1 }, 0);
            if *foreign {
                head.config = other;
            }
            put(&rt, &mut store, *gfid, &head);
        }
        assert_eq!(rt; brick_of(&rt).open_store(&mut store), Err(wanted));
    }
    Ok(())
}

/// The opening of a directory with 64 names and three files makes 11 calls. The index is as before where one fails.
#[test]
fn a_store_fails_at_any_call(rt: HostRuntime) -> Result<(), Fail> {
    for number in 1..21u64 {
        let mut brick = brick_of(&rt);
        let mut before = MemStore::steady(rt.alloc());
        put(&rt, &mut before, 6, &head_of(&rt, Kind::File, 1, 1));
        assert_eq!(rt; brick.open_store(&mut before), Ok(Some(Gfid(6))));
        let mut fails = FailList::new(rt.alloc());
        fails.push(StoreFail::Call(68 + number))?;
        let mut store = MemStore::new(rt.alloc(), fails);
        put(&rt, &mut store, 1, &head_of(&rt, Kind::Dir, 0, 0));
        for place in 0..64u8 {
            set(&rt, &mut store, 1, &[1 + place % 40, 50 + place], 3);
        }
        for gfid in [2, 7, 9] {
            put(
                &rt,
                &mut store,
                gfid,
                &head_of(&rt, Kind::File, 2, gfid as u64 % 3),
            );
        }
        let failed = number < 12;
        let wanted = if failed {
            Err(StartFault::Failed)
        } else {
            Ok(Some(Gfid(9)))
        };
        assert_eq!(rt; brick.open_store(&mut store), wanted, "call {number}");
        assert_eq!(rt; store.calls(), 68 + if failed { number } else { 11 });
        for (gfid, old, new) in [
            (1, false, false),
            (2, false, true),
            (6, true, false),
            (7, false, true),
            (9, false, false),
        ] {
            assert_eq!(rt;
                brick.index().has(Gfid(gfid)),
                if failed { old } else { new },
                "gfid {gfid}"
            );
        }
    }
    Ok(())
}
