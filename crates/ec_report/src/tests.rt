// What is wanted is written out by hand.
ghost use Rattle.std.specs.Prelude.{◌≡◌, ◌≤◌, ◌^◌, IfOk};

use crate::{CheckFault, check_text, info_text};
use ec_attr::{Attr, Child, Config, Dirty, Geometry, Gfid, Head, Kind, Name, Version, marked};
use ec_brick::Brick;
use ec_store::{BrickStore, Fail as StoreFail, FailList, MemStore, Method};
use std::process::Abort;
use std::test::Fail;

/// What a brick keeps of gfid 2.
#[derive(Clone, Copy)]
struct Kept {
    kind: Kind,
    version: u64,
    size: u32,
    dirty: u64,
}

fn geometry_of(n: u32, r: u32) -> Result<Geometry, Fail>
    ensures { IfOk result (λ g. g.n ≡ n) }
{
    match Geometry::new(n, r) {
        Ok(g) => Ok(g),
        Err(_) => Err(Fail::from("no geometry")),
    }
}

fn head_of(geometry: Geometry, kept: Kept) -> Head
    ensures { result.size ≤ 2 ^ 40 }
{
    Head {
        kind: kept.kind,
        config: Config { geometry },
        version: Version {
            content: kept.version,
            meta: 0,
        },
        size: u64::from(kept.size),
        dirty: Dirty {
            content: kept.dirty,
            meta: 0,
        },
        attr: Attr::of_new(kept.kind),
    }
}

/// Puts the root at version 1, with a name that leads to gfid 2.
fn put_root(rt: &(impl Abort + AllocGlobal), store: &mut MemStore, geometry: Geometry) {
    let root = Kept {
        kind: Kind::Dir,
        version: 1,
        size: 0,
        dirty: 0,
    };
    let name = Name::new(rt.alloc(), b"f").expect(rt, "a name");
    let child = Child {
        kind: Kind::File,
        gfid: Gfid(2),
    };
    assert!(rt; store.put_head(Gfid(1), &head_of(geometry, root)).is_ok());
    assert!(rt; store.set_name(Gfid(1), &name, Some(child)).is_ok());
}

/// A store with this record of gfid 2, and with the root where `named`. It fails at this method, if at any.
fn store_of(
    rt: &(impl Abort + AllocGlobal),
    geometry: Geometry,
    kept: Option<Kept>,
    named: bool,
    failing: Option<Method>,
) -> Result<MemStore, Fail> {
    let mut fails = FailList::new(rt.alloc());
    if let Some(method) = failing {
        fails.push(StoreFail::Each(method))?;
    }
    let mut store = MemStore::new(rt.alloc(), fails);
    if let Some(kept) = kept {
        assert!(rt; store.put_head(Gfid(2), &head_of(geometry, kept)).is_ok());
    }
    if named {
        put_root(rt, &mut store, geometry);
    }
    Ok(store)
}

fn file(version: u64, size: u32, dirty: u64) -> Option<Kept> {
    Some(Kept {
        kind: Kind::File,
        version,
        size,
        dirty,
    })
}

/// A brick over the records of this store.
fn brick_of(
    rt: &(impl Abort + AllocGlobal),
    geometry: Geometry,
    store: &mut MemStore,
) -> Result<Brick, Fail> {
    let mut brick = Brick::new(rt.alloc(), Config { geometry });
    assert!(rt; brick.open_store(store).is_ok());
    Ok(brick)
}

/// Two of six bricks missed a write.
#[test]
fn bricks_that_missed_a_write(rt: HostRuntime) -> Result<(), Fail> {
    let geometry = geometry_of(6, 2)?;
    let wrote = file(1, 2048, 1);
    let missed = file(0, 0, 0);
    let mut stores = [
        store_of(&rt, geometry, wrote, true, None)?,
        store_of(&rt, geometry, wrote, true, None)?,
        store_of(&rt, geometry, wrote, true, None)?,
        store_of(&rt, geometry, wrote, true, None)?,
        store_of(&rt, geometry, missed, true, None)?,
        store_of(&rt, geometry, missed, true, None)?,
    ];
    let checked = match check_text(rt.alloc(), &geometry, &mut stores) {
        Ok(text) => text,
        Err(_) => return Err(Fail::from("no text")),
    };
    assert!(rt;
        checked.as_str()
            == "00000000-0000-0000-0000-000000000001 dir 1/0/0 1/0/0 1/0/0 1/0/0 1/0/0 1/0/0 group 0,1,2,3,4,5\n00000000-0000-0000-0000-000000000002 file 1/2048/1 1/2048/1 1/2048/1 1/2048/1 0/0/0 0/0/0 group 0,1,2,3\n"
    );
    let bricks = [
        brick_of(&rt, geometry, &mut stores[3])?,
        brick_of(&rt, geometry, &mut stores[4])?,
        brick_of(&rt, geometry, &mut stores[0])?,
    ];
    let info = info_text(rt.alloc(), &bricks)?;
    assert!(rt;
        info.as_str()
            == "0 00000000-0000-0000-0000-000000000002\n2 00000000-0000-0000-0000-000000000002\n"
    );
    Ok(())
}

/// What three bricks keep of gfid 2, which have the root, and the text.
#[test]
fn lines_of_three_bricks(rt: HostRuntime) -> Result<(), Fail> {
    let geometry = geometry_of(3, 1)?;
    let good = file(7, 3, 0);
    let sink = file(marked(7), 3, 1);
    let dir = Some(Kept {
        kind: Kind::Dir,
        version: 7,
        size: 3,
        dirty: 0,
    });
    let rows = [
        ([None, None, None], [false, false, false], ""),
        (
            [good, good, sink],
            [true, false, false],
            "00000000-0000-0000-0000-000000000001 dir 1/0/0 - - group -\n00000000-0000-0000-0000-000000000002 file 7/3/0 7/3/0 m7/3/1 group 0,1\n",
        ),
        (
            [None, dir, good],
            [false, false, false],
            "00000000-0000-0000-0000-000000000002 dir - 7/3/0 7/3/0 group - orphan\n",
        ),
        (
            [good, file(8, 3, 0), good],
            [false, false, false],
            "00000000-0000-0000-0000-000000000002 file 7/3/0 8/3/0 7/3/0 group 0,2 orphan\n",
        ),
        (
            [sink, None, None],
            [false, true, true],
            "00000000-0000-0000-0000-000000000001 dir - 1/0/0 1/0/0 group 1,2\n00000000-0000-0000-0000-000000000002 file m7/3/1 - - group -\n",
        ),
    ];
    for (kept, named, wanted) in rows {
        let mut stores = [
            store_of(&rt, geometry, kept[0], named[0], None)?,
            store_of(&rt, geometry, kept[1], named[1], None)?,
            store_of(&rt, geometry, kept[2], named[2], None)?,
        ];
        match check_text(rt.alloc(), &geometry, &mut stores) {
            Ok(text) => assert!(rt; text.as_str() == wanted),
            Err(_) => return Err(Fail::from("no text")),
        }
    }
    Ok(())
}

/// The store of brick 1 fails.
#[test]
fn a_store_fails(rt: HostRuntime) -> Result<(), Fail> {
    let geometry = geometry_of(3, 1)?;
    let good = file(7, 3, 0);
    for method in [Method::HeadsAfter, Method::Head, Method::NamesAfter] {
        let mut stores = [
            store_of(&rt, geometry, good, true, None)?,
            store_of(&rt, geometry, good, true, Some(method))?,
            store_of(&rt, geometry, good, true, None)?,
        ];
        let fault = check_text(rt.alloc(), &geometry, &mut stores).err();
        assert!(rt; fault == Some(CheckFault::Store(1)));
    }
    Ok(())
}
