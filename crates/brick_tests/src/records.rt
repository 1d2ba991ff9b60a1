// Bricks and records to test with.
ghost use Rattle.std.specs.Prelude.{◌≤◌, ◌^◌};

use ec_attr::{Attr, Child, Config, Dirty, Geometry, Gfid, Head, Kind, Name, Version};
use ec_brick::Brick;
use ec_store::{BrickStore, MemStore};
use std::process::Abort;

/// The config of 2+1 bricks.
pub fn config_of(rt: &impl Abort) -> Config {
    Config {
        geometry: Geometry::new(3, 1).expect(rt, "a geometry"),
    }
}

/// The head of an empty record with this version and dirty number.
pub fn head_of(rt: &impl Abort, kind: Kind, version: u64, dirty: u64) -> Head
    ensures { result.size ≤ 2 ^ 40 }
{
    Head {
        kind,
        config: config_of(rt),
        version: Version {
            content: version,
            meta: 0,
        },
        size: 0,
        dirty: Dirty {
            content: dirty,
            meta: 0,
        },
        attr: Attr::of_new(kind),
    }
}

/// Puts a record.
pub fn put(rt: &impl Abort, store: &mut MemStore, gfid: u128, head: &Head)
    requires { head.now.size ≤ 2 ^ 40 }
{
    assert!(rt; store.put_head(Gfid(gfid), head).is_ok());
}

/// Sets a name to a file of this gfid.
pub fn set(
    rt: &(impl Abort + AllocGlobal),
    store: &mut MemStore,
    gfid: u128,
    text: &[u8],
    child: u128,
) {
    let name = Name::new(rt.alloc(), text).expect(rt, "a name");
    let child = Child {
        kind: Kind::File,
        gfid: Gfid(child),
    };
    assert!(rt; store.set_name(Gfid(gfid), &name, Some(child)).is_ok());
}

/// A brick of 2+1 that is just started.
pub fn brick_of(rt: &(impl Abort + AllocGlobal)) -> Brick {
    Brick::new(rt.alloc(), config_of(rt))
}
