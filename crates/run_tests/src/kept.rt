// Stores that keep records as the run begins.
ghost use Rattle.std.specs.Prelude.{◌≤◌, ◌^◌};

use crate::playing::{TWO_OF_THREE, fresh, plays_over};
use ec_attr::{Attr, Config, Dirty, Geometry, Gfid, Head, Kind, Version};
use ec_play::{BricksWhy, Status};
use ec_store::{BrickStore, MemStore};
use std::process::Abort;
use std::test::Fail;

/// The head of an empty file of a volume of so many bricks, one of which may be lost.
fn head_of(n: u8, version: u64) -> Head
    requires least { 3 ≤ n }
    requires most { n ≤ 17 }
    ensures { result.size ≤ 2 ^ 40 }
{
    Head {
        kind: Kind::File,
        config: Config {
            geometry: Geometry {
                n,
                r: 1,
                algorithm: 0,
            },
        },
        version: Version {
            content: version,
            meta: 0,
        },
        size: 0,
        dirty: Dirty {
            content: 0,
            meta: 0,
        },
        attr: Attr::of_new(Kind::File),
    }
}

/// Three stores, of which those from `first` on keep this file.
fn with_file(
    rt: &(impl Abort + AllocGlobal),
    first: u8,
    gfid: u128,
    head: &Head,
) -> Result<Vec<MemStore>, Fail>
    requires { head.now.size ≤ 2 ^ 40 }
{
    let mut stores = Vec::new(rt.alloc());
    for brick in 0..3u8 {
        let mut store = MemStore::steady(rt.alloc());
        if brick >= first {
            assert!(rt; store.put_head(Gfid(gfid), head) == Ok(()));
        }
        stores.push(store)?;
    }
    Ok(stores)
}

/// No write goes past the greatest version, and no file past the greatest gfid.
#[test]
fn numbers_end(rt: HostRuntime) -> Result<(), Fail> {
    let greatest = (1 << 61) - 1;
    let mut stores = with_file(&rt, 0, 2, &head_of(3, greatest))?;
    let script = [("call 1 write 2 0 41\nsettle\n", 1)];
    let wanted = [("1 limit 2305843009213693951\n", 1)];
    plays_over(
        &rt,
        TWO_OF_THREE,
        &script,
        &mut stores,
        &wanted,
        Status::Done,
    )?;
    let mut stores = with_file(&rt, 0, 1 << 96, &head_of(3, 0))?;
    let script = [("call 1 create 1 66\nsettle\n", 1)];
    plays_over(
        &rt,
        TWO_OF_THREE,
        &script,
        &mut stores,
        &[("1 spent\n", 1)],
        Status::Done,
    )
}

/// Stores that can't be of the volume are refused, the lowest first, and nothing is written.
#[test]
fn heads_are_refused(rt: HostRuntime) -> Result<(), Fail> {
    let script = [("call 1 create 1 66\nsettle\n", 1)];
    let mut stores = with_file(&rt, 0, 2, &head_of(3, 1 << 61))?;
    let why = BricksWhy::Head {
        brick: 0,
        gfid: Gfid(2),
    };
    plays_over(
        &rt,
        TWO_OF_THREE,
        &script,
        &mut stores,
        &[],
        Status::WrongBricks(why),
    )?;
    let mut stores = with_file(&rt, 1, 2, &head_of(4, 0))?;
    let why = BricksWhy::Config {
        brick: 1,
        config: head_of(4, 0).config,
    };
    plays_over(
        &rt,
        TWO_OF_THREE,
        &script,
        &mut stores,
        &[],
        Status::WrongBricks(why),
    )
}

/// What one run left, the next one goes on with.
#[test]
fn stores_are_kept(rt: HostRuntime) -> Result<(), Fail> {
    let mut stores = fresh(rt.alloc(), 3)?;
    let script = [(
        "call 1 create 1 66\nsettle\ncall 1 write 2 0 4142\nsettle\n",
        1,
    )];
    let wanted = [("1 child file 2\n2 ok 2\n", 1)];
    plays_over(
        &rt,
        TWO_OF_THREE,
        &script,
        &mut stores,
        &wanted,
        Status::Done,
    )?;
    let script = [("call 1 read 2 0 9\nsettle\ncall 1 create 1 67\nsettle\n", 1)];
    let wanted = [("1 data 4142\n2 child file 3\n", 1)];
    plays_over(
        &rt,
        TWO_OF_THREE,
        &script,
        &mut stores,
        &wanted,
        Status::Done,
    )
}
