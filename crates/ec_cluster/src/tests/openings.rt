// Stores that are opened together.
use crate::cluster::Cluster;
use crate::tests::{config_of, put_file, store_of};
use ec_attr::Gfid;
use ec_brick::StartFault;
use ec_store::{BrickStore, Fail as StoreFail, MemStore, Method};
use std::process::Abort;
use std::test::Fail;

/// What a store has or fails in before it is opened.
#[derive(Clone, Copy)]
enum Content {
    Fresh,
    File(u128),
    Foreign,
    Failing(Method),
}

fn kept_store(rt: &(impl Abort + AllocGlobal), kept: Content) -> Result<MemStore, Fail> {
    let failing = match kept {
        Content::Failing(method) => Some(StoreFail::Each(method)),
        _ => None,
    };
    let mut store = store_of(rt.alloc(), failing)?;
    match kept {
        Content::File(gfid) => put_file(rt, &mut store, Gfid(gfid), config_of(rt, 3, 1)),
        Content::Foreign => put_file(rt, &mut store, Gfid(9), config_of(rt, 6, 2)),
        _ => {}
    }
    Ok(store)
}

/// The next gfid or the refusal, and which stores have a root afterwards.
#[test]
fn roots_are_put_where_all_are_unused(rt: HostRuntime) -> Result<(), Fail> {
    let foreign = StartFault::Config(config_of(&rt, 6, 2));
    let rows = [
        ([Content::Fresh; 3], Ok(2), [true; 3]),
        (
            [Content::Fresh, Content::File(7), Content::Fresh],
            Ok(8),
            [false; 3],
        ),
        (
            [Content::File(9), Content::Fresh, Content::File(4)],
            Ok(10),
            [false; 3],
        ),
        (
            [Content::File(1), Content::Fresh, Content::Fresh],
            Ok(2),
            [true, false, false],
        ),
        (
            [Content::Fresh, Content::Foreign, Content::Fresh],
            Err((1, foreign)),
            [false; 3],
        ),
        (
            [
                Content::Fresh,
                Content::Fresh,
                Content::Failing(Method::HeadsAfter),
            ],
            Err((2, StartFault::Failed)),
            [false; 3],
        ),
        (
            [
                Content::Fresh,
                Content::Failing(Method::PutHead),
                Content::Fresh,
            ],
            Err((1, StartFault::Failed)),
            [true, false, false],
        ),
    ];
    for (kept, wanted, roots) in rows {
        let mut stores = [
            kept_store(&rt, kept[0])?,
            kept_store(&rt, kept[1])?,
            kept_store(&rt, kept[2])?,
        ];
        let opened = match Cluster::open(rt.alloc(), config_of(&rt, 3, 1), &mut stores) {
            Ok((_, next)) => Ok(next),
            Err(e) => Err(e),
        };
        assert_eq!(rt; opened, wanted);
        for b in 0..3usize {
            assert_eq!(rt; matches!(stores[b].head(Gfid(1)), Ok(Some(_))), roots[b]);
        }
    }
    Ok(())
}
