// Messages that are sent and taken, and which is the lowest.
use crate::{Body, Reply, Request, Wire};
use ec_attr::Gfid;
use std::test::Fail;

fn body_of(to_brick: bool) -> Body {
    if to_brick {
        Body::ToBrick(Request::Query {
            gfid: Gfid(1),
            grant: 1,
        })
    } else {
        Body::ToClient {
            re: 1,
            reply: Reply::Done,
        }
    }
}

/// The lowest in flight, and the lowest from client 1 to brick 2 and back, 0 for none.
fn lowest(wire: &Wire) -> (u64, u64, u64) {
    (
        wire.first().unwrap_or(0),
        wire.first_between(1, 2, true).unwrap_or(0),
        wire.first_between(1, 2, false).unwrap_or(0),
    )
}

#[test]
fn messages_are_sent_and_taken(rt: HostRuntime) -> Result<(), Fail> {
    let mut wire = Wire::new(rt.alloc());
    assert!(rt; lowest(&wire) == (0, 0, 0) && wire.next() == 1);
    for (client, brick, to_brick) in [
        (1, 2, true),
        (1, 3, true),
        (1, 2, true),
        (1, 2, false),
        (2, 2, true),
        (1, 2, false),
    ] {
        let next = wire.next();
        assert!(rt; next < 7);
        let no = wire.send(7, client, brick, body_of(to_brick))?;
        assert!(rt; no == next && wire.next() == next + 1);
        let m = wire.get(no).ok_or("not in flight")?;
        assert!(rt; m.no == no && m.client == client && m.brick == brick && m.call == 7);
    }
    assert!(rt; lowest(&wire) == (1, 1, 4));
    for (no, there, wanted) in [
        (1, true, (2, 3, 4)),
        (1, false, (2, 3, 4)),
        (2, true, (3, 3, 4)),
        (4, true, (3, 3, 6)),
        (3, true, (5, 0, 6)),
        (9, false, (5, 0, 6)),
        (0, false, (5, 0, 6)),
        (6, true, (5, 0, 0)),
        (5, true, (0, 0, 0)),
    ] {
        assert!(rt; wire.take(no).is_some() == there);
        assert!(rt; lowest(&wire) == wanted && wire.get(no).is_none());
    }
    assert!(rt; wire.next() == 7);
    Ok(())
}
