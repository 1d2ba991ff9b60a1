// The members of a group: its bricks, and the sinks beside them.
ghost use Rattle.std.specs.Prelude.{◌≡◌, ◌<◌, None};
ghost use Rattle.ec_entry.specs.Members.{grant_in};
ghost use Rattle.ec_txn.specs.Digest.{place_at};

use ec_answers::Group;
use ec_txn::{Known, is_within};

/// The grant of a member below `bricks` that did all that it was sent in this window.
pub fn member_grant(known: &Known, group: &Group, bricks: u8, brick: u8) -> Option<u64>
    requires { brick < 31 }
    ensures { result ≡ grant_in group.now bricks (place_at known.now.places.items brick) brick }
{
    if !is_within(&group.head) || brick >= bricks {
        return None;
    }
    if !group.bricks.has(brick) && !group.sinks.has(brick) {
        return None;
    }
    let place = known.place(brick);
    if place.failed {
        return None;
    }
    match place.lock {
        Some(lock) if lock.granted => Some(lock.number),
        _ => None,
    }
}
