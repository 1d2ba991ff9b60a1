// What a brick is asked for a name.
ghost use Rattle.std.specs.Prelude.{◌≡◌, ◌<◌, IfOk};
ghost use Rattle.ec_entry.specs.Asked.{asked_name};
ghost use Rattle.ec_txn.specs.Digest.{place_at};

use ec_attr::{BrickSet, Gfid, Name};
use ec_txn::{Ctx, Known};
use ec_wire::Request;
use std::alloc::AllocError;

/// What a brick of the set is asked for a name of a directory, under its lock.
pub fn name_request(
    ctx: &Ctx,
    gfid: Gfid,
    name: &Name,
    bricks: &BrickSet,
    known: &Known,
    brick: u8,
) -> Result<Option<Request>, AllocError>
    requires { brick < 31 }
    ensures { IfOk result (λ request. request ≡ asked_name bricks.now ctx.now.geometry.n gfid.0 name.now (place_at known.now.places.items brick).lock brick) }
{
    if !bricks.has(brick) || brick >= ctx.geometry.n {
        return Ok(None);
    }
    match known.place(brick).lock {
        Some(lock) if lock.granted => Ok(Some(Request::NameGet {
            gfid,
            grant: lock.number,
            name: name.copy()?,
        })),
        _ => Ok(None),
    }
}
