// The bricks that reads name.
ghost use Rattle.std.specs.Prelude.{◌≡◌, ◌+◌, ℕ, nat_eq, length};
ghost use Rattle.std.specs.declared.option.Option.{Option};
ghost use Rattle.ec_attr.specs.Bricks.{bricks};
ghost use Rattle.ec_world.specs.Refusals.{IsFirstFrom, IsWrongVia, wrong_brick};

use ec_attr::{BrickSet, Geometry};
use ec_wire::Op;

/// The lowest brick of a set that the volume hasn't, or 31 where the set has another count of bricks than suffice to read.
fn wrong_brick(geometry: &Geometry, via: BrickSet) -> Option<u8>
    ensures { (first : Option ℕ) × IsFirstFrom via geometry.now.n first × (result ≡ wrong_brick first (nat_eq (length (bricks via) + geometry.now.r) geometry.now.n)) }
{
    match via.next_from(geometry.n) {
        Some(b) => Some(b),
        None => {
            if via.len() == geometry.k() {
                None
            } else {
                Some(31)
            }
        }
    }
}

/// The brick with which a call is refused for the bricks that it names.
pub fn bad_via(geometry: &Geometry, op: &Op) -> Option<u8>
    ensures { IsWrongVia geometry.now op.now result }
{
    match op {
        Op::Read { via: Some(via), .. } => wrong_brick(geometry, *via),
        _ => None,
    }
}
