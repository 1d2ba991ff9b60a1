// What is wanted is counted out by hand.
ghost use Rattle.std.specs.Prelude.{◌≡◌};

mod ends;
mod fails;
mod records;

use ec_attr::{Attr, Config, Dirty, Geometry, Head, Kind, Name, Version};
use std::process::Abort;

/// A head of such a record, of 1024 bytes.
fn head_of(rt: &impl Abort, kind: Kind) -> Head
    ensures { result.size ≡ 1024 }
{
    Head {
        kind,
        config: Config {
            geometry: Geometry::new(3, 1).expect(rt, "a geometry"),
        },
        version: Version {
            content: 7,
            meta: 0,
        },
        size: 1024,
        dirty: Dirty {
            content: 0,
            meta: 0,
        },
        attr: Attr::of_new(kind),
    }
}

fn name_of(rt: &(impl Abort + AllocGlobal), bytes: &[u8]) -> Name {
    Name::new(rt.alloc(), bytes).expect(rt, "a name")
}
