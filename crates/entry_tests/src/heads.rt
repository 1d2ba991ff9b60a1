// Heads and children that bricks answer.
use ec_attr::{Attr, Child, Config, Dirty, Geometry, Gfid, Head, Kind, Version};

/// The head of an empty record of this kind at version 7, clean.
pub fn head(geometry: Geometry, kind: Kind) -> Head {
    Head {
        kind,
        config: Config { geometry },
        version: Version {
            content: 7,
            meta: 0,
        },
        size: 0,
        dirty: Dirty {
            content: 0,
            meta: 0,
        },
        attr: Attr::of_new(kind),
    }
}

/// A file of this gfid, as a name leads to it.
pub fn file(gfid: u128) -> Option<Child> {
    Some(Child {
        kind: Kind::File,
        gfid: Gfid(gfid),
    })
}
