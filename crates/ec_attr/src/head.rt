// What a brick keeps of a record beside its content.
ghost use Rattle.std.specs.Prelude.{◌≡◌, ◌↔◌, IsTrue};
ghost use Rattle.ec_attr.specs.Head.{new_attr};

use crate::attr::{Attr, same_attr};
use crate::config::{Config, same_config};
use crate::counts::{Dirty, Version};
use crate::kind::Kind;

/// What a brick keeps of a record beside its fragment or its names. `size` is that of the whole file in bytes, 0 for a
/// directory.
#[derive(Clone, Copy, Debug, PartialEq, Eq)]
pub struct Head {
    pub kind: Kind,
    pub config: Config,
    pub version: Version,
    pub size: u64,
    pub dirty: Dirty,
    pub attr: Attr,
}

impl Attr {
    /// The attribute of a new record: owner and group 0, and mode 420 (octal 644) for a file or 493 (755) for a
    /// directory.
    pub fn of_new(kind: Kind) -> Attr
        ensures { result ≡ new_attr kind }
    {
        let mode = match kind {
            Kind::File => 420,
            Kind::Dir => 493,
        };
        Attr {
            mode,
            owner: 0,
            group: 0,
        }
    }
}

/// Whether two heads are equal. In a contract it says what `==` does.
pub fn same_head(a: &Head, b: &Head) -> bool
    ensures { IsTrue result ↔ (a.now ≡ b.now) }
{
    a.kind == b.kind
        && same_config(&a.config, &b.config)
        && a.version == b.version
        && a.size == b.size
        && a.dirty == b.dirty
        && same_attr(&a.attr, &b.attr)
}
