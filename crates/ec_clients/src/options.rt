// The options of a volume, as far as calls are begun with them.

use ec_attr::{Geometry, Policy};

/// `policy` tells from which brick on a read chooses; `window` is how many stripes a heal takes at a time; `eager` tells
/// whether grants are kept.
#[derive(Clone, Copy, Debug)]
pub struct Options {
    pub geometry: Geometry,
    pub policy: Policy,
    pub window: u32,
    pub eager: bool,
}
