// What a call is begun with.

use ec_attr::{Geometry, Gfid, Policy};

/// What a call is begun with beside what it calls for: the volume's geometry and options, and who calls. `call` is its
/// number, from 1 on; `policy` tells from which brick on a read chooses; `window` is how many stripes a heal or scrub
/// takes at a time, 1 to 1024; `child` is the gfid that a create or mkdir takes; `eager` tells whether grants are kept.
#[derive(Clone, Copy, Debug)]
pub struct Ctx {
    pub geometry: Geometry,
    pub call: u32,
    pub client: u8,
    pub policy: Policy,
    pub window: u32,
    pub child: Gfid,
    pub eager: bool,
}
