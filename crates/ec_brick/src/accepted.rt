// The heads that a brick accepts as it opens its store.
ghost use Rattle.std.specs.Prelude.{◌≡◌, ◌↔◌, IsTrue, IfErr, OnOk, false};
ghost use Rattle.ec_brick.specs.Opening.{Accepts, IsForeign, Refuses, first_root, is_sound};
ghost use Rattle.ec_brick.specs.StartFault.{start_failed};

use crate::start_fault::StartFault;
use ec_attr::{Attr, Config, Dirty, Gfid, Head, Kind, Version, same_config, same_head, stripped};

/// The gfid of the root directory.
pub const ROOT: Gfid = Gfid(1);

/// What versions without their mark and dirty numbers are below.
const LIMIT: u64 = 1 << 61;

/// The greatest gfid that a record may have.
const GREATEST: u128 = 1 << 96;

/// Whether a gfid can have the numbers of a head.
fn is_sound(g: Gfid, h: &Head) -> bool
    ensures { result ≡ is_sound g.0 h.now }
{
    stripped(h.version.content) < LIMIT
        && h.dirty.content < LIMIT
        && h.version.meta == 0
        && h.dirty.meta == 0
        && 1 <= g.0
        && g.0 <= GREATEST
}

/// Checks the head of a gfid, its config first.
pub fn check_head(config: &Config, g: Gfid, h: &Head) -> Result<(), StartFault>
    ensures ok { OnOk result (Accepts config.now g.0 h.now) }
    ensures refused { IfErr result (λ e. Refuses config.now g.0 h.now e) }
    ensures foreign { IfErr result (IsForeign config.now) }
    ensures of_head { start_failed result ≡ false }
{
    if !same_config(&h.config, config) {
        return Err(StartFault::Config(h.config));
    }
    if !is_sound(g, h) {
        return Err(StartFault::Head(g));
    }
    Ok(())
}

/// The head of the root's record as it is put at first.
pub fn first_root(config: Config) -> Head
    ensures { result ≡ first_root config }
{
    Head {
        kind: Kind::Dir,
        config,
        version: Version {
            content: 0,
            meta: 0,
        },
        size: 0,
        dirty: Dirty {
            content: 0,
            meta: 0,
        },
        attr: Attr::of_new(Kind::Dir),
    }
}

/// Whether it is the root's head as it is put at first.
pub fn is_first_root(config: Config, g: Gfid, h: &Head) -> bool
    ensures { IsTrue result ↔ ((g.0 ≡ 1) × (h.now ≡ first_root config)) }
{
    g == ROOT && same_head(h, &first_root(config))
}
