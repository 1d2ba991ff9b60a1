// A set of gfids in their order.
ghost use Rattle.std.specs.Prelude.{◌≡◌, ℕ, false, IsOk, OnErr, OnOk};
ghost use Rattle.ec_index.specs.Members.{NextIs, members, with_member};

use ec_attr::Gfid;
use std::alloc::{AllocError, Global};
use std::collections::BTreeSet;
use std::ops::Bound;

/// A set of gfids. Contracts see it as `members`, the test of whether a number is in it.
#[derive(Drop)]
pub struct Index {
    gfids: BTreeSet<u128>,
}

impl Index {
    /// No gfids.
    pub fn new(alloc: Global) -> Index
        ensures { (g : ℕ) → members result g ≡ false }
    {
        Index {
            gfids: BTreeSet::new(alloc),
        }
    }

    /// Puts a gfid in, or takes it out. Taking one out needs no memory.
    pub fn set(&mut self, g: Gfid, on: bool) -> Result<(), AllocError>
        ensures ok { OnOk result (members self.new ≡ with_member (members self.old) g.0 on) }
        ensures err { OnErr result (members self.new ≡ members self.old) }
        ensures out { on ≡ false → IsOk result }
    {
        if on {
            let _ = self.gfids.insert(g.0)?;
        } else {
            let _ = self.gfids.remove(&g.0);
        }
        Ok(())
    }

    /// Whether a gfid is in it.
    pub fn has(&self, g: Gfid) -> bool
        ensures { result ≡ members self.now g.0 }
    {
        self.gfids.contains(&g.0)
    }

    /// The least gfid in it above `g`.
    pub fn after(&self, g: Gfid) -> Option<Gfid>
        ensures { NextIs (members self.now) g.0 result }
    {
        self.gfids
            .range((Bound::Excluded(g.0), Bound::Unbounded))
            .next()
            .map(|n| Gfid(*n))
    }
}
