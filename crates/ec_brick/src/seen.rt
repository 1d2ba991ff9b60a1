// What a walk over the records of a store has seen.
ghost use Rattle.std.specs.Prelude.{◌≡◌, ◌<◌, ◌≤◌, ◌^◌, ℕ, true, false, fold, Option, None, Some, IfSome, List, OnOk};
ghost use Rattle.ec_attr.specs.declared.config.Config.{Config};
ghost use Rattle.ec_attr.specs.declared.kind.Kind.TheVariants.{Dir};
ghost use Rattle.ec_store.specs.Put.{put};
ghost use Rattle.ec_store.specs.Pages.{IsPage, is_rising};
ghost use Rattle.ec_store.specs.Records.{Record, Records};
ghost use Rattle.ec_brick.specs.Opening.{Accepts, Opens};
ghost use Rattle.ec_brick.specs.Walk.{InRange, Sees, next_page, passed, raised, reached, renamed};

use crate::accepted::is_first_root;
use crate::heads::is_dirty;
use ec_attr::{Child, Config, Gfid, Head, Name, NameList};
use ec_index::Index;
use std::alloc::{AllocError, Global};

/// The greatest gfid of a child that counts.
const GREATEST: u128 = 1 << 96;

/// What a walk over the records of a store has seen: the dirty ones, the greatest gfid that is taken (0 before the
/// first), and whether there was more than the root's record as it is put at first.
#[derive(Drop)]
pub struct Seen {
    pub(crate) index: Index,
    pub(crate) greatest: u128,
    pub(crate) used: bool,
}

impl Seen {
    /// No record.
    pub fn new(alloc: Global) -> Seen
        ensures sees { (config : Config) → Sees config (λ g. None) result }
        ensures range { InRange result }
    {
        Seen {
            index: Index::new(alloc),
            greatest: 0,
            used: false,
        }
    }

    /// Sees the head of a record that has no names yet. After an error it isn't known what it has seen.
    pub fn see_head(&mut self, config: Config, g: Gfid, h: &Head) -> Result<(), AllocError>
        requires { Accepts config g.0 h.now }
        ensures sees { OnOk result ((m : Records) (r : Record) → r.head ≡ h.now → m g.0 ≡ None → Sees config m self.old
            → Sees config (put m g.0 (Some (renamed r (λ n. None)))) self.new) }
        ensures range { OnOk result (InRange self.old → InRange self.new) }
        ensures positive { OnOk result (0 < self.new.greatest) }
    {
        self.index.set(g, is_dirty(h))?;
        self.greatest = self.greatest.max(g.0);
        if !is_first_root(config, g, h) {
            self.used = true;
        }
        Ok(())
    }

    /// Sees a page of a directory's names past `after`.
    pub fn see_page(&mut self, page: &NameList)
        ensures sees { (config : Config) (m : Records) (g : ℕ) (r : Record) (after : Option (List ℕ)) → r.head.kind ≡ Dir
            → IsPage after r.names page.now → is_rising after page.now ≡ true
            → Sees config (put m g (Some (renamed r (passed after r.names)))) self.old
            → Sees config (put m g (Some (renamed r (reached (next_page after page.now) r.names)))) self.new }
        ensures range { InRange self.old → 0 < self.old.greatest → InRange self.new }
        ensures positive { self.old.greatest ≤ self.new.greatest }
    {
        self.greatest = greatest_of(self.greatest, page.items());
        if page.len() > 0 {
            self.used = true;
        }
    }

    /// The greatest gfid that is taken, none where the store is unused.
    pub fn last(&self) -> Option<Gfid>
        ensures opens { (config : Config) (m : Records) → Sees config m self.now → Opens config m result }
        ensures range { InRange self.now → IfSome result (λ g. (0 < g.0) × (g.0 ≤ 2 ^ 96)) }
    {
        if !self.used {
            return None;
        }
        Some(Gfid(self.greatest))
    }
}

/// The greatest of a gfid and those of the children that count.
fn greatest_of(from: u128, entries: &[(Name, Child)]) -> u128
    ensures value { result ≡ fold raised from entries.now }
    ensures above { from ≤ result }
    ensures below { from ≤ 2 ^ 96 → result ≤ 2 ^ 96 }
{
    let mut greatest = from;
    for (_, child) in entries {
        if child.gfid.0 <= GREATEST && child.gfid.0 > greatest {
            greatest = child.gfid.0;
        }
    }
    greatest
}
