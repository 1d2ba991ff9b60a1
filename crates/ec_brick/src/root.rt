// The first record of a volume.
ghost use Rattle.std.specs.Prelude.{◌≡◌, ℕ, true, IfErr};
ghost use Rattle.ec_store.specs.Does.{Does, HasFaultCause};
ghost use Rattle.ec_store.specs.Records.{Records};
ghost use Rattle.ec_brick.specs.Opening.{rooted};
ghost use Rattle.ec_brick.specs.StartFault.{is_of_store, start_failed};
ghost use Rattle.ec_brick.specs.State.{indexed, state};
ghost use Rattle.ec_brick.specs.Index.{dirty_of};

use crate::accepted::{ROOT, first_root};
use crate::brick::Brick;
use crate::start_fault::{StartFault, of_store};
use ec_store::BrickStore;

impl Brick {
    /// Puts the root's record where there is none: a directory of the brick's config, with all numbers 0. After an
    /// error the store is as before. The index is right after it where it was so before.
    pub fn put_root<S: BrickStore>(&mut self, store: &mut S) -> Result<(), StartFault>
        ensures does { Does (S.told store.old) (S.told store.new) (S.records store.old) (S.records store.new) (rooted self.old.config (S.records store.old)) result }
        ensures cause { HasFaultCause start_failed (S.faults store.old) (S.faults store.new) result }
        ensures fault { IfErr result (λ e. is_of_store e ≡ true) }
        ensures index { S.told store.old ≡ true → ((g : ℕ) → indexed self.old g ≡ dirty_of (S.records store.old) g) → (g : ℕ) → indexed self.new g ≡ dirty_of (S.records store.new) g }
        ensures same { (m : Records) → state self.new m ≡ state self.old m }
        ensures kept { indexed self.new ≡ indexed self.old }
    {
        match store.head(ROOT) {
            Ok(Some(_)) => Ok(()),
            Ok(None) => match store.put_head(ROOT, &first_root(self.config)) {
                Ok(()) => Ok(()),
                Err(e) => Err(of_store(e)),
            },
            Err(e) => Err(of_store(e)),
        }
    }
}
