// The opening of a brick's store.
ghost use Rattle.std.specs.Prelude.{◌≡◌, ◌≢◌, ◌<◌, ◌≤◌, ◌^◌, ℕ, true, IfErr, IfOk, IfSome, OnErr, OnOk};
ghost use Rattle.ec_store.specs.Does.{Does, HasFaultCause};
ghost use Rattle.ec_store.specs.Records.{Records};
ghost use Rattle.ec_brick.specs.Opening.{AcceptsAll, IsForeign, IsStartFault, Opens};
ghost use Rattle.ec_brick.specs.StartFault.{start_failed};
ghost use Rattle.ec_brick.specs.State.{indexed, state};
ghost use Rattle.ec_brick.specs.Index.{dirty_of};

use crate::brick::Brick;
use crate::start_fault::StartFault;
use crate::walk::see_records;
use ec_attr::Gfid;
use ec_store::BrickStore;

impl Brick {
    /// Opens the store: checks each head, with the names of each directory, and makes the index anew. It puts nothing.
    /// It answers the greatest gfid that is taken, and none where the store has no record or only the root's as it is
    /// put at first. After an error the brick is as before.
    pub fn open_store<S: BrickStore>(&mut self, store: &mut S) -> Result<Option<Gfid>, StartFault>
        ensures does { Does (S.told store.old) (S.told store.new) (S.records store.old) (S.records store.new) (S.records store.old) result }
        ensures cause { HasFaultCause start_failed (S.faults store.old) (S.faults store.new) result }
        ensures opens { IfOk result (λ last. S.told store.old ≡ true → Opens self.old.config (S.records store.old) last) }
        ensures accepts { OnOk result (S.told store.old ≡ true → AcceptsAll self.old.config (S.records store.old)) }
        ensures index { OnOk result (S.told store.old ≡ true → (g : ℕ) → indexed self.new g ≡ dirty_of (S.records store.old) g) }
        ensures refused { IfErr result (λ e. S.told store.old ≡ true → IsStartFault self.old.config (S.records store.old) e) }
        ensures foreign { IfErr result (IsForeign self.old.config) }
        ensures range { IfOk result (λ last. IfSome last (λ g. (0 < g.0) × (g.0 ≤ 2 ^ 96))) }
        ensures same { (m : Records) → state self.new m ≡ state self.old m }
        ensures kept { OnErr result (indexed self.new ≡ indexed self.old) }
    {
        match see_records(self.alloc, self.config, store) {
            Ok(seen) => {
                let last = seen.last();
                self.index = seen.index;
                Ok(last)
            }
            Err(e) => Err(e),
        }
    }
}
