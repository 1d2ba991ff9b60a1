// What `info` and `check` write of a volume.
ghost use Rattle.std.specs.Prelude.{◌≡◌, ◌-◌, ℕ, List, true, length, map, IfErr, IfOk, string_bytes};
ghost use Rattle.std.specs.List.{list_all};
ghost use Rattle.ec_clients.specs.Calls.{tabled};
ghost use Rattle.ec_cluster.specs.Views.{bricks_of, size_of};
ghost use Rattle.ec_history.specs.Run.{Net};
ghost use Rattle.ec_report.specs.Info.{IsInfoOf};
ghost use Rattle.ec_report.specs.Reading.{HasRisen, OnlyRead};
ghost use Rattle.ec_report.specs.Records.{IsCheck};
ghost use Rattle.ec_store.specs.Records.{Records};
ghost use Rattle.ec_world.specs.Report.{IsInfo};
ghost use Rattle.ec_world.specs.Whole.{IsAs, IsOpen};

use crate::world::World;
use ec_calls::AnyCall;
use ec_report::{CheckFault, check_text, info_text};
use ec_store::BrickStore;
use ec_txn::Conduct;
use std::alloc::AllocError;

impl World {
    /// A line for each gfid of each brick's index, brick 0 first and then the gfids rising: the number of the brick and
    /// the id. Where the stores tell their records these are the records with a dirty number other than 0.
    pub fn info_text(&self) -> Result<String, AllocError>
        ensures index { IfOk result (λ text.
            IsInfoOf (size_of self.now.cluster) (bricks_of self.now.cluster) (string_bytes text)) }
        ensures records { IfOk result (λ text. (records : List Records) (m : Net)
            → IsAs (⟦<AnyCall as Conduct>⟧.stands)
            (tabled (⟦<AnyCall as Conduct>⟧.begins) (⟦<AnyCall as Conduct>⟧.goes)) self.now records m
            → IsInfo (length records) records (string_bytes text)) }
    {
        info_text(self.alloc, self.cluster.bricks())
    }

    /// A line for each gfid of which a brick has a record, rising: the id, the kind, what each brick has, the good
    /// group, and whether no name leads to it. The stores are only read.
    pub fn check_text<S: BrickStore>(&self, stores: &mut [S]) -> Result<String, CheckFault>
        requires open { IsOpen (⟦<AnyCall as Conduct>⟧.stands)
            (tabled (⟦<AnyCall as Conduct>⟧.begins) (⟦<AnyCall as Conduct>⟧.goes)) self.now }
        requires stores { length stores.old ≡ self.now.bricks }
        ensures reads { OnlyRead (list_all S.told stores.old) (list_all S.told stores.new) (map S.records stores.old)
            (map S.records stores.new) (map S.faults stores.old) (map S.faults stores.new) }
        ensures cause { IfErr result (HasRisen (map S.faults stores.old) (map S.faults stores.new)) }
        ensures text { IfOk result (λ text. list_all S.told stores.old ≡ true
            → IsCheck (self.now.clients.options.geometry.n - self.now.clients.options.geometry.r)
            (map S.records stores.old) (string_bytes text)) }
    {
        check_text(self.alloc, &self.clients.options().geometry, stores)
    }
}
