// The world of a volume, as what a script is played on.
ghost use Rattle.ec_clients.specs.Calls.{tabled};
ghost use Rattle.ec_play.specs.World.{meaning_of};

use crate::stage::{Means, Stage};
use ec_bank::RowTimes;
use ec_calls::AnyCall;
use ec_store::BrickStore;
use ec_txn::Conduct;
use ec_wire::{Event, ItemList, Log};
use ec_world::{Refused, World};
use std::alloc::AllocError;

impl Means for World {
    ghost use Rattle.ec_play.specs.WorldHolds.{world_holds};

    ghost meaning = { meaning_of (⟦<AnyCall as Conduct>⟧.stands) (tabled (⟦<AnyCall as Conduct>⟧.begins) (⟦<AnyCall as Conduct>⟧.goes)) };

    fn log(&self) -> &Log {
        World::log(self)
    }

    fn unanswered(&self) -> Result<ItemList<u32>, AllocError> {
        World::unanswered(self)
    }

    ghost holds = { world_holds (⟦<AnyCall as Conduct>⟧.stands) (tabled (⟦<AnyCall as Conduct>⟧.begins) (⟦<AnyCall as Conduct>⟧.goes)) };
}

impl<B: BrickStore, T: RowTimes> Stage<B, T> for World {
    fn step(&mut self, stores: &mut [B], rows: &T, event: &Event) -> Result<(), Refused> {
        World::step(self, stores, rows, event)
    }
}
