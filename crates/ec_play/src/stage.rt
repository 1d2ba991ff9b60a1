// What a script is played on.
ghost use Rattle.std.specs.Prelude.{◌≡◌, ℕ, List, true, length, map, IfOk};
ghost use Rattle.std.specs.List.{list_all};
ghost use Rattle.ec_brick.specs.State.{State};
ghost use Rattle.ec_cluster.specs.Matches.{StandsAs};
ghost use Rattle.ec_history.specs.Run.{Net, fresh, run};
ghost use Rattle.ec_script.specs.Printed.{IsEvent};
ghost use Rattle.ec_store.specs.Records.{Records};
ghost use Rattle.ec_world.specs.Unanswered.{AreUnanswered};
ghost use Rattle.ec_play.specs.Meaning.{Meaning, Steps};

use ec_store::BrickStore;
use ec_wire::{Event, ItemList, Log};
use ec_world::Refused;
use std::alloc::AllocError;

/// What a script is played on: the bricks, messages and clients of a volume, over the stores that each step is lent.
pub trait Means: Drop {
    /// What it means to the log of a run.
    ghost meaning: { Meaning Self };

    /// The log so far.
    fn log(&self) -> &Log
        ensures { result.now ≡ Self.meaning.log self.now };

    /// The numbers of the calls without an answer, rising.
    fn unanswered(&self) -> Result<ItemList<u32>, AllocError>
        requires { Self.meaning.keeps self.now }
        ensures { IfOk result (λ calls. (bricks : ℕ → State) → AreUnanswered (run (Self.meaning.log self.now) (fresh bricks)) calls) };

    /// Where it and the stores are as a net says, the stores hold what the net says.
    ghost holds: { (w : Self) (stores : List Records) (m : Net) → Self.meaning.stands w stores m → StandsAs (Self.meaning.bricks w) stores m };
}

/// How it goes on, event by event. `rows` multiplies rows by chunks.
pub trait Stage<B: BrickStore, T>: Means {
    /// Obeys an event, or refuses it. After want of memory it isn't used further but for its log.
    fn step(&mut self, stores: &mut [B], rows: &T, event: &Event) -> Result<(), Refused>
        requires keeps { Self.meaning.keeps self.old }
        requires stores { length stores.old ≡ Self.meaning.bricks self.old }
        requires event { IsEvent event.now }
        ensures tells { list_all B.told stores.new ≡ list_all B.told stores.old }
        ensures steps { Steps Self.meaning (list_all B.told stores.old ≡ true) self.old self.new (map B.records stores.old) (map B.records stores.new) event.now result };
}
