// A world over stores in memory, moved by the lines of scripts.
ghost use Rattle.std.specs.Prelude.{◌≡◌, ◌≢◌, IsTrue, false};
ghost use Rattle.ec_world.specs.World.{FitsEvent};

use crate::rows::PlainRows;
use ec_attr::{Blob, Geometry, Policy};
use ec_calls::AnyCall;
use ec_script::read_line;
use ec_store::MemStore;
use ec_txn::Conduct;
use ec_volfile::{BlobList, Kernel, Volume};
use ec_wire::{Entry, Event, Log, entry_text};
use ec_world::{Refused, World};
use std::alloc::Global;
use std::marker::Model;
use std::process::Abort;
use std::test::Fail;

/// A world with the stores of its bricks. It is open, and has a store for each brick.
#[derive(Drop)]
pub struct Bench {
    world: World,
    stores: Vec<MemStore>,
}

impl Model for Bench {
    ghost use Rattle.std.specs.Prelude.{◌≡◌, length};
    ghost use Rattle.ec_clients.specs.Calls.{tabled};
    ghost use Rattle.ec_world.specs.Whole.{IsOpen};

    ghost Value = { Unit {0} };

    ghost view = { λ b. tt };

    ghost invariant = { λ b. IsOpen (⟦<AnyCall as Conduct>⟧.stands) (tabled (⟦<AnyCall as Conduct>⟧.begins) (⟦<AnyCall as Conduct>⟧.goes)) b.world × (length b.stores.items ≡ b.world.bricks) };
}

/// The volume of so many bricks with this redundancy.
fn volume_of(rt: &(impl Abort + AllocGlobal), n: u32, r: u32) -> Volume {
    Volume {
        name: Blob::new(rt.alloc()),
        bricks: BlobList::new(rt.alloc()),
        geometry: Geometry::new(n, r).expect(rt, "a geometry"),
        policy: Policy::RoundRobin,
        eager: false,
        cache: 4,
        window: 16,
        kernel: Kernel::Plain,
    }
}

/// Whether a client that calls or dies is one of a volume.
fn is_fit(event: &Event) -> bool
    ensures { IsTrue result → FitsEvent event.now }
{
    match event {
        Event::Call { client, .. } => *client <= 16,
        Event::Die(client) => *client <= 16,
        _ => true,
    }
}

/// Whether memory was wanted. A world isn't used further then.
fn wants_memory(why: &Refused) -> bool
    ensures { result ≡ false → why.now ≢ Refused.NoMemory }
{
    matches!(why, Refused::NoMemory)
}

impl Bench {
    /// A fresh volume of `n` bricks with redundancy `r`.
    pub fn new(rt: &(impl Abort + AllocGlobal), n: u32, r: u32) -> Result<Bench, Fail> {
        let mut stores = Vec::new(rt.alloc());
        for _ in 0..n {
            stores.push(MemStore::steady(rt.alloc()))?;
        }
        Bench::over(rt, n, r, stores)
    }

    /// A volume over these stores.
    fn over(
        rt: &(impl Abort + AllocGlobal),
        n: u32,
        r: u32,
        stores: Vec<MemStore>,
    ) -> Result<Bench, Fail> {
        let mut stores = stores;
        let volume = volume_of(rt, n, r);
        assert!(rt; stores.len() == usize::from(volume.geometry.n));
        match World::start(rt.alloc(), &volume, stores.as_mut_slice()) {
            Ok(world) => Ok(Bench { world, stores }),
            Err(_) => Err(Fail::from("no world")),
        }
    }

    /// The same bricks under a world that has just started.
    pub fn restarted(self, rt: &(impl Abort + AllocGlobal), n: u32, r: u32) -> Result<Bench, Fail> {
        let Bench { stores, .. } = self;
        Bench::over(rt, n, r, stores)
    }

    /// What refuses an event, None where it is obeyed.
    pub fn step(&mut self, rt: &impl Abort, event: &Event) -> Option<Refused>
        requires { FitsEvent event.now }
    {
        match self
            .world
            .step(self.stores.as_mut_slice(), &PlainRows, event)
        {
            Ok(()) => None,
            Err(why) => {
                if wants_memory(&why) {
                    panic!(rt; "no memory")
                }
                Some(why)
            }
        }
    }

    /// What refuses the event of a line.
    fn line(&mut self, rt: &(impl Abort + AllocGlobal), line: &str) -> Option<Refused> {
        let Ok(Some(event)) = read_line(rt.alloc(), line.as_bytes()) else {
            panic!(rt; "no event: {line}")
        };
        let fits = is_fit(&event);
        assert!(rt; fits);
        self.step(rt, &event)
    }

    /// Obeys the lines of a script.
    pub fn play(&mut self, rt: &(impl Abort + AllocGlobal), script: &str) {
        for line in script.lines() {
            assert_eq!(rt; self.line(rt, line), None, "{line}");
        }
    }

    /// A line is refused, and changes nothing.
    pub fn refuses(
        &mut self,
        rt: &(impl Abort + AllocGlobal),
        line: &str,
        wanted: Refused,
    ) -> Result<(), Fail> {
        let gfid = self.world.next_gfid();
        let text = self.text(rt.alloc(), true)?;
        assert_eq!(rt; self.line(rt, line), Some(wanted), "{line}");
        assert_eq!(rt; self.world.next_gfid(), gfid, "{line}");
        assert_eq!(rt;
            self.text(rt.alloc(), true)?.as_str(),
            text.as_str(),
            "{line}"
        );
        Ok(())
    }

    /// The gfid that the next create or mkdir takes.
    pub fn next_gfid(&self) -> u128 {
        self.world.next_gfid()
    }

    /// The entries so far.
    pub fn log(&self) -> &Log {
        self.world.log()
    }

    /// How many calls have no answer.
    pub fn open(&self) -> Result<usize, Fail> {
        Ok(self.world.unanswered()?.len())
    }

    /// The log, where the bench isn't used further.
    pub fn finish(self) -> Log {
        let Bench { world, .. } = self;
        world.finish()
    }

    /// The line of each entry, or of each answer alone; then each call without an answer.
    pub fn text(&self, alloc: Global, all: bool) -> Result<String, Fail> {
        let mut text = text_of(alloc, self.world.log(), all)?;
        for call in self.world.unanswered()?.items() {
            text.push_str(format!(in alloc; "open {call}\n")?.as_str())?;
        }
        Ok(text)
    }
}

/// The line of each entry, or of each answer alone.
pub fn text_of(alloc: Global, log: &Log, all: bool) -> Result<String, Fail> {
    let mut text = String::new(alloc);
    for entry in log.items() {
        if all || matches!(entry, Entry::Answered { .. }) {
            text.push_str(entry_text(alloc, entry)?.as_str())?;
            text.push_str("\n")?;
        }
    }
    Ok(text)
}
