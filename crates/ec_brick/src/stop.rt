// A brick that stops, starts and cuts a client off, and what is seen of it.
ghost use Rattle.std.specs.Prelude.{◌≡◌, IfOk, OnErr, OnOk};
ghost use Rattle.ec_brick.specs.State.{IsAsBefore, asks_of, indexed, is_up, state};
ghost use Rattle.ec_brick.specs.Step.{cut_off, started, stopped};
ghost use Rattle.ec_index.specs.Members.{members};
ghost use Rattle.ec_locks.specs.Asked.{granted_by_queue};
ghost use Rattle.ec_locks.specs.declared.ask.Leaving.TheVariants.{Client};
ghost use Rattle.ec_store.specs.Records.{Records};

use crate::brick::Brick;
use ec_index::Index;
use ec_locks::{LockTable, WaiterList};
use std::alloc::AllocError;

impl Brick {
    /// Whether the brick is up.
    pub fn up(&self) -> bool
        ensures { result ≡ is_up self.now }
    {
        self.up
    }

    /// The gfids of its dirty records.
    pub fn index(&self) -> &Index
        ensures { members result.now ≡ indexed self.now }
    {
        &self.index
    }

    /// Its locks.
    pub fn locks(&self) -> &LockTable
        ensures { result.now ≡ asks_of self.now }
    {
        &self.locks
    }

    /// The brick stops: all grants and waiters end, and what was removed is forgotten. Its store and its index stay.
    pub fn stop(&mut self)
        ensures state { (m : Records) → state self.new m ≡ stopped (state self.old m) }
        ensures index { indexed self.new ≡ indexed self.old }
    {
        self.up = false;
        self.locks.clear();
        self.removed = Index::new(self.alloc);
    }

    /// The brick comes back.
    pub fn start(&mut self)
        ensures state { (m : Records) → state self.new m ≡ started (state self.old m) }
        ensures index { indexed self.new ≡ indexed self.old }
    {
        self.up = true;
    }

    /// Ends all grants and waiters of a client and then gives the waiters that are granted by it: gfids rising, Inode
    /// before Heal, and of one gfid and domain the first to come first.
    pub fn cut(&mut self, client: u8) -> Result<WaiterList, AllocError>
        ensures ok { OnOk result ((m : Records) → state self.new m ≡ (cut_off (state self.old m) client).brick) }
        ensures granted { IfOk result (λ l. l ≡ granted_by_queue (Client client) (asks_of self.old)) }
        ensures index { indexed self.new ≡ indexed self.old }
        ensures err { OnErr result (IsAsBefore self.old self.new) }
    {
        self.locks.cut(client)
    }
}
