// The table with its calls.
ghost use Rattle.std.specs.Prelude.{◌≡◌, [], ◌∷◌, ◌++◌, filter, is_some, IfOk, IfSome, OnErr, OnOk};
ghost use Rattle.ec_locks.specs.Asked.{AskedIs, granted, granted_by_queue};
ghost use Rattle.ec_locks.specs.Laws.{LockLaws};
ghost use Rattle.ec_locks.specs.Table.{has, holds, queued, stays, waited};
ghost use Rattle.ec_locks.specs.declared.ask.Leaving.TheVariants.{Client, Number};

use crate::ask::{Ask, Leaving, does_leave};
use crate::waiters::WaiterList;
use crate::walks::{
    count_waiters, does_hold, does_wait, has_ask, is_free, is_waited_for, newly_granted,
    sorted_by_queue, waiters,
};
use ec_attr::{Domain, Gfid, LockKind};
use std::alloc::{AllocError, Global};
use std::marker::Model;

/// What an ask is answered: it is granted at once, or waits behind so many waiters of its gfid and domain.
#[derive(Clone, Copy, Debug, PartialEq, Eq)]
pub enum Asked {
    Granted,
    Queued(u64),
}

/// The asks that stand, seen as their list in the order of asking.
#[derive(Drop)]
pub struct LockTable {
    alloc: Global,
    asks: Vec<Ask>,
}

impl Model for LockTable {
    ghost use Rattle.std.specs.Prelude.{List};
    ghost use Rattle.ec_locks.specs.declared.ask.Ask.{Ask};

    ghost Value = { List Ask };

    ghost view = { λ t. t.asks.items };
}

fn retain_staying(asks: &mut Vec<Ask>, leaving: &Leaving)
    ensures { asks.new.items ≡ filter (stays leaving.now) asks.old.items }
{
    asks.retain(|a| !does_leave(leaving, a));
}

impl LockTable {
    /// No asks.
    pub fn new(alloc: Global) -> LockTable
        ensures { result ≡ [] }
    {
        LockTable {
            alloc,
            asks: Vec::new(alloc),
        }
    }

    /// Asks for a lock, under the number of the message that asks. Two asks of one gfid and one domain conflict where
    /// one of them is exclusive, also within one client. It is granted exactly where no conflicting grant stands and
    /// nobody waits for that gfid and domain.
    pub fn ask(
        &mut self,
        number: u64,
        client: u8,
        gfid: Gfid,
        domain: Domain,
        kind: LockKind,
    ) -> Result<Asked, AllocError>
        ensures ok { OnOk result (self.new ≡ self.old ++ record { number = number; client = client; gfid = gfid; domain = domain; kind = kind } ∷ []) }
        ensures answer { IfOk result (AskedIs self.old (record { number = number; client = client; gfid = gfid; domain = domain; kind = kind })) }
        ensures err { OnErr result (self.new ≡ self.old) }
    {
        let ask = Ask {
            number,
            client,
            gfid,
            domain,
            kind,
        };
        let answer = answer_of(self.asks.as_slice(), &ask);
        self.asks.push(ask)?;
        Ok(answer)
    }

    /// Ends the grant or waiter of that number and gives the waiters that are granted by it, the first to come first,
    /// or None where no such one stands.
    pub fn release(&mut self, number: u64) -> Result<Option<WaiterList>, AllocError>
        ensures stood { IfOk result (λ o. is_some o ≡ has self.old number) }
        ensures ok { OnOk result (self.new ≡ filter (stays (Number number)) self.old) }
        ensures granted { IfOk result (λ o. IfSome o (λ l. l ≡ granted (Number number) self.old)) }
        ensures err { OnErr result (self.new ≡ self.old) }
    {
        if !has_ask(self.asks.as_slice(), number) {
            return Ok(None);
        }
        let leaving = Leaving::Number(number);
        let asks = newly_granted(self.alloc, self.asks.as_slice(), &leaving)?;
        let list = waiters(self.alloc, asks.as_slice())?;
        retain_staying(&mut self.asks, &leaving);
        Ok(Some(list))
    }

    /// Ends all grants and waiters of a client and then gives the waiters that are granted by it: gfids rising, Inode
    /// before Heal, and of one gfid and domain the first to come first.
    pub fn cut(&mut self, client: u8) -> Result<WaiterList, AllocError>
        ensures ok { OnOk result (self.new ≡ filter (stays (Client client)) self.old) }
        ensures granted { IfOk result (λ l. l ≡ granted_by_queue (Client client) self.old) }
        ensures err { OnErr result (self.new ≡ self.old) }
    {
        let leaving = Leaving::Client(client);
        let asks = newly_granted(self.alloc, self.asks.as_slice(), &leaving)?;
        let sorted = sorted_by_queue(self.alloc, asks.as_slice())?;
        let list = waiters(self.alloc, sorted.as_slice())?;
        retain_staying(&mut self.asks, &leaving);
        Ok(list)
    }

    /// Ends all grants and waiters.
    pub fn clear(&mut self)
        ensures { self.new ≡ [] }
    {
        self.asks.clear();
    }

    /// Whether a grant of that number stands for the gfid and domain that is of the kind; an exclusive grant holds as
    /// shared too.
    pub fn holds(&self, number: u64, gfid: Gfid, domain: Domain, kind: LockKind) -> bool
        ensures { result ≡ holds self.now number gfid domain kind }
    {
        does_hold(self.asks.as_slice(), number, gfid, domain, kind)
    }

    /// Whether an ask of that number waits.
    pub fn queued(&self, number: u64) -> bool
        ensures { result ≡ queued self.now number }
    {
        does_wait(self.asks.as_slice(), number)
    }

    /// Whether a grant of that number stands and somebody waits for its gfid and domain.
    pub fn waited(&self, number: u64) -> bool
        ensures { result ≡ waited self.now number }
    {
        is_waited_for(self.asks.as_slice(), number)
    }
}

fn answer_of(asks: &[Ask], ask: &Ask) -> Asked
    ensures { AskedIs asks.now ask.now result }
{
    if is_free(asks, ask) {
        Asked::Granted
    } else {
        Asked::Queued(count_waiters(asks, ask))
    }
}

/// The laws of lock tables, for the proofs that stand on them. It does nothing when it runs.
pub fn lock_laws()
    ensures { LockLaws }
{}
