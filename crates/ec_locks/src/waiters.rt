// Whose asks were granted.
ghost use Rattle.std.specs.Prelude.{◌≡◌, [], ◌∷◌, ◌++◌, length, IfOk, OnErr, OnOk};

use std::alloc::{AllocError, Global};
use std::marker::Model;

/// Who waited: the number of the message that asked, and its client.
#[derive(Clone, Copy, Debug, PartialEq, Eq)]
pub struct Waiter {
    pub number: u64,
    pub client: u8,
}

/// Waiters in order, seen as their list.
#[derive(Debug, Drop)]
pub struct WaiterList {
    waiters: Vec<Waiter>,
}

impl Model for WaiterList {
    ghost use Rattle.std.specs.Prelude.{List};
    ghost use Rattle.ec_locks.specs.declared.waiters.Waiter.{Waiter};

    ghost Value = { List Waiter };

    ghost view = { λ l. l.waiters.items };
}

impl WaiterList {
    /// No waiters.
    pub fn new(alloc: Global) -> WaiterList
        ensures { result ≡ [] }
    {
        WaiterList {
            waiters: Vec::new(alloc),
        }
    }

    /// How many waiters there are.
    pub fn len(&self) -> usize
        ensures { result ≡ length self.now }
    {
        self.waiters.len()
    }

    /// The waiters in order.
    pub fn items(&self) -> &[Waiter]
        ensures { result.now ≡ self.now }
    {
        self.waiters.as_slice()
    }

    /// Adds a waiter at the end.
    pub fn push(&mut self, x: Waiter) -> Result<(), AllocError>
        ensures ok { OnOk result (self.new ≡ self.old ++ x ∷ []) }
        ensures err { OnErr result (self.new ≡ self.old) }
    {
        self.waiters.push(x)?;
        Ok(())
    }

    /// An equal value.
    pub fn copy(&self) -> Result<WaiterList, AllocError>
        ensures { IfOk result (λ l. l ≡ self.now) }
    {
        let mut waiters = Vec::with_capacity(*self.waiters.allocator(), self.waiters.len())?;
        for w in &self.waiters {
            waiters.push(*w)?;
        }
        Ok(WaiterList { waiters })
    }
}
