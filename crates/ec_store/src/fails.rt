// The calls at which a store in memory fails.
ghost use Rattle.std.specs.Prelude.{◌≡◌, ◌≤◌, true, [], ◌∷◌, ◌++◌, length, Err, OnErr, OnOk};
ghost use Rattle.std.specs.List.{list_any};
ghost use Rattle.ec_store.specs.Causes.{Rose};
ghost use Rattle.ec_store.specs.Does.{failed};
ghost use Rattle.ec_store.specs.Fails.{after_call, fails_next, is_hit, same_method};
ghost use Rattle.ec_store.specs.declared.store.StoreFault.TheVariants.{Failed};

use crate::calls::{names_call, next_count};
use crate::store::StoreFault;
use std::alloc::{AllocError, Global};
use std::marker::Model;

/// The methods of a store.
#[derive(Clone, Copy, Debug, PartialEq, Eq)]
pub enum Method {
    Head,
    PutHead,
    Remove,
    ReadChunk,
    WritePart,
    SetLength,
    Name,
    SetName,
    PutNames,
    NamesAfter,
    HeadsAfter,
}

/// Calls that fail.
#[derive(Clone, Copy, Debug, PartialEq, Eq)]
pub enum Fail {
    /// The call of that number, counted from 1 over all methods up to 2^64 - 2.
    Call(u64),
    /// Every call of the method.
    Each(Method),
}

/// Calls that fail, seen as their list.
#[derive(Debug, Drop)]
pub struct FailList {
    fails: Vec<Fail>,
}

impl Model for FailList {
    ghost use Rattle.std.specs.Prelude.{List};
    ghost use Rattle.ec_store.specs.declared.fails.Fail.{Fail};

    ghost Value = { List Fail };

    ghost view = { λ l. l.fails.items };
}

impl FailList {
    /// No call fails.
    pub fn new(alloc: Global) -> FailList
        ensures { result ≡ [] }
    {
        FailList {
            fails: Vec::new(alloc),
        }
    }

    /// How many entries there are.
    pub fn len(&self) -> usize
        ensures { result ≡ length self.now }
    {
        self.fails.len()
    }

    /// The entries in order.
    pub fn items(&self) -> &[Fail]
        ensures { result.now ≡ self.now }
    {
        self.fails.as_slice()
    }

    /// Adds an entry at the end.
    pub fn push(&mut self, x: Fail) -> Result<(), AllocError>
        ensures ok { OnOk result (self.new ≡ self.old ++ x ∷ []) }
        ensures err { OnErr result (self.new ≡ self.old) }
    {
        self.fails.push(x)?;
        Ok(())
    }
}

fn same_method(a: Method, b: Method) -> bool
    ensures { result ≡ same_method a b }
{
    a == b
}

/// Whether it names the call of a method that comes after so many calls.
fn is_hit(fail: &Fail, method: Method, calls: u64) -> bool
    ensures { result ≡ is_hit method calls fail.now }
{
    match fail {
        Fail::Call(number) => names_call(*number, calls),
        Fail::Each(m) => same_method(*m, method),
    }
}

fn is_any_hit(fails: &FailList, method: Method, calls: u64) -> bool
    ensures { result ≡ list_any (is_hit method calls) fails.now }
{
    fails.items().iter().any(|fail| is_hit(fail, method, calls))
}

/// Counts the calls of a store, and says which fail.
#[derive(Drop)]
pub struct Failing {
    fails: FailList,
    calls: u64,
    faults: u64,
}

impl Model for Failing {
    ghost use Rattle.ec_store.specs.Fails.{FailingState};

    ghost Value = { FailingState };

    ghost view = { λ f. record { fails = f.fails; calls = f.calls; faults = f.faults } };
}

impl Failing {
    /// No call yet.
    pub fn new(fails: FailList) -> Failing
        ensures { result ≡ record { fails = fails; calls = 0; faults = 0 } }
    {
        Failing {
            fails,
            calls: 0,
            faults: 0,
        }
    }

    /// How many calls there were, up to 2^64 - 1.
    pub fn calls(&self) -> u64
        ensures { result ≡ self.now.calls }
    {
        self.calls
    }

    /// How many of them failed.
    pub fn faults(&self) -> u64
        ensures { result ≡ self.now.faults }
    {
        self.faults
    }

    /// Counts a call, and fails where it is one of those.
    pub fn begin(&mut self, method: Method) -> Result<(), StoreFault>
        ensures fails { failed result ≡ fails_next self.old method }
        ensures only { OnErr result (result ≡ Err Failed) }
        ensures counted { self.new ≡ after_call self.old method }
        ensures later { self.old.faults ≤ self.new.faults }
        ensures rose { failed result ≡ true → Rose self.old.faults self.new.faults }
    {
        let fails = is_any_hit(&self.fails, method, self.calls);
        self.calls = next_count(self.calls);
        if fails {
            self.faults = next_count(self.faults);
            return Err(StoreFault::Failed);
        }
        Ok(())
    }
}
