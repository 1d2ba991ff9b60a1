// A store in memory, which fails at the calls of its list.
ghost use Rattle.std.specs.Prelude.{◌≡◌, ℕ, ◌+◌, ◌≤◌, ◌^◌, true, [], None, option_copied, length, IfSome, OnOk, OnErr, IfOk};
ghost use Rattle.ec_store.specs.Does.{HasFaultCause, WritesPart, failed};
ghost use Rattle.ec_store.specs.MemStore.{FailsByList, failing_of, kept_by};
ghost use Rattle.ec_store.specs.Pages.{is_rising};
ghost use Rattle.ec_store.specs.Reads.{ChunkIs, IsAbove, NameIs, NextIs, PageIs};
ghost use Rattle.ec_store.specs.Records.{head_at, sized, with_head, with_name, with_names, without};

use crate::fails::{FailList, Failing, Method};
use crate::memory::Memory;
use crate::records::{
    head_in, name_in, next_in, page_in, put_head_in, read_in, remove_in, replace_in, resize_in,
    set_name_in, write_in,
};
use crate::store::{BrickStore, StoreFault};
use ec_attr::{Child, Gfid, Head, Name, NameList};
use ec_field::Chunk;
use std::alloc::Global;
use std::collections::BTreeMap;

/// Keeps records in memory. Chunks of zeros take none, unless they were written.
#[derive(Drop)]
pub struct MemStore {
    alloc: Global,
    records: BTreeMap<u128, Memory>,
    failing: Failing,
}

impl MemStore {
    /// A store without records, which fails at the calls of the list and at no others.
    pub fn new(alloc: Global, fails: FailList) -> MemStore
        ensures kept { (g : ℕ) → kept_by result g ≡ None }
        ensures failing { failing_of result ≡ record { fails = fails; calls = 0; faults = 0 } }
    {
        MemStore {
            alloc,
            records: BTreeMap::new(alloc),
            failing: Failing::new(fails),
        }
    }

    /// A store without records, which never fails.
    pub fn steady(alloc: Global) -> MemStore
        ensures kept { (g : ℕ) → kept_by result g ≡ None }
        ensures failing { failing_of result ≡ record { fails = []; calls = 0; faults = 0 } }
    {
        MemStore::new(alloc, FailList::new(alloc))
    }

    /// How many calls of the store there were, up to 2^64 - 1.
    pub fn calls(&self) -> u64
        ensures { result ≡ (failing_of self.now).calls }
    {
        self.failing.calls()
    }

    /// How many of them failed.
    pub fn faults(&self) -> u64
        ensures { result ≡ (failing_of self.now).faults }
    {
        self.failing.faults()
    }
}

impl BrickStore for MemStore {
    ghost use Rattle.std.specs.Prelude.{true};
    ghost use Rattle.ec_store.specs.Does.{HasFaultCause, WritesPart, failed};
    ghost use Rattle.ec_store.specs.MemStore.{failing_of, kept_by};

    ghost told = { λ s. true };

    ghost records = { kept_by };

    ghost faults = { λ s. (failing_of s).faults };

    fn head(&mut self, g: Gfid) -> Result<Option<Head>, StoreFault>
        ensures same { kept_by self.new ≡ kept_by self.old }
        ensures size { IfOk result (λ h. IfSome h (λ h. h.size ≤ 2 ^ 40)) }
        ensures value { IfOk result (λ h. h ≡ head_at (kept_by self.old) g.0) }
        ensures cause { HasFaultCause failed (failing_of self.old).faults (failing_of self.new).faults result }
        ensures fails { FailsByList Method.Head (failing_of self.old) (failing_of self.new) result }
    {
        self.failing.begin(Method::Head)?;
        Ok(head_in(&self.records, g))
    }

    fn put_head(&mut self, g: Gfid, h: &Head) -> Result<(), StoreFault>
        requires { h.now.size ≤ 2 ^ 40 }
        ensures ok { OnOk result (kept_by self.new ≡ with_head (kept_by self.old) g.0 h.now) }
        ensures err { OnErr result (kept_by self.new ≡ kept_by self.old) }
        ensures cause { HasFaultCause failed (failing_of self.old).faults (failing_of self.new).faults result }
        ensures fails { FailsByList Method.PutHead (failing_of self.old) (failing_of self.new) result }
    {
        self.failing.begin(Method::PutHead)?;
        match put_head_in(self.alloc, &mut self.records, g, h) {
            Ok(()) => Ok(()),
            Err(_) => Err(StoreFault::NoMemory),
        }
    }

    fn remove(&mut self, g: Gfid) -> Result<(), StoreFault>
        ensures ok { OnOk result (kept_by self.new ≡ without (kept_by self.old) g.0) }
        ensures err { OnErr result (kept_by self.new ≡ kept_by self.old) }
        ensures cause { HasFaultCause failed (failing_of self.old).faults (failing_of self.new).faults result }
        ensures fails { FailsByList Method.Remove (failing_of self.old) (failing_of self.new) result }
    {
        self.failing.begin(Method::Remove)?;
        remove_in(&mut self.records, g);
        Ok(())
    }

    fn read_chunk(&mut self, g: Gfid, at: u64, into: &mut Chunk) -> Result<(), StoreFault>
        ensures same { kept_by self.new ≡ kept_by self.old }
        ensures value { OnOk result (ChunkIs (kept_by self.old) g.0 at into.new) }
        ensures kept { OnErr result (into.new ≡ into.old) }
        ensures cause { HasFaultCause failed (failing_of self.old).faults (failing_of self.new).faults result }
        ensures fails { FailsByList Method.ReadChunk (failing_of self.old) (failing_of self.new) result }
    {
        self.failing.begin(Method::ReadChunk)?;
        read_in(&self.records, g, at, into);
        Ok(())
    }

    fn write_part(&mut self, g: Gfid, at: u64, bytes: &[u8]) -> Result<(), StoreFault>
        requires bound { at + length bytes.now ≤ 2 ^ 39 }
        ensures does { WritesPart true true (kept_by self.old) (kept_by self.new) g.0 at bytes.now result }
        // A write that fails writes nothing here.
        ensures err { OnErr result (kept_by self.new ≡ kept_by self.old) }
        ensures cause { HasFaultCause failed (failing_of self.old).faults (failing_of self.new).faults result }
        ensures fails { FailsByList Method.WritePart (failing_of self.old) (failing_of self.new) result }
    {
        self.failing.begin(Method::WritePart)?;
        match write_in(&mut self.records, g, at, bytes) {
            Ok(()) => Ok(()),
            Err(_) => Err(StoreFault::NoMemory),
        }
    }

    fn set_length(&mut self, g: Gfid, keep: u64, length: u64) -> Result<(), StoreFault>
        requires length { length ≤ 2 ^ 30 }
        ensures ok { OnOk result (kept_by self.new ≡ sized (kept_by self.old) g.0 keep length) }
        ensures err { OnErr result (kept_by self.new ≡ kept_by self.old) }
        ensures cause { HasFaultCause failed (failing_of self.old).faults (failing_of self.new).faults result }
        ensures fails { FailsByList Method.SetLength (failing_of self.old) (failing_of self.new) result }
    {
        self.failing.begin(Method::SetLength)?;
        resize_in(&mut self.records, g, keep, length);
        Ok(())
    }

    fn name(&mut self, g: Gfid, n: &Name) -> Result<Option<Child>, StoreFault>
        ensures same { kept_by self.new ≡ kept_by self.old }
        ensures value { IfOk result (λ c. NameIs (kept_by self.old) g.0 n.now c) }
        ensures cause { HasFaultCause failed (failing_of self.old).faults (failing_of self.new).faults result }
        ensures fails { FailsByList Method.Name (failing_of self.old) (failing_of self.new) result }
    {
        self.failing.begin(Method::Name)?;
        Ok(name_in(&self.records, g, n))
    }

    fn set_name(&mut self, g: Gfid, n: &Name, c: Option<Child>) -> Result<(), StoreFault>
        ensures ok { OnOk result (kept_by self.new ≡ with_name (kept_by self.old) g.0 n.now c) }
        ensures err { OnErr result (kept_by self.new ≡ kept_by self.old) }
        ensures cause { HasFaultCause failed (failing_of self.old).faults (failing_of self.new).faults result }
        ensures fails { FailsByList Method.SetName (failing_of self.old) (failing_of self.new) result }
    {
        self.failing.begin(Method::SetName)?;
        match set_name_in(&mut self.records, g, n, c) {
            Ok(()) => Ok(()),
            Err(_) => Err(StoreFault::NoMemory),
        }
    }

    fn put_names(
        &mut self,
        g: Gfid,
        after: Option<&Name>,
        upto: Option<&Name>,
        list: &NameList,
    ) -> Result<(), StoreFault>
        ensures ok { OnOk result (kept_by self.new ≡ with_names (kept_by self.old) g.0 (option_copied after.entry) (option_copied upto.entry) list.now) }
        ensures err { OnErr result (kept_by self.new ≡ kept_by self.old) }
        ensures cause { HasFaultCause failed (failing_of self.old).faults (failing_of self.new).faults result }
        ensures fails { FailsByList Method.PutNames (failing_of self.old) (failing_of self.new) result }
    {
        self.failing.begin(Method::PutNames)?;
        match replace_in(&mut self.records, g, after, upto, list) {
            Ok(()) => Ok(()),
            Err(_) => Err(StoreFault::NoMemory),
        }
    }

    fn names_after(&mut self, g: Gfid, after: Option<&Name>) -> Result<NameList, StoreFault>
        ensures same { kept_by self.new ≡ kept_by self.old }
        ensures few { IfOk result (λ l. length l ≤ 64) }
        ensures rising { IfOk result (λ l. is_rising (option_copied after.entry) l ≡ true) }
        ensures value { IfOk result (λ l. PageIs (kept_by self.old) g.0 (option_copied after.entry) l) }
        ensures cause { HasFaultCause failed (failing_of self.old).faults (failing_of self.new).faults result }
        ensures fails { FailsByList Method.NamesAfter (failing_of self.old) (failing_of self.new) result }
    {
        self.failing.begin(Method::NamesAfter)?;
        match page_in(self.alloc, &self.records, g, after) {
            Ok(list) => Ok(list),
            Err(_) => Err(StoreFault::NoMemory),
        }
    }

    fn heads_after(&mut self, after: Option<Gfid>) -> Result<Option<Gfid>, StoreFault>
        ensures same { kept_by self.new ≡ kept_by self.old }
        ensures above { IfOk result (λ n. IfSome n (λ n. IsAbove after n.0)) }
        ensures value { IfOk result (λ n. NextIs (kept_by self.old) after n) }
        ensures cause { HasFaultCause failed (failing_of self.old).faults (failing_of self.new).faults result }
        ensures fails { FailsByList Method.HeadsAfter (failing_of self.old) (failing_of self.new) result }
    {
        self.failing.begin(Method::HeadsAfter)?;
        Ok(next_in(&self.records, after))
    }
}
