// A store of the records of a brick.
ghost use Rattle.std.specs.Prelude.{◌≡◌, ℕ, ◌+◌, ◌<◌, ◌≤◌, ◌^◌, Bool, true, Some, option_copied, length, IfSome, OnOk, OnErr, IfOk};
ghost use Rattle.ec_store.specs.Does.{Does, HasFaultCause, WritesPart, failed};
ghost use Rattle.ec_store.specs.Pages.{are_within, is_rising};
ghost use Rattle.ec_store.specs.Reads.{ChunkIs, IsAbove, NameIs, NextIs, PageIs};
ghost use Rattle.ec_store.specs.Records.{Records, head_at, kind_at, sized, with_head, with_name, with_names, without};

use ec_attr::{Child, Gfid, Head, Kind, Name, NameList};
use ec_field::Chunk;

/// Why a call of a store did nothing, or of a write maybe not all.
#[derive(Clone, Copy, Debug, PartialEq, Eq)]
pub enum StoreFault {
    /// The store failed and counted it.
    Failed,
    /// The store found no memory.
    NoMemory,
}

/// Keeps the records of one brick. Whether it tells what it keeps stays as it is through each call. After an error
/// nothing has changed, but for a write of bytes that failed.
pub trait BrickStore {
    /// Whether the store tells what it keeps.
    ghost told: { Self → Bool };

    /// What it keeps, where it tells.
    ghost records: { Self → Records };

    /// How often a call has failed, up to 2^64 - 1.
    ghost faults: { Self → ℕ };

    /// The head of a record, none where there is no record.
    fn head(&mut self, g: Gfid) -> Result<Option<Head>, StoreFault>
        ensures does { Does (told self.old) (told self.new) (records self.old) (records self.new) (records self.old) result }
        ensures size { IfOk result (λ h. IfSome h (λ h. h.size ≤ 2 ^ 40)) }
        ensures value { IfOk result (λ h. told self.old ≡ true → h ≡ head_at (records self.old) g.0) }
        ensures cause { HasFaultCause failed (faults self.old) (faults self.new) result };

    /// Sets the head. A new record has an empty fragment and no names.
    fn put_head(&mut self, g: Gfid, h: &Head) -> Result<(), StoreFault>
        requires { h.now.size ≤ 2 ^ 40 }
        ensures does { Does (told self.old) (told self.new) (records self.old) (records self.new) (with_head (records self.old) g.0 h.now) result }
        ensures cause { HasFaultCause failed (faults self.old) (faults self.new) result };

    /// Removes the record.
    fn remove(&mut self, g: Gfid) -> Result<(), StoreFault>
        ensures does { Does (told self.old) (told self.new) (records self.old) (records self.new) (without (records self.old) g.0) result }
        ensures cause { HasFaultCause failed (faults self.old) (faults self.new) result };

    /// The chunk of number `at` of a file: zeros past the end of the fragment. `into` is as before where the call has an error.
    fn read_chunk(&mut self, g: Gfid, at: u64, into: &mut Chunk) -> Result<(), StoreFault>
        requires file { told self.old ≡ true → kind_at (records self.old) g.0 ≡ Some Kind.File }
        requires bound { at < 2 ^ 30 }
        ensures does { Does (told self.old) (told self.new) (records self.old) (records self.new) (records self.old) result }
        ensures value { OnOk result (told self.old ≡ true → ChunkIs (records self.old) g.0 at into.new) }
        ensures kept { OnErr result (into.new ≡ into.old) }
        ensures cause { HasFaultCause failed (faults self.old) (faults self.new) result };

    /// Writes bytes of a file from byte `at` on; a gap before them is zeros. After `Failed` any front part of the bytes
    /// stands.
    fn write_part(&mut self, g: Gfid, at: u64, bytes: &[u8]) -> Result<(), StoreFault>
        requires file { told self.old ≡ true → kind_at (records self.old) g.0 ≡ Some Kind.File }
        requires bound { at + length bytes.now ≤ 2 ^ 39 }
        ensures does { WritesPart (told self.old) (told self.new) (records self.old) (records self.new) g.0 at bytes.now result }
        ensures cause { HasFaultCause failed (faults self.old) (faults self.new) result };

    /// Makes the chunks of a file from `keep` on zeros, and its fragment `length` chunks long.
    fn set_length(&mut self, g: Gfid, keep: u64, length: u64) -> Result<(), StoreFault>
        requires file { told self.old ≡ true → kind_at (records self.old) g.0 ≡ Some Kind.File }
        requires keep { keep ≤ 2 ^ 30 }
        requires length { length ≤ 2 ^ 30 }
        ensures does { Does (told self.old) (told self.new) (records self.old) (records self.new) (sized (records self.old) g.0 keep length) result }
        ensures cause { HasFaultCause failed (faults self.old) (faults self.new) result };

    /// What a name in a directory leads to, none where there is no such name.
    fn name(&mut self, g: Gfid, n: &Name) -> Result<Option<Child>, StoreFault>
        requires dir { told self.old ≡ true → kind_at (records self.old) g.0 ≡ Some Kind.Dir }
        ensures does { Does (told self.old) (told self.new) (records self.old) (records self.new) (records self.old) result }
        ensures value { IfOk result (λ c. told self.old ≡ true → NameIs (records self.old) g.0 n.now c) }
        ensures cause { HasFaultCause failed (faults self.old) (faults self.new) result };

    /// Sets a name in a directory, or removes it.
    fn set_name(&mut self, g: Gfid, n: &Name, c: Option<Child>) -> Result<(), StoreFault>
        requires dir { told self.old ≡ true → kind_at (records self.old) g.0 ≡ Some Kind.Dir }
        ensures does { Does (told self.old) (told self.new) (records self.old) (records self.new) (with_name (records self.old) g.0 n.now c) result }
        ensures cause { HasFaultCause failed (faults self.old) (faults self.new) result };

    /// Replaces all names of a directory past `after` and not past `upto` by the list, whose names are such.
    fn put_names(
        &mut self,
        g: Gfid,
        after: Option<&Name>,
        upto: Option<&Name>,
        list: &NameList,
    ) -> Result<(), StoreFault>
        requires dir { told self.old ≡ true → kind_at (records self.old) g.0 ≡ Some Kind.Dir }
        requires rising { is_rising (option_copied after) list.now ≡ true }
        requires within { are_within (option_copied upto) list.now ≡ true }
        ensures does { Does (told self.old) (told self.new) (records self.old) (records self.new) (with_names (records self.old) g.0 (option_copied after.entry) (option_copied upto.entry) list.now) result }
        ensures cause { HasFaultCause failed (faults self.old) (faults self.new) result };

    /// The next 64 names of a directory past `after`, in byte order.
    fn names_after(&mut self, g: Gfid, after: Option<&Name>) -> Result<NameList, StoreFault>
        requires dir { told self.old ≡ true → kind_at (records self.old) g.0 ≡ Some Kind.Dir }
        ensures does { Does (told self.old) (told self.new) (records self.old) (records self.new) (records self.old) result }
        ensures few { IfOk result (λ l. length l ≤ 64) }
        ensures rising { IfOk result (λ l. is_rising (option_copied after.entry) l ≡ true) }
        ensures value { IfOk result (λ l. told self.old ≡ true → PageIs (records self.old) g.0 (option_copied after.entry) l) }
        ensures cause { HasFaultCause failed (faults self.old) (faults self.new) result };

    /// The next gfid above `after` that has a record, the least one where `after` is none.
    fn heads_after(&mut self, after: Option<Gfid>) -> Result<Option<Gfid>, StoreFault>
        ensures does { Does (told self.old) (told self.new) (records self.old) (records self.new) (records self.old) result }
        ensures above { IfOk result (λ n. IfSome n (λ n. IsAbove after n.0)) }
        ensures value { IfOk result (λ n. told self.old ≡ true → NextIs (records self.old) after n) }
        ensures cause { HasFaultCause failed (faults self.old) (faults self.new) result };
}
