// Changes of heads, which the index follows.
ghost use Rattle.std.specs.Prelude.{◌≡◌, ◌≤◌, ◌^◌, OnErr, OnOk, false, true};
ghost use Rattle.ec_brick.specs.Index.{is_dirty};
ghost use Rattle.ec_index.specs.Members.{members, with_member};
ghost use Rattle.ec_store.specs.Does.{Does, HasFaultCause, failed};
ghost use Rattle.ec_store.specs.Records.{with_head, without};

use crate::heads::is_dirty;
use ec_attr::{Gfid, Head};
use ec_index::Index;
use ec_store::{BrickStore, StoreFault};

/// Puts a gfid into a set that doesn't have it.
fn add(set: &mut Index, g: Gfid) -> Result<(), StoreFault>
    ensures ok { OnOk result (members set.new ≡ with_member (members set.old) g.0 true) }
    ensures err { OnErr result (members set.new ≡ members set.old) }
    ensures memory { failed result ≡ false }
{
    match set.set(g, true) {
        Ok(()) => Ok(()),
        Err(_) => Err(StoreFault::NoMemory),
    }
}

/// Takes a gfid out of a set.
fn drop_from(set: &mut Index, g: Gfid)
    ensures { members set.new ≡ with_member (members set.old) g.0 false }
{
    let _ = set.set(g, false);
}

/// Puts a head. The index has the gfid afterwards exactly where that is dirty. Its memory is taken before the store is
/// called, and given back where the store fails.
pub fn put<S: BrickStore>(
    store: &mut S,
    index: &mut Index,
    g: Gfid,
    h: &Head,
) -> Result<(), StoreFault>
    requires { h.now.size ≤ 2 ^ 40 }
    ensures does { Does (S.told store.old) (S.told store.new) (S.records store.old) (S.records store.new) (with_head (S.records store.old) g.0 h.now) result }
    ensures cause { HasFaultCause failed (S.faults store.old) (S.faults store.new) result }
    ensures indexed { OnOk result (members index.new ≡ with_member (members index.old) g.0 (is_dirty h.now)) }
    ensures kept { OnErr result (members index.new ≡ members index.old) }
{
    if !is_dirty(h) {
        store.put_head(g, h)?;
        drop_from(index, g);
        return Ok(());
    }
    if index.has(g) {
        store.put_head(g, h)?;
        return Ok(());
    }
    add(index, g)?;
    match store.put_head(g, h) {
        Ok(()) => Ok(()),
        Err(fault) => {
            drop_from(index, g);
            Err(fault)
        }
    }
}

/// Removes a record and with it the gfid from the index, and remembers that it was removed. The memory for that is
/// taken before the store is called, and given back where the store fails.
pub fn remove<S: BrickStore>(
    store: &mut S,
    index: &mut Index,
    removed: &mut Index,
    g: Gfid,
) -> Result<(), StoreFault>
    ensures does { Does (S.told store.old) (S.told store.new) (S.records store.old) (S.records store.new) (without (S.records store.old) g.0) result }
    ensures cause { HasFaultCause failed (S.faults store.old) (S.faults store.new) result }
    ensures indexed { OnOk result (members index.new ≡ with_member (members index.old) g.0 false) }
    ensures kept { OnErr result (members index.new ≡ members index.old) }
    ensures gone { OnOk result (members removed.new ≡ with_member (members removed.old) g.0 true) }
    ensures same { OnErr result (members removed.new ≡ members removed.old) }
{
    if removed.has(g) {
        store.remove(g)?;
        drop_from(index, g);
        return Ok(());
    }
    add(removed, g)?;
    match store.remove(g) {
        Ok(()) => {
            drop_from(index, g);
            Ok(())
        }
        Err(fault) => {
            drop_from(removed, g);
            Err(fault)
        }
    }
}
