// Pages of gfids.
ghost use Rattle.std.specs.Prelude.{◌≡◌, ◌≤◌, IfOk, IfSome, is_some, length, true};
ghost use Rattle.ec_brick.specs.Gfids.{IsGfidPage, IsNextGfid, gfids_rise, is_above};
ghost use Rattle.ec_index.specs.Members.{members};
ghost use Rattle.ec_store.specs.Does.{Does, HasFaultCause, failed};

use ec_attr::Gfid;
use ec_index::Index;
use ec_store::{BrickStore, StoreFault};
use ec_wire::GfidList;
use std::alloc::{AllocError, Global};

/// The most gfids of a page.
const PAGE: u32 = 64;

/// The least gfid of an index above `after`.
fn next_dirty(index: &Index, after: Option<Gfid>) -> Option<Gfid>
    ensures { IsNextGfid (members index.now) after result }
{
    let least = Gfid(0);
    match after {
        Some(g) => index.after(g),
        None if index.has(least) => Some(least),
        None => index.after(least),
    }
}

/// The least gfid of a store's records above `after`.
fn next_record<S: BrickStore>(
    store: &mut S,
    after: Option<Gfid>,
) -> Result<Option<Gfid>, StoreFault>
    ensures does { Does (S.told store.old) (S.told store.new) (S.records store.old) (S.records store.new) (S.records store.old) result }
    ensures above { IfOk result (λ n. IfSome n (λ n. is_above after n.0 ≡ true)) }
    ensures value { IfOk result (λ n. S.told store.old ≡ true → IsNextGfid (λ g. is_some (S.records store.old g)) after n) }
    ensures cause { HasFaultCause failed (S.faults store.old) (S.faults store.new) result }
{
    store.heads_after(after)
}

/// The next 64 gfids of an index past `after`.
#[tactic(auto, using(crate::proofs::GfidPages::filling))]
pub fn dirty_gfids(
    alloc: Global,
    index: &Index,
    after: Option<Gfid>,
) -> Result<GfidList, AllocError>
    ensures { IfOk result (λ l. IsGfidPage after (members index.now) l) }
{
    let mut list = GfidList::new(alloc);
    let mut last = after;
    for _ in 0..PAGE {
        match next_dirty(index, last) {
            Some(g) => {
                list.push(g)?;
                last = Some(g);
            }
            None => return Ok(list),
        }
    }
    Ok(list)
}

/// The next 64 gfids of a store's records past `after`.
#[tactic(auto, using(crate::proofs::GfidPages::filling))]
pub fn record_gfids<S: BrickStore>(
    alloc: Global,
    store: &mut S,
    after: Option<Gfid>,
) -> Result<GfidList, StoreFault>
    ensures does { Does (S.told store.old) (S.told store.new) (S.records store.old) (S.records store.new) (S.records store.old) result }
    ensures few { IfOk result (λ l. length l ≤ 64) }
    ensures rise { IfOk result (λ l. gfids_rise after l ≡ true) }
    ensures page { IfOk result (λ l. S.told store.old ≡ true → IsGfidPage after (λ g. is_some (S.records store.old g)) l) }
    ensures cause { HasFaultCause failed (S.faults store.old) (S.faults store.new) result }
{
    let mut list = GfidList::new(alloc);
    let mut last = after;
    for _ in 0..PAGE {
        match next_record(store, last)? {
            Some(g) => {
                if list.push(g).is_err() {
                    return Err(StoreFault::NoMemory);
                }
                last = Some(g);
            }
            None => return Ok(list),
        }
    }
    Ok(list)
}
