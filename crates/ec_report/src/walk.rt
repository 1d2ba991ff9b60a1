// The walk over the records of a store and the names of its directories, in rising order.
ghost use Rattle.std.specs.Prelude.{◌≡◌, ◌<◌, ◌^◌, ℕ, Bool, true, None, Some, Option, IfOk, IfSome, List, OnOk, option_copied, slice_index};
ghost use Rattle.ec_attr.specs.declared.kind.Kind.TheVariants.{Dir};
ghost use Rattle.ec_brick.specs.Opening.{IsNamed};
ghost use Rattle.ec_brick.specs.Walk.{IsText, next_page, passed, reached};
ghost use Rattle.ec_index.specs.Members.{members};
ghost use Rattle.ec_store.specs.Does.{Does, HasFaultCause, failed};
ghost use Rattle.ec_store.specs.Reads.{IsAbove, NextIs};
ghost use Rattle.ec_store.specs.Records.{Record, is_past, kind_at};
ghost use Rattle.ec_report.specs.Reading.{GrowsBy, LeadsTo};
ghost use Rattle.ec_report.specs.Records.{HasRecord};

use crate::found::{Found, put_children};
use ec_attr::{Gfid, Kind, Name, NameList};
use ec_index::Index;
use ec_store::{BrickStore, StoreFault};
use std::alloc::AllocError;

/// How many names a full page has.
const FULL: usize = 64;

/// What holds of every name: its bytes are few, and each is below 2^8.
fn name_laws(name: &Name)
    ensures { IsText name.now }
{
    byte_laws(name.bytes());
}

/// What holds of all bytes.
fn byte_laws(bytes: &[u8])
    ensures { (i : ℕ) → slice_index bytes.now i < 2 ^ 8 }
{}

/// The last name of a full page, past which the next one begins; none where the page shows all that are left.
fn next_page(page: &NameList) -> Result<Option<Name>, AllocError>
    ensures value { IfOk result (λ next. (after : Option (List ℕ)) → next ≡ next_page after page.now) }
    ensures text { IfOk result (λ next. IfSome next IsText) }
{
    let entries = page.items();
    if entries.len() < FULL {
        return Ok(None);
    }
    match entries {
        [.., (last, _)] => {
            name_laws(last);
            Ok(Some(last.copy()?))
        }
        [] => Ok(None),
    }
}

/// Puts the children in that the names of a directory past `after` lead to, up to the name that it answers, all where it
/// answers none.
fn name_page<S: BrickStore>(
    store: &mut S,
    g: Gfid,
    after: Option<&Name>,
    named: &mut Index,
) -> Result<Option<Name>, StoreFault>
    requires dir { S.told store.old ≡ true → kind_at (S.records store.old) g.0 ≡ Some Dir }
    ensures does { Does (S.told store.old) (S.told store.new) (S.records store.old) (S.records store.new) (S.records store.old) result }
    ensures cause { HasFaultCause failed (S.faults store.old) (S.faults store.new) result }
    ensures grows { IfOk result (λ next. S.told store.old ≡ true → (set : ℕ → Bool) (r : Record) → S.records store.old g.0 ≡ Some r
        → GrowsBy (LeadsTo (passed (option_copied after.entry) r.names)) set (members named.old)
        → GrowsBy (LeadsTo (reached next r.names)) set (members named.new)) }
    ensures past { IfOk result (λ next. IfSome next (λ last. is_past (option_copied after.entry) last ≡ true)) }
    ensures text { IfOk result (λ next. IfSome next IsText) }
{
    let page = match store.names_after(g, after) {
        Ok(page) => page,
        Err(e) => return Err(e),
    };
    if let Err(_) = put_children(named, page.items()) {
        return Err(StoreFault::NoMemory);
    }
    match next_page(&page) {
        Ok(next) => Ok(next),
        Err(_) => Err(StoreFault::NoMemory),
    }
}

/// Puts the children of a directory in.
fn name_all<S: BrickStore>(store: &mut S, g: Gfid, named: &mut Index) -> Result<(), StoreFault>
    requires dir { S.told store.old ≡ true → kind_at (S.records store.old) g.0 ≡ Some Dir }
    ensures does { Does (S.told store.old) (S.told store.new) (S.records store.old) (S.records store.new) (S.records store.old) result }
    ensures cause { HasFaultCause failed (S.faults store.old) (S.faults store.new) result }
    ensures grows { OnOk result (S.told store.old ≡ true → (r : Record) → S.records store.old g.0 ≡ Some r
        → GrowsBy (LeadsTo r.names) (members named.old) (members named.new)) }
{
    let mut after = match name_page(store, g, None, named) {
        Ok(after) => after,
        Err(e) => return Err(e),
    };
    while let Some(last) = after {
        after = match name_page(store, g, Some(&last), named) {
            Ok(next) => next,
            Err(e) => return Err(e),
        };
    }
    Ok(())
}

/// Puts a gfid that has a record in, with its children where it is a directory's. One without a head is passed over.
fn find_record<S: BrickStore>(store: &mut S, g: Gfid, found: &mut Found) -> Result<(), StoreFault>
    ensures does { Does (S.told store.old) (S.told store.new) (S.records store.old) (S.records store.new) (S.records store.old) result }
    ensures cause { HasFaultCause failed (S.faults store.old) (S.faults store.new) result }
    ensures kept { OnOk result (S.told store.old ≡ true → (r : Record) → S.records store.old g.0 ≡ Some r
        → GrowsBy (λ h. h ≡ g.0) (members found.old.kept) (members found.new.kept)) }
    ensures named { OnOk result (S.told store.old ≡ true → (r : Record) → S.records store.old g.0 ≡ Some r
        → GrowsBy (λ h. (r.head.kind ≡ Dir) × LeadsTo r.names h) (members found.old.named) (members found.new.named)) }
{
    let head = match store.head(g) {
        Ok(Some(head)) => head,
        Ok(None) => return Ok(()),
        Err(e) => return Err(e),
    };
    if let Err(_) = found.kept.set(g, true) {
        return Err(StoreFault::NoMemory);
    }
    match head.kind {
        Kind::File => Ok(()),
        Kind::Dir => match name_all(store, g, &mut found.named) {
            Ok(()) => Ok(()),
            Err(e) => Err(e),
        },
    }
}

/// Puts all gfids of a store in.
pub fn find_records<S: BrickStore>(store: &mut S, found: &mut Found) -> Result<(), StoreFault>
    ensures does { Does (S.told store.old) (S.told store.new) (S.records store.old) (S.records store.new) (S.records store.old) result }
    ensures cause { HasFaultCause failed (S.faults store.old) (S.faults store.new) result }
    ensures kept { OnOk result (S.told store.old ≡ true → GrowsBy (HasRecord (S.records store.old)) (members found.old.kept) (members found.new.kept)) }
    ensures named { OnOk result (S.told store.old ≡ true → GrowsBy (IsNamed (S.records store.old)) (members found.old.named) (members found.new.named)) }
{
    let mut next = match store.heads_after(None) {
        Ok(next) => next,
        Err(e) => return Err(e),
    };
    while let Some(g) = next {
        if let Err(e) = find_record(store, g, found) {
            return Err(e);
        }
        next = match store.heads_after(Some(g)) {
            Ok(next) => next,
            Err(e) => return Err(e),
        };
    }
    Ok(())
}
