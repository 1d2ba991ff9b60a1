// The walk over the names of a directory and over the records of a store, in rising order.
ghost use Rattle.std.specs.Prelude.{◌≡◌, ◌<◌, ◌≤◌, ◌^◌, ℕ, true, None, Some, Option, IfErr, IfOk, IfSome, List, OnOk, option_copied, slice_index};
ghost use Rattle.ec_attr.specs.declared.config.Config.{Config};
ghost use Rattle.ec_attr.specs.declared.kind.Kind.TheVariants.{Dir};
ghost use Rattle.ec_store.specs.Does.{Does, HasFaultCause};
ghost use Rattle.ec_store.specs.Put.{put};
ghost use Rattle.ec_store.specs.Reads.{IsAbove, NextIs};
ghost use Rattle.ec_store.specs.Records.{Record, Records, head_at, is_past, kind_at};
ghost use Rattle.ec_brick.specs.Opening.{Accepts, IsForeign, IsStartFault, Refuses};
ghost use Rattle.ec_brick.specs.StartFault.{is_of_store, start_failed};
ghost use Rattle.ec_brick.specs.Walk.{InRange, IsText, Sees, next_page, passed, reached, renamed};

use crate::accepted::check_head;
use crate::seen::Seen;
use crate::start_fault::{StartFault, of_store};
use ec_attr::{Config, Gfid, Head, Kind, Name, NameList};
use ec_store::BrickStore;
use std::alloc::{AllocError, Global};

/// How many names a full page has.
const FULL: usize = 64;

/// What holds of all bytes.
fn byte_laws(bytes: &[u8])
    ensures { (i : ℕ) → slice_index bytes.now i < 2 ^ 8 }
{}

/// What holds of every name.
fn name_laws(name: &Name)
    ensures { IsText name.now }
{
    byte_laws(name.bytes());
}

/// The last name of a full page, past which the next one begins; none where the page shows all that are left.
fn next_page(page: &NameList) -> Result<Option<Name>, AllocError>
    ensures value { IfOk result (λ next. (after : Option (List ℕ)) → next ≡ next_page after page.now) }
    ensures text { IfOk result (λ next. IfSome next IsText) }
{
    let entries = page.items();
    if entries.len() < FULL {
        return Ok(None);
    }
    match entries {
        [.., (last, _)] => {
            name_laws(last);
            Ok(Some(last.copy()?))
        }
        [] => Ok(None),
    }
}

/// Sees the names of a directory past `after`, up to the one that it answers, all where it answers none.
fn see_names_after<S: BrickStore>(
    store: &mut S,
    g: Gfid,
    after: Option<&Name>,
    seen: &mut Seen,
) -> Result<Option<Name>, StartFault>
    requires dir { S.told store.old ≡ true → kind_at (S.records store.old) g.0 ≡ Some Dir }
    ensures does { Does (S.told store.old) (S.told store.new) (S.records store.old) (S.records store.new) (S.records store.old) result }
    ensures cause { HasFaultCause start_failed (S.faults store.old) (S.faults store.new) result }
    ensures fault { IfErr result (λ e. is_of_store e ≡ true) }
    ensures sees { IfOk result (λ next. S.told store.old ≡ true → (config : Config) (m : Records) (r : Record) → S.records store.old g.0 ≡ Some r
        → Sees config (put m g.0 (Some (renamed r (passed (option_copied after.entry) r.names)))) seen.old
        → Sees config (put m g.0 (Some (renamed r (reached next r.names)))) seen.new) }
    ensures range { InRange seen.old → 0 < seen.old.greatest → InRange seen.new }
    ensures positive { seen.old.greatest ≤ seen.new.greatest }
    ensures past { IfOk result (λ next. IfSome next (λ last. is_past (option_copied after.entry) last ≡ true)) }
    ensures text { IfOk result (λ next. IfSome next IsText) }
{
    let page = match store.names_after(g, after) {
        Ok(page) => page,
        Err(e) => return Err(of_store(e)),
    };
    seen.see_page(&page);
    match next_page(&page) {
        Ok(next) => Ok(next),
        Err(_) => Err(StartFault::NoMemory),
    }
}

/// Sees all names of a directory.
fn see_names<S: BrickStore>(store: &mut S, g: Gfid, seen: &mut Seen) -> Result<(), StartFault>
    requires dir { S.told store.old ≡ true → kind_at (S.records store.old) g.0 ≡ Some Dir }
    ensures does { Does (S.told store.old) (S.told store.new) (S.records store.old) (S.records store.new) (S.records store.old) result }
    ensures cause { HasFaultCause start_failed (S.faults store.old) (S.faults store.new) result }
    ensures fault { IfErr result (λ e. is_of_store e ≡ true) }
    ensures sees { OnOk result (S.told store.old ≡ true → (config : Config) (m : Records) (r : Record) → S.records store.old g.0 ≡ Some r
        → Sees config (put m g.0 (Some (renamed r (λ n. None)))) seen.old → Sees config (put m g.0 (Some r)) seen.new) }
    ensures range { InRange seen.old → 0 < seen.old.greatest → InRange seen.new }
{
    let mut after = match see_names_after(store, g, None, seen) {
        Ok(after) => after,
        Err(e) => return Err(e),
    };
    while let Some(last) = after {
        after = match see_names_after(store, g, Some(&last), seen) {
            Ok(next) => next,
            Err(e) => return Err(e),
        };
    }
    Ok(())
}

/// Checks and sees the record of a gfid, with its names where it is a directory's. A gfid without a head is passed over.
#[tactic(auto, using(crate::proofs::Walking::of_store_foreign))]
fn see_gfid<S: BrickStore>(
    config: Config,
    store: &mut S,
    g: Gfid,
    seen: &mut Seen,
) -> Result<(), StartFault>
    ensures does { Does (S.told store.old) (S.told store.new) (S.records store.old) (S.records store.new) (S.records store.old) result }
    ensures cause { HasFaultCause start_failed (S.faults store.old) (S.faults store.new) result }
    ensures sees { OnOk result (S.told store.old ≡ true → (m : Records) (r : Record) → S.records store.old g.0 ≡ Some r → m g.0 ≡ None
        → Sees config m seen.old → Sees config (put m g.0 (Some r)) seen.new) }
    ensures refused { IfErr result (λ e. S.told store.old ≡ true → (r : Record) → S.records store.old g.0 ≡ Some r → Refuses config g.0 r.head e) }
    ensures foreign { IfErr result (IsForeign config) }
    ensures range { OnOk result (InRange seen.old → InRange seen.new) }
{
    let head = match store.head(g) {
        Ok(Some(head)) => head,
        Ok(None) => return Ok(()),
        Err(e) => return Err(of_store(e)),
    };
    if let Err(e) = check_head(&config, g, &head) {
        return Err(e);
    }
    if let Err(_) = seen.see_head(config, g, &head) {
        return Err(StartFault::NoMemory);
    }
    match head.kind {
        Kind::File => Ok(()),
        Kind::Dir => match see_names(store, g, seen) {
            Ok(()) => Ok(()),
            Err(e) => Err(e),
        },
    }
}

/// The next gfid above `after` that has a record, as the store says it.
fn next_gfid<S: BrickStore>(store: &mut S, after: Option<Gfid>) -> Result<Option<Gfid>, StartFault>
    ensures does { Does (S.told store.old) (S.told store.new) (S.records store.old) (S.records store.new) (S.records store.old) result }
    ensures cause { HasFaultCause start_failed (S.faults store.old) (S.faults store.new) result }
    ensures fault { IfErr result (λ e. is_of_store e ≡ true) }
    ensures above { IfOk result (λ n. IfSome n (λ n. IsAbove after n.0)) }
    ensures value { IfOk result (λ n. S.told store.old ≡ true → NextIs (S.records store.old) after n) }
{
    match store.heads_after(after) {
        Ok(next) => Ok(next),
        Err(e) => Err(of_store(e)),
    }
}

/// Sees all records of a store, or answers the fault of the lowest gfid that has one.
#[tactic(auto, using(crate::proofs::Walking::of_store_foreign))]
pub fn see_records<S: BrickStore>(
    alloc: Global,
    config: Config,
    store: &mut S,
) -> Result<Seen, StartFault>
    ensures does { Does (S.told store.old) (S.told store.new) (S.records store.old) (S.records store.new) (S.records store.old) result }
    ensures cause { HasFaultCause start_failed (S.faults store.old) (S.faults store.new) result }
    ensures sees { IfOk result (λ s. S.told store.old ≡ true → Sees config (S.records store.old) s) }
    ensures refused { IfErr result (λ e. S.told store.old ≡ true → IsStartFault config (S.records store.old) e) }
    ensures foreign { IfErr result (IsForeign config) }
    ensures range { IfOk result InRange }
{
    let mut seen = Seen::new(alloc);
    let mut next = match next_gfid(store, None) {
        Ok(next) => next,
        Err(e) => return Err(e),
    };
    while let Some(g) = next {
        if let Err(e) = see_gfid(config, store, g, &mut seen) {
            return Err(e);
        }
        next = match next_gfid(store, Some(g)) {
            Ok(next) => next,
            Err(e) => return Err(e),
        };
    }
    Ok(seen)
}
