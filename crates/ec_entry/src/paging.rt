// What the pages of names come to that the bricks of a group replied in one round.
ghost use Rattle.std.specs.BTreeMap.{IsOrdered, get};
ghost use Rattle.std.specs.Cmp.Lexicographic.{slice_cmp};
ghost use Rattle.std.specs.Ordering.{is_eq, nat_cmp};
ghost use Rattle.std.specs.declared.option.Option.{Option};
ghost use Rattle.std.specs.Prelude.{◌≡◌, ◌++◌, ◌+◌, ◌<◌, ◌≤◌, ℕ, is_some, IfNone, IfOk, IfSome, List, OnOk, option_copied};
ghost use Rattle.ec_entry.specs.Named.{NoneAlike, count_of, says};
ghost use Rattle.ec_entry.specs.Paging.{Entries, Gathers, GathersBelow, GathersOne, IsEntry, IsLeast, IsPart, IsUpto, count_paged, end_in, full_end, paged, said_of};
ghost use Rattle.ec_store.specs.Records.{is_inside, is_past, is_within, listed};
ghost use Rattle.ec_txn.specs.Replies.{reply_at};

use crate::named::is_same;
use ec_attr::{BrickSet, Child, Name, NameList};
use ec_txn::Known;
use ec_wire::{Listing, Reply};
use std::alloc::{AllocError, Global};
use std::cmp::Ordering;
use std::collections::BTreeMap;

fn is_same_name(a: &Name, b: &Name) -> bool
    ensures { result ≡ is_eq (slice_cmp nat_cmp a.now b.now) }
{
    a.cmp(b) == Ordering::Equal
}

fn is_past(after: Option<&Name>, name: &Name) -> bool
    ensures { result ≡ is_past (option_copied after.entry) name.now }
{
    match after {
        Some(after) => after < name,
        None => true,
    }
}

fn is_within(upto: Option<&Name>, name: &Name) -> bool
    ensures { result ≡ is_within (option_copied upto.entry) name.now }
{
    match upto {
        Some(upto) => name <= upto,
        None => true,
    }
}

fn is_inside(after: Option<&Name>, upto: Option<&Name>, name: &Name) -> bool
    ensures { result ≡ is_inside (option_copied after.entry) (option_copied upto.entry) name.now }
{
    is_past(after, name) && is_within(upto, name)
}

/// The child that a page gives a name.
fn find(page: &NameList, name: &Name) -> Option<Child>
    ensures { result ≡ listed page.now name.now }
{
    for (other, child) in page.items() {
        if is_same_name(name, other) {
            return Some(*child);
        }
    }
    None
}

/// What a brick of the set said of a name, where it replied a page.
fn said_by(known: &Known, bricks: &BrickSet, name: &Name, brick: u8) -> Option<Option<Child>>
    requires { brick < 31 }
    ensures { result ≡ said_of (paged bricks.now (reply_at known.now.replies.items.items)) name.now brick }
{
    if !bricks.has(brick) || usize::from(brick) >= known.replies.items.len() {
        return None;
    }
    match &known.replies.items[usize::from(brick)] {
        Some(Reply::Names(page)) => Some(find(page, name)),
        _ => None,
    }
}

fn says_value(
    known: &Known,
    bricks: &BrickSet,
    name: &Name,
    value: Option<Child>,
    brick: u8,
) -> bool
    requires { brick < 31 }
    ensures { result ≡ says value (said_of (paged bricks.now (reply_at known.now.replies.items.items)) name.now brick) }
{
    match said_by(known, bricks, name, brick) {
        Some(other) => is_same(value, other),
        None => false,
    }
}

/// How many bricks said this value of a name.
#[tactic(auto, using(ec_attr::proofs::Sets::counting))]
fn count_alike(known: &Known, bricks: &BrickSet, name: &Name, value: Option<Child>) -> u8
    ensures { result ≡ count_of (said_of (paged bricks.now (reply_at known.now.replies.items.items)) name.now) value }
{
    let mut count = 0;
    for brick in 0..31u8 {
        if says_value(known, bricks, name, value, brick) {
            count += 1;
        }
    }
    count
}

/// The value that K bricks said of a name.
fn alike(known: &Known, bricks: &BrickSet, k: u8, name: &Name) -> Option<Option<Child>>
    ensures some { IfSome result (λ v. k ≤ count_of (said_of (paged bricks.now (reply_at known.now.replies.items.items)) name.now) v) }
    ensures none { IfNone result (NoneAlike k (said_of (paged bricks.now (reply_at known.now.replies.items.items)) name.now)) }
{
    for brick in 0..31u8 {
        if let Some(value) = said_by(known, bricks, name, brick) {
            if count_alike(known, bricks, name, value) >= k {
                return Some(value);
            }
        }
    }
    None
}

/// How a name is listed: with the child on which K bricks agree, or as open; None where K bricks say that it isn't there.
fn entry_of(known: &Known, bricks: &BrickSet, k: u8, name: &Name) -> Option<Option<Child>>
    ensures { IsEntry k (said_of (paged bricks.now (reply_at known.now.replies.items.items)) name.now) result }
{
    match alike(known, bricks, k, name) {
        Some(Some(child)) => Some(Some(child)),
        Some(None) => None,
        None => Some(None),
    }
}

fn did_page(known: &Known, bricks: &BrickSet, brick: u8) -> bool
    requires { brick < 31 }
    ensures { result ≡ is_some (paged bricks.now (reply_at known.now.replies.items.items) brick) }
{
    if !bricks.has(brick) || usize::from(brick) >= known.replies.items.len() {
        return false;
    }
    matches!(
        &known.replies.items[usize::from(brick)],
        Some(Reply::Names(_))
    )
}

/// How many bricks replied a page.
#[tactic(auto, using(ec_attr::proofs::Sets::counting))]
pub fn count_paged(known: &Known, bricks: &BrickSet) -> u8
    ensures { result ≡ count_paged (paged bricks.now (reply_at known.now.replies.items.items)) }
{
    let mut count = 0;
    for brick in 0..31u8 {
        if did_page(known, bricks, brick) {
            count += 1;
        }
    }
    count
}

/// The last name of a full page.
fn full_end(page: &NameList) -> Result<Option<Name>, AllocError>
    ensures { IfOk result (λ end. end ≡ full_end page.now) }
{
    if page.len() != 64 {
        return Ok(None);
    }
    match page.items() {
        [.., last] => Ok(Some(last.0.copy()?)),
        [] => Ok(None),
    }
}

/// The last name of a brick's page, where that is full.
fn end_of(known: &Known, bricks: &BrickSet, brick: u8) -> Result<Option<Name>, AllocError>
    requires { brick < 31 }
    ensures { IfOk result (λ end. end ≡ end_in (paged bricks.now (reply_at known.now.replies.items.items) brick)) }
{
    if !bricks.has(brick) || usize::from(brick) >= known.replies.items.len() {
        return Ok(None);
    }
    match &known.replies.items[usize::from(brick)] {
        Some(Reply::Names(page)) => full_end(page),
        _ => Ok(None),
    }
}

/// The lesser of two names, where they are there.
fn lesser(least: Option<Name>, end: Option<Name>) -> Option<Name>
    ensures { (b : ℕ) (ends : ℕ → Option (List ℕ)) → ends b ≡ end → IsLeast b ends least → IsLeast (b + 1) ends result }
{
    let Some(end) = end else {
        return least;
    };
    if is_within(least.as_ref(), &end) {
        Some(end)
    } else {
        least
    }
}

/// How far the pages tell: the least last name of a full page, None where no page is full.
pub fn upto(known: &Known, bricks: &BrickSet) -> Result<Option<Name>, AllocError>
    ensures { IfOk result (λ upto. IsUpto (paged bricks.now (reply_at known.now.replies.items.items)) upto) }
{
    let mut least: Option<Name> = None;
    for brick in 0..31u8 {
        let end = end_of(known, bricks, brick)?;
        least = lesser(least, end);
    }
    Ok(least)
}

/// Gathers a name, as it is listed, where it lies past `after` and not past `upto`.
fn gather_one(
    known: &Known,
    bricks: &BrickSet,
    k: u8,
    after: Option<&Name>,
    upto: Option<&Name>,
    name: &Name,
    names: &mut BTreeMap<Name, Option<Child>>,
) -> Result<(), AllocError>
    ensures { OnOk result (GathersOne k (paged bricks.now (reply_at known.now.replies.items.items)) (option_copied after.entry) (option_copied upto.entry) name.now (get (slice_cmp nat_cmp) names.old) (get (slice_cmp nat_cmp) names.new)) }
{
    if !is_inside(after, upto, name) {
        return Ok(());
    }
    let Some(entry) = entry_of(known, bricks, k, name) else {
        return Ok(());
    };
    names.insert(name.copy()?, entry)?;
    Ok(())
}

/// Gathers the names of a page.
fn gather(
    known: &Known,
    bricks: &BrickSet,
    k: u8,
    after: Option<&Name>,
    upto: Option<&Name>,
    page: &NameList,
    names: &mut BTreeMap<Name, Option<Child>>,
) -> Result<(), AllocError>
    ensures { OnOk result (Gathers k (paged bricks.now (reply_at known.now.replies.items.items)) (option_copied after.entry) (option_copied upto.entry) page.now (get (slice_cmp nat_cmp) names.old) (get (slice_cmp nat_cmp) names.new)) }
{
    for (name, _) in page.items() {
        gather_one(known, bricks, k, after, upto, name, names)?;
    }
    Ok(())
}

/// The page that a brick of the set replied.
fn page_of(known: &Known, bricks: BrickSet, brick: u8) -> Option<&NameList>
    requires { brick < 31 }
    ensures { option_copied result ≡ paged bricks (reply_at known.now.replies.items.items) brick }
{
    if !bricks.has(brick) || usize::from(brick) >= known.replies.items.len() {
        return None;
    }
    match &known.replies.items[usize::from(brick)] {
        Some(Reply::Names(page)) => Some(page),
        _ => None,
    }
}

/// Gathers the names of a brick's page.
fn gather_at(
    known: &Known,
    bricks: &BrickSet,
    k: u8,
    after: Option<&Name>,
    upto: Option<&Name>,
    brick: u8,
    names: &mut BTreeMap<Name, Option<Child>>,
) -> Result<(), AllocError>
    requires { brick < 31 }
    ensures { OnOk result (GathersBelow k brick (paged bricks.now (reply_at known.now.replies.items.items)) (option_copied after.entry) (option_copied upto.entry) (get (slice_cmp nat_cmp) names.old) → GathersBelow k (brick + 1) (paged bricks.now (reply_at known.now.replies.items.items)) (option_copied after.entry) (option_copied upto.entry) (get (slice_cmp nat_cmp) names.new)) }
{
    let Some(page) = page_of(known, *bricks, brick) else {
        return Ok(());
    };
    gather(known, bricks, k, after, upto, page, names)
}

/// The names of all pages past `after` and not past `upto`.
fn gather_all(
    alloc: Global,
    known: &Known,
    bricks: &BrickSet,
    k: u8,
    after: Option<&Name>,
    upto: Option<&Name>,
) -> Result<BTreeMap<Name, Option<Child>>, AllocError>
    ensures { IfOk result (λ names. GathersBelow k 31 (paged bricks.now (reply_at known.now.replies.items.items)) (option_copied after.entry) (option_copied upto.entry) (get (slice_cmp nat_cmp) names)) }
{
    let mut names = BTreeMap::new(alloc);
    for brick in 0..31u8 {
        gather_at(known, bricks, k, after, upto, brick, &mut names)?;
    }
    Ok(names)
}

/// Adds names to a list in their order.
fn push_all(names: &BTreeMap<Name, Option<Child>>, list: &mut Listing) -> Result<(), AllocError>
    ensures all { OnOk result (list.new ≡ list.old ++ names.now.entries) }
    ensures ordered { OnOk result (IsOrdered (slice_cmp nat_cmp) names.now) }
{
    for (name, entry) in names {
        list.push((name.copy()?, *entry))?;
    }
    Ok(())
}

/// Adds what a round lists, in which at least K bricks replied a page.
pub fn push_part(
    known: &Known,
    bricks: &BrickSet,
    k: u8,
    after: Option<&Name>,
    upto: Option<&Name>,
    list: &mut Listing,
) -> Result<(), AllocError>
    requires { k ≤ count_paged (paged bricks.now (reply_at known.now.replies.items.items)) }
    ensures { OnOk result ((part : Entries) × (list.new ≡ list.old ++ part) × IsPart k (paged bricks.now (reply_at known.now.replies.items.items)) (option_copied after.entry) (option_copied upto.entry) part) }
{
    let alloc = *known.replies.items.allocator();
    let names = gather_all(alloc, known, bricks, k, after, upto)?;
    push_all(&names, list)
}
