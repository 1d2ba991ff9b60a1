// The names of a directory in memory.
ghost use Rattle.std.specs.Prelude.{◌≡◌, ◌≤◌, true, option_copied, length, OnOk, OnErr, IfOk};
ghost use Rattle.std.specs.Range.Bound.{bound_map};
ghost use Rattle.ec_store.specs.Memory.{names_of};
ghost use Rattle.ec_store.specs.Pages.{first_names, is_rising, IsPage, start_of};
ghost use Rattle.ec_store.specs.Records.{dropped, filled, is_inside, is_past, is_within, named, replaced};

use ec_attr::{Child, Name, NameList};
use std::alloc::{AllocError, Global};
use std::collections::BTreeMap;
use std::ops::Bound;

/// Sets or removes a name.
pub fn set_name(
    names: &mut BTreeMap<Name, Child>,
    n: &Name,
    c: Option<Child>,
) -> Result<(), AllocError>
    ensures ok { OnOk result (names_of names.new ≡ named (names_of names.old) n.now c) }
    ensures err { OnErr result (names_of names.new ≡ names_of names.old) }
{
    match c {
        Some(c) => {
            names.insert(n.copy()?, c)?;
        }
        None => {
            names.remove(n);
        }
    }
    Ok(())
}

fn is_past(after: Option<&Name>, n: &Name) -> bool
    ensures { result ≡ is_past (option_copied after.entry) n.now }
{
    match after {
        Some(a) => a < n,
        None => true,
    }
}

fn is_within(upto: Option<&Name>, n: &Name) -> bool
    ensures { result ≡ is_within (option_copied upto.entry) n.now }
{
    match upto {
        Some(b) => n <= b,
        None => true,
    }
}

fn is_inside(after: Option<&Name>, upto: Option<&Name>, n: &Name) -> bool
    ensures { result ≡ is_inside (option_copied after.entry) (option_copied upto.entry) n.now }
{
    is_past(after, n) && is_within(upto, n)
}

fn copy_of(names: &BTreeMap<Name, Child>) -> Result<BTreeMap<Name, Child>, AllocError>
    ensures { IfOk result (λ m. names_of m ≡ names_of names.now) }
{
    names.clone()
}

fn drop_inside(names: &mut BTreeMap<Name, Child>, after: Option<&Name>, upto: Option<&Name>)
    ensures { names_of names.new ≡ dropped (names_of names.old) (option_copied after.entry) (option_copied upto.entry) }
{
    names.retain(|n, _| !is_inside(after, upto, n));
}

fn fill(names: &mut BTreeMap<Name, Child>, list: &NameList) -> Result<(), AllocError>
    ensures { OnOk result (names_of names.new ≡ filled (names_of names.old) list.now) }
{
    for (n, c) in list.items() {
        names.insert(n.copy()?, *c)?;
    }
    Ok(())
}

/// Replaces the names past `after` and not past `upto` by those of the list. After want of memory some may be missing.
pub fn put_names(
    names: &mut BTreeMap<Name, Child>,
    after: Option<&Name>,
    upto: Option<&Name>,
    list: &NameList,
) -> Result<(), AllocError>
    ensures { OnOk result (names_of names.new ≡ replaced (names_of names.old) (option_copied after.entry) (option_copied upto.entry) list.now) }
{
    drop_inside(names, after, upto);
    fill(names, list)
}

/// The same, and after want of memory the names are as before.
pub fn replace(
    names: &mut BTreeMap<Name, Child>,
    after: Option<&Name>,
    upto: Option<&Name>,
    list: &NameList,
) -> Result<(), AllocError>
    ensures ok { OnOk result (names_of names.new ≡ replaced (names_of names.old) (option_copied after.entry) (option_copied upto.entry) list.now) }
    ensures err { OnErr result (names_of names.new ≡ names_of names.old) }
{
    let mut fresh = copy_of(names)?;
    put_names(&mut fresh, after, upto, list)?;
    *names = fresh;
    Ok(())
}

fn start_of(after: Option<&Name>) -> Bound<&Name>
    ensures { bound_map (λ n. n.now) result ≡ start_of (option_copied after.entry) }
{
    match after {
        Some(a) => Bound::Excluded(a),
        None => Bound::Unbounded,
    }
}

/// The first 64 names past `after`.
pub fn page(
    alloc: Global,
    names: &BTreeMap<Name, Child>,
    after: Option<&Name>,
) -> Result<NameList, AllocError>
    ensures value { IfOk result (λ l. l ≡ first_names (option_copied after.entry) names.now.entries) }
    ensures page { IfOk result (IsPage (option_copied after.entry) (names_of names.now)) }
    ensures rising { IfOk result (λ l. is_rising (option_copied after.entry) l ≡ true) }
    ensures few { IfOk result (λ l. length l ≤ 64) }
{
    let mut rest = names.range((start_of(after), Bound::Unbounded));
    let mut list = NameList::new(alloc);
    while list.len() < 64 {
        match rest.next() {
            Some((n, c)) => {
                list.push((n.copy()?, *c))?;
            }
            None => return Ok(list),
        }
    }
    Ok(list)
}
