// The records in memory, by the numbers of their gfids, and what each call of a store does to them.
ghost use Rattle.std.specs.Prelude.{◌≡◌, ◌+◌, ◌≤◌, ◌^◌, true, Some, option_copied, length, IfSome, OnOk, OnErr, IfOk};
ghost use Rattle.ec_store.specs.Memory.{record_of, records_of};
ghost use Rattle.ec_store.specs.Pages.{is_rising};
ghost use Rattle.ec_store.specs.Reads.{ChunkIs, NameIs, NextIs, PageIs};
ghost use Rattle.ec_store.specs.Records.{head_at, named, replaced, sized, with_bytes, with_head, with_length, with_name, with_names, without, wrote};

use crate::chunks::{cut, write, zeros};
use crate::memory::Memory;
use crate::names::{page, replace, set_name};
use ec_attr::{Child, Gfid, Head, Name, NameList};
use ec_field::Chunk;
use std::alloc::{AllocError, Global};
use std::collections::BTreeMap;
use std::ops::Bound;

fn set_head(m: &mut Memory, h: &Head)
    requires { h.now.size ≤ 2 ^ 40 }
    ensures { record_of m.new ≡ record (record_of m.old) { head = h.now } }
{
    m.head = *h;
}

fn write_to(m: &mut Memory, at: u64, bytes: &[u8]) -> Result<(), AllocError>
    requires { at + length bytes.now ≤ 2 ^ 39 }
    ensures ok { OnOk result (record_of m.new ≡ with_bytes (record_of m.old) at bytes.now) }
    ensures err { OnErr result (record_of m.new ≡ record_of m.old) }
{
    write(&mut m.chunks, at, bytes)?;
    if bytes.len() > 0 {
        m.ends_at = m.ends_at.max(at + bytes.len() as u64);
    }
    Ok(())
}

fn resize(m: &mut Memory, keep: u64, length: u64)
    requires { length ≤ 2 ^ 30 }
    ensures { record_of m.new ≡ with_length (record_of m.old) keep length }
{
    cut(&mut m.chunks, keep, length);
    m.ends_at = 512 * length;
}

fn name_to(m: &mut Memory, n: &Name, c: Option<Child>) -> Result<(), AllocError>
    ensures ok { OnOk result (record_of m.new ≡ record (record_of m.old) { names = named (record_of m.old).names n.now c }) }
    ensures err { OnErr result (record_of m.new ≡ record_of m.old) }
{
    set_name(&mut m.names, n, c)
}

fn replace_to(
    m: &mut Memory,
    after: Option<&Name>,
    upto: Option<&Name>,
    list: &NameList,
) -> Result<(), AllocError>
    ensures ok { OnOk result (record_of m.new ≡ record (record_of m.old) { names = replaced (record_of m.old).names (option_copied after.entry) (option_copied upto.entry) list.now }) }
    ensures err { OnErr result (record_of m.new ≡ record_of m.old) }
{
    replace(&mut m.names, after, upto, list)
}

/// The head of a record.
pub fn head_in(map: &BTreeMap<u128, Memory>, g: Gfid) -> Option<Head>
    ensures value { result ≡ head_at (records_of map.now) g.0 }
    ensures size { IfSome result (λ h. h.size ≤ 2 ^ 40) }
{
    match map.get(&g.0) {
        Some(m) => Some(m.head),
        None => None,
    }
}

/// Sets the head; a new record has an empty fragment and no names.
pub fn put_head_in(
    alloc: Global,
    map: &mut BTreeMap<u128, Memory>,
    g: Gfid,
    h: &Head,
) -> Result<(), AllocError>
    requires { h.now.size ≤ 2 ^ 40 }
    ensures ok { OnOk result (records_of map.new ≡ with_head (records_of map.old) g.0 h.now) }
    ensures err { OnErr result (records_of map.new ≡ records_of map.old) }
{
    match map.get_mut(&g.0) {
        Some(m) => {
            set_head(m, h);
        }
        None => {
            map.insert(
                g.0,
                Memory {
                    head: *h,
                    chunks: BTreeMap::new(alloc),
                    ends_at: 0,
                    names: BTreeMap::new(alloc),
                },
            )?;
        }
    }
    Ok(())
}

/// Removes a record.
pub fn remove_in(map: &mut BTreeMap<u128, Memory>, g: Gfid)
    ensures { records_of map.new ≡ without (records_of map.old) g.0 }
{
    let _ = map.remove(&g.0);
}

/// A chunk of a file: zeros where it has none.
pub fn read_in(map: &BTreeMap<u128, Memory>, g: Gfid, at: u64, into: &mut Chunk)
    ensures { ChunkIs (records_of map.now) g.0 at into.new }
{
    *into = match map.get(&g.0) {
        Some(m) => match m.chunks.get(&at) {
            Some(c) => *c,
            None => zeros(),
        },
        None => zeros(),
    };
}

/// Writes bytes of a file from byte `at` on.
pub fn write_in(
    map: &mut BTreeMap<u128, Memory>,
    g: Gfid,
    at: u64,
    bytes: &[u8],
) -> Result<(), AllocError>
    requires { at + length bytes.now ≤ 2 ^ 39 }
    ensures ok { OnOk result (records_of map.new ≡ wrote (records_of map.old) g.0 at bytes.now) }
    ensures err { OnErr result (records_of map.new ≡ records_of map.old) }
{
    match map.get_mut(&g.0) {
        Some(m) => {
            write_to(m, at, bytes)?;
        }
        None => {}
    }
    Ok(())
}

/// Makes the chunks of a file from `keep` on zeros, and its fragment `length` chunks long.
pub fn resize_in(map: &mut BTreeMap<u128, Memory>, g: Gfid, keep: u64, length: u64)
    requires { length ≤ 2 ^ 30 }
    ensures { records_of map.new ≡ sized (records_of map.old) g.0 keep length }
{
    if let Some(m) = map.get_mut(&g.0) {
        resize(m, keep, length);
    }
}

/// What a name in a directory leads to.
pub fn name_in(map: &BTreeMap<u128, Memory>, g: Gfid, n: &Name) -> Option<Child>
    ensures { NameIs (records_of map.now) g.0 n.now result }
{
    match map.get(&g.0) {
        Some(m) => m.names.get(n).copied(),
        None => None,
    }
}

/// Sets or removes a name in a directory.
pub fn set_name_in(
    map: &mut BTreeMap<u128, Memory>,
    g: Gfid,
    n: &Name,
    c: Option<Child>,
) -> Result<(), AllocError>
    ensures ok { OnOk result (records_of map.new ≡ with_name (records_of map.old) g.0 n.now c) }
    ensures err { OnErr result (records_of map.new ≡ records_of map.old) }
{
    match map.get_mut(&g.0) {
        Some(m) => {
            name_to(m, n, c)?;
        }
        None => {}
    }
    Ok(())
}

/// Replaces the names of a directory past `after` and not past `upto` by those of the list.
pub fn replace_in(
    map: &mut BTreeMap<u128, Memory>,
    g: Gfid,
    after: Option<&Name>,
    upto: Option<&Name>,
    list: &NameList,
) -> Result<(), AllocError>
    ensures ok { OnOk result (records_of map.new ≡ with_names (records_of map.old) g.0 (option_copied after.entry) (option_copied upto.entry) list.now) }
    ensures err { OnErr result (records_of map.new ≡ records_of map.old) }
{
    match map.get_mut(&g.0) {
        Some(m) => {
            replace_to(m, after, upto, list)?;
        }
        None => {}
    }
    Ok(())
}

/// The first 64 names of a directory past `after`.
pub fn page_in(
    alloc: Global,
    map: &BTreeMap<u128, Memory>,
    g: Gfid,
    after: Option<&Name>,
) -> Result<NameList, AllocError>
    ensures page { IfOk result (PageIs (records_of map.now) g.0 (option_copied after.entry)) }
    ensures rising { IfOk result (λ l. is_rising (option_copied after.entry) l ≡ true) }
    ensures few { IfOk result (λ l. length l ≤ 64) }
{
    match map.get(&g.0) {
        Some(m) => page(alloc, &m.names, after),
        None => Ok(NameList::new(alloc)),
    }
}

/// The next gfid above `after` that has a record.
pub fn next_in(map: &BTreeMap<u128, Memory>, after: Option<Gfid>) -> Option<Gfid>
    ensures { NextIs (records_of map.now) after result }
{
    match after {
        None => map.first_key_value().map(|e| Gfid(*e.0)),
        Some(a) => first_of(map, a.0),
    }
}

fn first_of(map: &BTreeMap<u128, Memory>, after: u128) -> Option<Gfid>
    ensures { NextIs (records_of map.now) (Some (record { 0 = after })) result }
{
    map.range((Bound::Excluded(after), Bound::Unbounded))
        .next()
        .map(|e| Gfid(*e.0))
}
