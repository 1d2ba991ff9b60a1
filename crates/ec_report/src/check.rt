// What `check` writes.
ghost use Rattle.std.specs.Prelude.{◌≡◌, ◌≤◌, ◌<◌, ◌-◌, ◌&&◌, ◌==◌, not, Some, true, length, map, slice_get, IfErr, IfOk, OnOk, string_bytes};
ghost use Rattle.std.specs.List.{list_all};
ghost use Rattle.ec_attr.specs.Bricks.{bricks};
ghost use Rattle.ec_brick.specs.Opening.{IsNamed};
ghost use Rattle.ec_index.specs.Members.{members};
ghost use Rattle.ec_store.specs.Records.{Records};
ghost use Rattle.ec_report.specs.Lines.{check_line};
ghost use Rattle.ec_report.specs.Reading.{GrowsBy, HasRisen, IsSetOf, OnlyRead};
ghost use Rattle.ec_report.specs.Records.{AreLines, HasRecord, IsCheck, IsLine, OfAny};

use crate::fault::{CheckFault, fault_of};
use crate::found::{Found, list_of};
use crate::heads::{good_bricks, read_heads};
use crate::walk::find_records;
use crate::words::{lowest_kind, push_group, push_states};
use ec_attr::{BrickSet, Geometry, Gfid, Head, gfid_text};
use ec_index::Index;
use ec_store::BrickStore;
use ec_wire::push_word;
use std::alloc::{AllocError, Global};

/// The root directory, which no name leads to.
const ROOT: Gfid = Gfid(1);

/// Whether no name leads to a gfid that isn't the root's.
fn is_orphan(named: &Index, g: Gfid) -> bool
    ensures { result ≡ (not (members named.now g.0) && not (g.0 == 1)) }
{
    !named.has(g) && g.0 != ROOT.0
}

/// The line of a gfid.
fn line_of(
    alloc: Global,
    g: Gfid,
    heads: &[Option<Head>],
    group: &BrickSet,
    orphan: bool,
) -> Result<String, AllocError>
    ensures { IfOk result (λ line. string_bytes line ≡ check_line g.0 heads.now (bricks group.now) orphan) }
{
    let mut line = gfid_text(alloc, g)?;
    push_word(&mut line, lowest_kind(heads))?;
    push_states(&mut line, heads)?;
    push_group(&mut line, group, orphan)?;
    line.push('\n')?;
    Ok(line)
}

/// Finds the gfids of brick `b`'s store.
fn find_in<S: BrickStore>(stores: &mut [S], b: usize, found: &mut Found) -> Result<(), CheckFault>
    requires brick { b < length stores.old }
    requires few { length stores.old ≤ 31 }
    ensures reads { OnlyRead (list_all S.told stores.old) (list_all S.told stores.new) (map S.records stores.old) (map S.records stores.new) (map S.faults stores.old) (map S.faults stores.new) }
    ensures cause { IfErr result (HasRisen (map S.faults stores.old) (map S.faults stores.new)) }
    ensures kept { OnOk result (list_all S.told stores.old ≡ true → (m : Records) → slice_get (map S.records stores.old) b ≡ Some m → GrowsBy (HasRecord m) (members found.old.kept) (members found.new.kept)) }
    ensures named { OnOk result (list_all S.told stores.old ≡ true → (m : Records) → slice_get (map S.records stores.old) b ≡ Some m → GrowsBy (IsNamed m) (members found.old.named) (members found.new.named)) }
{
    let store = &mut stores[b];
    match find_records(store, found) {
        Ok(()) => Ok(()),
        Err(e) => Err(fault_of(b as u8, e)),
    }
}

/// Finds the gfids of all stores.
fn find_all<S: BrickStore>(alloc: Global, stores: &mut [S]) -> Result<Found, CheckFault>
    requires few { length stores.old ≤ 31 }
    ensures reads { OnlyRead (list_all S.told stores.old) (list_all S.told stores.new) (map S.records stores.old) (map S.records stores.new) (map S.faults stores.old) (map S.faults stores.new) }
    ensures cause { IfErr result (HasRisen (map S.faults stores.old) (map S.faults stores.new)) }
    ensures kept { IfOk result (λ found. list_all S.told stores.old ≡ true → IsSetOf (OfAny HasRecord (map S.records stores.old)) (members found.kept)) }
    ensures named { IfOk result (λ found. list_all S.told stores.old ≡ true → IsSetOf (OfAny IsNamed (map S.records stores.old)) (members found.named)) }
{
    let mut found = Found::new(alloc);
    for b in 0..stores.len() {
        if let Err(e) = find_in(stores, b, &mut found) {
            return Err(e);
        }
    }
    Ok(found)
}

/// Reads the heads of a gfid and makes its line.
fn check_gfid<S: BrickStore>(
    alloc: Global,
    geometry: &Geometry,
    stores: &mut [S],
    g: Gfid,
    named: &Index,
) -> Result<String, CheckFault>
    requires count { length stores.old ≡ geometry.now.n }
    ensures reads { OnlyRead (list_all S.told stores.old) (list_all S.told stores.new) (map S.records stores.old) (map S.records stores.new) (map S.faults stores.old) (map S.faults stores.new) }
    ensures cause { IfErr result (HasRisen (map S.faults stores.old) (map S.faults stores.new)) }
    ensures line { IfOk result (λ line. list_all S.told stores.old ≡ true → IsSetOf (OfAny IsNamed (map S.records stores.old)) (members named.now) → IsLine (geometry.now.n - geometry.now.r) (map S.records stores.old) g.0 (string_bytes line)) }
{
    let heads = match read_heads(alloc, stores, g) {
        Ok(heads) => heads,
        Err(e) => return Err(e),
    };
    let all = heads.as_slice();
    let group = good_bricks(all, geometry);
    match line_of(alloc, g, all, &group, is_orphan(named, g)) {
        Ok(line) => Ok(line),
        Err(_) => Err(CheckFault::NoMemory),
    }
}

/// A line for each of these gfids.
fn check_gfids<S: BrickStore>(
    alloc: Global,
    geometry: &Geometry,
    stores: &mut [S],
    gfids: &[Gfid],
    named: &Index,
) -> Result<String, CheckFault>
    requires count { length stores.old ≡ geometry.now.n }
    ensures reads { OnlyRead (list_all S.told stores.old) (list_all S.told stores.new) (map S.records stores.old) (map S.records stores.new) (map S.faults stores.old) (map S.faults stores.new) }
    ensures cause { IfErr result (HasRisen (map S.faults stores.old) (map S.faults stores.new)) }
    ensures lines { IfOk result (λ text. list_all S.told stores.old ≡ true → IsSetOf (OfAny IsNamed (map S.records stores.old)) (members named.now) → AreLines (geometry.now.n - geometry.now.r) (map S.records stores.old) gfids.now (string_bytes text)) }
{
    let mut text = String::new(alloc);
    for g in gfids {
        let line = match check_gfid(alloc, geometry, stores, *g, named) {
            Ok(line) => line,
            Err(e) => return Err(e),
        };
        if let Err(_) = text.push_str(line.as_str()) {
            return Err(CheckFault::NoMemory);
        }
    }
    Ok(text)
}

/// The report of `check` on the stores of a volume, brick 0 first: a line for each gfid of which a brick has a record,
/// rising. It has the id, the kind of the lowest brick that has it, for each brick the version, the size and the dirty
/// number of its record (an m before a version that is marked) or a hyphen, the bricks of the good group, and whether it
/// is an orphan. The stores are only read.
pub fn check_text<S: BrickStore>(
    alloc: Global,
    geometry: &Geometry,
    stores: &mut [S],
) -> Result<String, CheckFault>
    requires count { length stores.old ≡ geometry.now.n }
    ensures reads { OnlyRead (list_all S.told stores.old) (list_all S.told stores.new) (map S.records stores.old) (map S.records stores.new) (map S.faults stores.old) (map S.faults stores.new) }
    ensures cause { IfErr result (HasRisen (map S.faults stores.old) (map S.faults stores.new)) }
    ensures text { IfOk result (λ text. list_all S.told stores.old ≡ true → IsCheck (geometry.now.n - geometry.now.r) (map S.records stores.old) (string_bytes text)) }
{
    let found = match find_all(alloc, stores) {
        Ok(found) => found,
        Err(e) => return Err(e),
    };
    let gfids = match list_of(alloc, &found.kept) {
        Ok(gfids) => gfids,
        Err(_) => return Err(CheckFault::NoMemory),
    };
    check_gfids(alloc, geometry, stores, gfids.as_slice(), &found.named)
}
