// The heads of a gfid by brick, and the good group among them.
ghost use Rattle.std.specs.Prelude.{◌≡◌, ◌<◌, ◌≤◌, ◌-◌, ℕ, None, Some, cond, nat_lt, true, length, map, slice_get, IfErr, IfOk};
ghost use Rattle.std.specs.List.{list_all};
ghost use Rattle.ec_answers.specs.Grouping.{given_by};
ghost use Rattle.ec_attr.specs.Bricks.{bricks};
ghost use Rattle.ec_store.specs.Records.{Records, head_at};
ghost use Rattle.ec_report.specs.Reading.{HasRisen, OnlyRead};
ghost use Rattle.ec_report.specs.Records.{AreGood, given_of, head_of, heads_at};

use crate::fault::{CheckFault, fault_of};
use ec_answers::{Answers, Given, Grouped, group};
use ec_attr::{BrickSet, Geometry, Gfid, Head};
use ec_store::BrickStore;
use std::alloc::Global;

/// The head of a gfid at brick `b`.
fn read_head<S: BrickStore>(stores: &mut [S], b: usize, g: Gfid) -> Result<Option<Head>, CheckFault>
    requires brick { b < length stores.old }
    requires few { length stores.old ≤ 31 }
    ensures reads { OnlyRead (list_all S.told stores.old) (list_all S.told stores.new) (map S.records stores.old) (map S.records stores.new) (map S.faults stores.old) (map S.faults stores.new) }
    ensures cause { IfErr result (HasRisen (map S.faults stores.old) (map S.faults stores.new)) }
    ensures head { IfOk result (λ head. list_all S.told stores.old ≡ true → (m : Records) → slice_get (map S.records stores.old) b ≡ Some m → head ≡ head_at m g.0) }
{
    let store = &mut stores[b];
    match store.head(g) {
        Ok(head) => Ok(head),
        Err(e) => Err(fault_of(b as u8, e)),
    }
}

/// The head of a gfid at each brick.
pub fn read_heads<S: BrickStore>(
    alloc: Global,
    stores: &mut [S],
    g: Gfid,
) -> Result<Vec<Option<Head>>, CheckFault>
    requires few { length stores.old ≤ 31 }
    ensures reads { OnlyRead (list_all S.told stores.old) (list_all S.told stores.new) (map S.records stores.old) (map S.records stores.new) (map S.faults stores.old) (map S.faults stores.new) }
    ensures cause { IfErr result (HasRisen (map S.faults stores.old) (map S.faults stores.new)) }
    ensures many { IfOk result (λ heads. length heads.items ≡ length stores.old) }
    ensures heads { IfOk result (λ heads. list_all S.told stores.old ≡ true → heads.items ≡ heads_at (map S.records stores.old) g.0) }
{
    let mut heads = Vec::new(alloc);
    for b in 0..stores.len() {
        let head = match read_head(stores, b, g) {
            Ok(head) => head,
            Err(e) => return Err(e),
        };
        if let Err(_) = heads.push(head) {
            return Err(CheckFault::NoMemory);
        }
    }
    Ok(heads)
}

/// What brick `b` answers, where it has the head that stands at its place; else it has not answered.
fn given_at(heads: &[Option<Head>], b: u8) -> Option<Given>
    ensures { result ≡ given_of (head_of heads.now b) }
{
    match heads.get(usize::from(b)) {
        Some(Some(head)) => Some(Given::Head(*head)),
        _ => None,
    }
}

/// These heads as answers of the bricks.
fn answers_of(heads: &[Option<Head>]) -> Answers
    ensures { (b : ℕ) → given_by result b ≡ cond (nat_lt b 31) (given_of (head_of heads.now b)) None }
{
    let mut given = [None; 31];
    for b in 0..31u8 {
        given[usize::from(b)] = given_at(heads, b);
    }
    Answers { given }
}

/// The bricks of the good group among these heads, none where there is none.
pub fn good_bricks(heads: &[Option<Head>], geometry: &Geometry) -> BrickSet
    requires many { length heads.now ≤ geometry.now.n }
    ensures { AreGood (geometry.now.n - geometry.now.r) (head_of heads.now) (bricks result) }
{
    let answers = answers_of(heads);
    match group(&answers, geometry) {
        Grouped::Group(g) => g.bricks,
        Grouped::Gone(_) => BrickSet::empty(),
        Grouped::Fewer(_) => BrickSet::empty(),
    }
}
