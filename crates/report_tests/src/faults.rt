// Reports of stores that fail or aren't the volume's, and outputs that fail.
use crate::running::{FOUR_OF_SIX, SYSTEMATIC, TWO_OF_THREE, fresh, play, reports, run_from};
use ec_attr::{Blob, Config, Geometry};
use ec_run::{BricksWhy, Status};
use ec_store::{Fail as StoreFail, FailList, MemSink, MemSource, MemStore};
use std::process::Abort;
use std::test::Fail;

const CREATE: &str = "call 1 create 1 66\nsettle\n";

/// Stores that were written under one algorithm are refused under the other, and neither touched nor told of.
#[test]
fn another_algorithm(rt: HostRuntime) -> Result<(), Fail> {
    let mut stores = fresh(rt.alloc(), 6)?;
    play(&rt, FOUR_OF_SIX, CREATE, &mut stores, "1 child file 2\n")?;
    let config = Config {
        geometry: Geometry::new(6, 2).expect(&rt, "a geometry"),
    };
    let why = Status::WrongBricks(BricksWhy::Config { brick: 0, config });
    for words in [["info"], ["check"]] {
        reports(&rt, &words, SYSTEMATIC, &mut stores, "", why)?;
    }
    let check =
        "00000000-0000-0000-0000-000000000001 dir 1/0/0 1/0/0 1/0/0 1/0/0 1/0/0 1/0/0 group 0,1,2,3,4,5\n\
        00000000-0000-0000-0000-000000000002 file 0/0/0 0/0/0 0/0/0 0/0/0 0/0/0 0/0/0 group 0,1,2,3,4,5\n";
    reports(
        &rt,
        &["check"],
        FOUR_OF_SIX,
        &mut stores,
        check,
        Status::Done,
    )
}

/// There are fewer bricks than the volume names.
#[test]
fn too_few_bricks(rt: HostRuntime) -> Result<(), Fail> {
    let mut stores = fresh(rt.alloc(), 5)?;
    let why = BricksWhy::Count { have: 5, want: 6 };
    for words in [["info"], ["check"]] {
        let status = Status::WrongBricks(why);
        reports(&rt, &words, FOUR_OF_SIX, &mut stores, "", status)?;
    }
    Ok(())
}

/// Three stores, of which that of brick 1 fails at call `call`.
fn failing(rt: &impl AllocGlobal, call: u64) -> Result<Vec<MemStore>, Fail> {
    let mut fails = FailList::new(rt.alloc());
    fails.push(StoreFail::Call(call))?;
    let mut stores = Vec::new(rt.alloc());
    stores.push(MemStore::steady(rt.alloc()))?;
    stores.push(MemStore::new(rt.alloc(), fails))?;
    stores.push(MemStore::steady(rt.alloc()))?;
    Ok(stores)
}

/// A fresh store is asked for its first gfid as it is opened, and gets a root; `check` then asks for the first gfid, for
/// the root's head and names, for the gfid after that, and for the root's head once more.
#[test]
fn a_store_fails(rt: HostRuntime) -> Result<(), Fail> {
    let fault = Status::StoreFault(1);
    let root = "00000000-0000-0000-0000-000000000001 dir 0/0/0 0/0/0 0/0/0 group 0,1,2\n";
    for (call, informed, checked) in [
        (1, fault, fault),
        (3, fault, fault),
        (4, Status::Done, fault),
        (8, Status::Done, fault),
        (9, Status::Done, Status::Done),
    ] {
        let mut stores = failing(&rt, call)?;
        reports(&rt, &["info"], TWO_OF_THREE, &mut stores, "", informed)?;
        let mut stores = failing(&rt, call)?;
        let wanted = if checked == fault { "" } else { root };
        reports(&rt, &["check"], TWO_OF_THREE, &mut stores, wanted, checked)?;
    }
    Ok(())
}

/// The output fails, or takes nothing, at its only write.
#[test]
fn the_output_fails(rt: HostRuntime) -> Result<(), Fail> {
    let alloc = rt.alloc();
    for (fail, stuck) in [(Some(1), None), (None, Some(1))] {
        let mut stores = fresh(alloc, 3)?;
        let script = MemSource::new(Blob::new(alloc), None);
        let sink = MemSink::new(alloc, fail, stuck);
        let ran = run_from(alloc, &["check"], TWO_OF_THREE, script, sink, &mut stores)?;
        assert_eq!(rt; ran.status, Status::WriteFault);
        assert_eq!(rt; ran.out.bytes(), b"".as_slice());
        assert_eq!(rt; ran.log.len(), 0);
    }
    Ok(())
}
