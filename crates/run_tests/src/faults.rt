// Sources, sinks and stores that fail, with what is written and logged before it.
use crate::playing::{FOUR_OF_SIX, TWO_OF_THREE, fresh, joined, plays_over, run_from};
use ec_attr::Blob;
use ec_run::Status;
use ec_store::{Fail as StoreFail, FailList, MemSink, MemSource, MemStore, Method};
use ec_wire::{Entry, Log};
use std::alloc::{AllocError, Global};
use std::process::Abort;
use std::test::Fail;

/// A file is made, a line is longer than a read, and the file's size is asked for twice, once without a settle.
const SCRIPT: [(&str, usize); 4] = [
    ("call 1 create 1 66\nsettle\n#", 1),
    ("#", 5000),
    ("\ncall 1 stat 2\nsettle\n", 1),
    ("call 1 stat 2\n", 1),
];

/// Its texts, each of which is written by one write.
const TEXTS: [&str; 3] = ["1 child file 2\n", "2 ok 0\n", "open 3\n"];

/// So many of its texts.
fn texts(alloc: Global, count: usize) -> Result<Blob, AllocError> {
    let mut blob = Blob::new(alloc);
    for text in TEXTS.iter().take(count) {
        blob.extend(text.as_bytes())?;
    }
    Ok(blob)
}

/// How many answers a log has.
fn answers(log: &Log) -> usize {
    let mut count = 0usize;
    for entry in log.items() {
        if let Entry::Answered { .. } = entry {
            count = count.saturating_add(1);
        }
    }
    count
}

/// The script is played so, and so many texts are written and answers logged.
fn ends(
    rt: &(impl Abort + AllocGlobal),
    reads: Option<u64>,
    sink: MemSink,
    status: Status,
    written: usize,
    answered: usize,
) -> Result<(), Fail> {
    let alloc = rt.alloc();
    let volume = Blob::from_slice(alloc, TWO_OF_THREE.as_bytes())?;
    let mut stores = fresh(alloc, 3)?;
    let ran = run_from(
        alloc,
        &["play"],
        MemSource::new(volume, None),
        MemSource::new(joined(alloc, &SCRIPT)?, reads),
        sink,
        &mut stores,
    );
    assert_eq!(rt; ran.status, status, "{reads:?}");
    assert_eq!(rt;
        ran.out.bytes(),
        texts(alloc, written)?.items(),
        "{reads:?}"
    );
    assert_eq!(rt; answers(&ran.log), answered, "{reads:?}");
    Ok(())
}

/// The first read fails, the second, and the last one, which would tell the end; one more is never made.
#[test]
fn the_script_fails(rt: HostRuntime) -> Result<(), Fail> {
    for (read, status, written, answered) in [
        (1, Status::ReadFault, 0, 0),
        (2, Status::ReadFault, 1, 1),
        (3, Status::ReadFault, 2, 2),
        (4, Status::Done, 3, 2),
    ] {
        let sink = MemSink::new(rt.alloc(), None, None);
        ends(&rt, Some(read), sink, status, written, answered)?;
    }
    Ok(())
}

/// A write fails, or takes nothing: the texts before it stand whole, and what was answered is in the log.
#[test]
fn the_output_fails(rt: HostRuntime) -> Result<(), Fail> {
    for (write, status, written, answered) in [
        (1, Status::WriteFault, 0, 1),
        (2, Status::WriteFault, 1, 2),
        (3, Status::WriteFault, 2, 2),
        (4, Status::Done, 3, 2),
    ] {
        let failing = MemSink::new(rt.alloc(), Some(write), None);
        ends(&rt, None, failing, status, written, answered)?;
        let stuck = MemSink::new(rt.alloc(), None, Some(write));
        ends(&rt, None, stuck, status, written, answered)?;
    }
    Ok(())
}

/// A volume file that can't be read.
#[test]
fn the_volume_file_fails(rt: HostRuntime) -> Result<(), Fail> {
    let alloc = rt.alloc();
    for read in [1, 2] {
        let volume = Blob::from_slice(alloc, TWO_OF_THREE.as_bytes())?;
        let mut stores = fresh(alloc, 3)?;
        let ran = run_from(
            alloc,
            &["play"],
            MemSource::new(volume, Some(read)),
            MemSource::new(joined(alloc, &SCRIPT)?, None),
            MemSink::new(alloc, None, None),
            &mut stores,
        );
        assert_eq!(rt; ran.status, Status::ReadFault, "{read}");
        assert_eq!(rt; (ran.out.writes(), ran.log.len()), (0, 0), "{read}");
    }
    Ok(())
}

/// Stores of which those of a list fail so.
fn failing(
    alloc: Global,
    count: u8,
    bricks: &[u8],
    fail: StoreFail,
) -> Result<Vec<MemStore>, AllocError> {
    let mut stores = Vec::new(alloc);
    for brick in 0..count {
        let mut fails = FailList::new(alloc);
        if bricks.contains(&brick) {
            fails.push(fail)?;
        }
        stores.push(MemStore::new(alloc, fails))?;
    }
    Ok(stores)
}

/// A store that fails as it is opened ends the run before the script, the lowest first.
#[test]
fn a_store_fails_at_opening(rt: HostRuntime) -> Result<(), Fail> {
    let script = [("call 1 create 1 66\nsettle\n", 1)];
    for call in [1, 2] {
        let mut stores = failing(rt.alloc(), 3, &[1, 2], StoreFail::Call(call))?;
        plays_over(
            &rt,
            TWO_OF_THREE,
            &script,
            &mut stores,
            &[],
            Status::StoreFault(1),
        )?;
    }
    Ok(())
}

/// A store that fails in a call is a brick that doesn't do its part: one of six is left out, and with three too few are left.
#[test]
fn stores_fail_in_a_call(rt: HostRuntime) -> Result<(), Fail> {
    let script = [(
        "call 1 create 1 66\nsettle\ncall 1 write 2 0 41*2048\nsettle\n",
        1,
    )];
    let fail = StoreFail::Each(Method::WritePart);
    let mut stores = failing(rt.alloc(), 6, &[2], fail)?;
    plays_over(
        &rt,
        FOUR_OF_SIX,
        &script,
        &mut stores,
        &[("1 child file 2\n2 ok 2048\n", 1)],
        Status::Done,
    )?;
    let mut stores = failing(rt.alloc(), 6, &[2, 3, 4], fail)?;
    plays_over(
        &rt,
        FOUR_OF_SIX,
        &script,
        &mut stores,
        &[("1 child file 2\n2 noquorum write 3\n", 1)],
        Status::Done,
    )
}
