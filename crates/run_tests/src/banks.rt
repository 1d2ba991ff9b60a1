// Which kernel a volume's option chooses.
use crate::playing::{fresh, joined, run_with};
use ec_bank::times_plain;
use ec_bitslice::dot;
use ec_field::Chunk;
use ec_run::Status;
use ec_store::{MemSink, MemSource};
use std::cell::Cell;
use std::process::Abort;
use std::test::Fail;

/// A write within stripes and a read.
const SCRIPT: &str =
    "call 1 create 1 66\nsettle\ncall 1 write 2 0 11*6144\nsettle\ncall 1 write 2 2047 22*3000\nsettle\n\
    call 1 read 2 0 6144 via 1,2,4,5\nsettle\n";

const WANTED: [(&str, usize); 5] = [
    ("1 child file 2\n2 ok 6144\n3 ok 6144\n4 data ", 1),
    ("11", 2047),
    ("22", 3000),
    ("11", 1097),
    ("\n", 1),
];

/// Whether each kernel was called, of the plain product and of the sum of products.
fn called(rt: &(impl Abort + AllocGlobal), extensions: &str) -> Result<(bool, bool), Fail> {
    let alloc = rt.alloc();
    let volume = joined(
        alloc,
        &[
            ("volume v\ntype cluster/disperse\noption redundancy 2\n", 1),
            ("option cpu-extensions ", 1),
            (extensions, 1),
            ("\nsubvolumes a b c d e f\nend-volume\n", 1),
        ],
    )?;
    let products = Cell::new(0u64);
    let sums = Cell::new(0u64);
    let mut stores = fresh(alloc, 6)?;
    let ran = run_with(
        alloc,
        &["play"],
        MemSource::new(volume, None),
        MemSource::new(joined(alloc, &[(SCRIPT, 1)])?, None),
        MemSink::new(alloc, None, None),
        &mut stores,
        |a: u8, c: &Chunk| {
            products.set(products.get().wrapping_add(1));
            times_plain(a, c)
        },
        |a: &[u8], c: &[Chunk]| {
            sums.set(sums.get().wrapping_add(1));
            dot(a, c)
        },
    );
    assert_eq!(rt; ran.status, Status::Done);
    assert_eq!(rt; ran.out.bytes(), joined(alloc, &WANTED)?.items());
    Ok((products.get() > 0, sums.get() > 0))
}

#[test]
fn the_option_chooses_the_kernel(rt: HostRuntime) -> Result<(), Fail> {
    assert_eq!(rt; called(&rt, "none")?, (true, false));
    assert_eq!(rt; called(&rt, "auto")?, (false, true));
    assert_eq!(rt; called(&rt, "x64")?, (false, true));
    Ok(())
}
