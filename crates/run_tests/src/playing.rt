// Scripts that are played through the top call, over sources, a sink and stores in memory.
use ec_attr::Blob;
use ec_bank::{Bank, Combine, Multiply, RowBank};
use ec_bitslice::{dot, mul_plain};
use ec_field::Chunk;
use ec_run::{Status, run};
use ec_store::{MemSink, MemSource, MemStore};
use ec_wire::Log;
use std::alloc::{AllocError, Global};
use std::process::Abort;
use std::test::Fail;

/// Three bricks, of which any two read a file.
pub const TWO_OF_THREE: &str =
    "volume v\ntype cluster/disperse\noption redundancy 1\nsubvolumes a b c\nend-volume\n";

/// Six bricks, of which any four read a file.
pub const FOUR_OF_SIX: &str =
    "volume v\ntype cluster/disperse\noption redundancy 2\nsubvolumes a b c d e f\nend-volume\n";

/// The sets of four of six bricks.
pub const FOURS: [&str; 15] = [
    "0,1,2,3", "0,1,2,4", "0,1,2,5", "0,1,3,4", "0,1,3,5", "0,1,4,5", "0,2,3,4", "0,2,3,5",
    "0,2,4,5", "0,3,4,5", "1,2,3,4", "1,2,3,5", "1,2,4,5", "1,3,4,5", "2,3,4,5",
];

/// What a run left.
#[derive(Drop)]
pub struct Ran {
    pub status: Status,
    pub out: MemSink,
    pub log: Log,
}

/// Adds texts in a row, each as often as it says.
pub fn add(blob: &mut Blob, texts: &[(&str, usize)]) -> Result<(), AllocError> {
    for (text, count) in texts {
        for _ in 0..*count {
            blob.extend(text.as_bytes())?;
        }
    }
    Ok(())
}

/// Texts in a row, each as often as it says.
pub fn joined(alloc: Global, texts: &[(&str, usize)]) -> Result<Blob, AllocError> {
    let mut blob = Blob::new(alloc);
    add(&mut blob, texts)?;
    Ok(blob)
}

/// So many stores without records, which never fail.
pub fn fresh(alloc: Global, count: u64) -> Result<Vec<MemStore>, AllocError> {
    let mut stores = Vec::new(alloc);
    for _ in 0..count {
        stores.push(MemStore::steady(alloc))?;
    }
    Ok(stores)
}

/// Runs words with these kernels.
pub fn run_with<F: Multiply, G: Combine>(
    alloc: Global,
    words: &[&str],
    volume: MemSource,
    script: MemSource,
    sink: MemSink,
    stores: &mut Vec<MemStore>,
    plain: F,
    fused: G,
) -> Ran
    requires plain { F.multiplies plain }
    requires fused { G.combines fused }
{
    let mut volume = volume;
    let mut script = script;
    let mut out = sink;
    let mut log = Log::new(alloc);
    let status = run(
        alloc,
        words,
        &mut volume,
        &mut script,
        &mut out,
        stores,
        &Bank::new(plain),
        &RowBank::new(fused),
        &mut log,
    );
    Ran { status, out, log }
}

/// Runs words with the program's kernels.
pub fn run_from(
    alloc: Global,
    words: &[&str],
    volume: MemSource,
    script: MemSource,
    sink: MemSink,
    stores: &mut Vec<MemStore>,
) -> Ran {
    run_with(
        alloc,
        words,
        volume,
        script,
        sink,
        stores,
        |a: u8, c: &Chunk| mul_plain(a, c),
        |a: &[u8], c: &[Chunk]| dot(a, c),
    )
}

/// Runs words over a volume file and a script in which nothing fails.
pub fn run_over(
    alloc: Global,
    words: &[&str],
    volume: &str,
    script: Blob,
    stores: &mut Vec<MemStore>,
) -> Result<Ran, AllocError> {
    let volume = MemSource::new(Blob::from_slice(alloc, volume.as_bytes())?, None);
    let script = MemSource::new(script, None);
    let sink = MemSink::new(alloc, None, None);
    Ok(run_from(alloc, words, volume, script, sink, stores))
}

/// Plays a script over these stores, which is to end so and to write these texts.
pub fn plays_over(
    rt: &(impl Abort + AllocGlobal),
    volume: &str,
    script: &[(&str, usize)],
    stores: &mut Vec<MemStore>,
    wanted: &[(&str, usize)],
    status: Status,
) -> Result<(), Fail> {
    let alloc = rt.alloc();
    let text = joined(alloc, wanted)?;
    let ran = run_over(alloc, &["play"], volume, joined(alloc, script)?, stores)?;
    assert_eq!(rt; ran.status, status, "{script:?}");
    assert_eq!(rt; ran.out.bytes(), text.items(), "{script:?}");
    Ok(())
}

/// Plays a script over so many fresh stores, which is to end so and to write these texts.
pub fn plays(
    rt: &(impl Abort + AllocGlobal),
    volume: &str,
    count: u64,
    script: &[(&str, usize)],
    wanted: &[(&str, usize)],
    status: Status,
) -> Result<(), Fail> {
    let mut stores = fresh(rt.alloc(), count)?;
    plays_over(rt, volume, script, &mut stores, wanted, status)
}
