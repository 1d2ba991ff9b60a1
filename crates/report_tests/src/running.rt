// Commands that are run through the top call, over sources, a sink and stores in memory.
use ec_attr::Blob;
use ec_bank::{Bank, Combine, Multiply, RowBank};
use ec_bitslice::{dot, mul_plain};
use ec_field::Chunk;
use ec_run::{Status, run};
use ec_store::{MemSink, MemSource, MemStore};
use ec_wire::Log;
use std::alloc::{AllocError, Global};
use std::process::Abort;
use std::test::Fail;

/// Three bricks, of which any two read a file.
pub const TWO_OF_THREE: &str =
    "volume v\ntype cluster/disperse\noption redundancy 1\nsubvolumes a b c\nend-volume\n";

/// Six bricks, of which any four read a file.
pub const FOUR_OF_SIX: &str =
    "volume v\ntype cluster/disperse\noption redundancy 2\nsubvolumes a b c d e f\nend-volume\n";

/// The same, whose first four bricks keep the file's own bytes.
pub const SYSTEMATIC: &str =
    "volume v\ntype cluster/disperse\noption redundancy 2\noption code-rows systematic\n\
    subvolumes a b c d e f\nend-volume\n";

/// The most bricks that a volume can have, of which any sixteen read a file.
pub const SIXTEEN_OF_THIRTY_ONE: &str = "volume v\ntype cluster/disperse\noption redundancy 15\n\
    subvolumes a b c d e f g h i j k l m n o p q r s t u v w x y z A B C D E\nend-volume\n";

/// What a run left.
#[derive(Drop)]
pub struct Ran {
    pub status: Status,
    pub out: MemSink,
    pub log: Log,
}

/// So many stores without records, which never fail.
pub fn fresh(alloc: Global, count: u64) -> Result<Vec<MemStore>, AllocError> {
    let mut stores = Vec::new(alloc);
    for _ in 0..count {
        stores.push(MemStore::steady(alloc))?;
    }
    Ok(stores)
}

/// Runs words with these kernels.
fn run_with<F: Multiply, G: Combine>(
    alloc: Global,
    words: &[&str],
    volume: MemSource,
    script: MemSource,
    sink: MemSink,
    stores: &mut Vec<MemStore>,
    plain: F,
    fused: G,
) -> Ran
    requires plain { F.multiplies plain }
    requires fused { G.combines fused }
{
    let mut volume = volume;
    let mut script = script;
    let mut out = sink;
    let mut log = Log::new(alloc);
    let status = run(
        alloc,
        words,
        &mut volume,
        &mut script,
        &mut out,
        stores,
        &Bank::new(plain),
        &RowBank::new(fused),
        &mut log,
    );
    Ran { status, out, log }
}

/// Runs words over a volume file, a script and a sink, with the program's kernels.
pub fn run_from(
    alloc: Global,
    words: &[&str],
    volume: &str,
    script: MemSource,
    sink: MemSink,
    stores: &mut Vec<MemStore>,
) -> Result<Ran, AllocError> {
    let volume = MemSource::new(Blob::from_slice(alloc, volume.as_bytes())?, None);
    Ok(run_with(
        alloc,
        words,
        volume,
        script,
        sink,
        stores,
        |a: u8, c: &Chunk| mul_plain(a, c),
        |a: &[u8], c: &[Chunk]| dot(a, c),
    ))
}

/// Plays a script to its end, which is to write this text.
pub fn play(
    rt: &(impl Abort + AllocGlobal),
    volume: &str,
    script: &str,
    stores: &mut Vec<MemStore>,
    wanted: &str,
) -> Result<(), Fail> {
    let alloc = rt.alloc();
    let script = MemSource::new(Blob::from_slice(alloc, script.as_bytes())?, None);
    let sink = MemSink::new(alloc, None, None);
    let ran = run_from(alloc, &["play"], volume, script, sink, stores)?;
    assert_eq!(rt; ran.status, Status::Done);
    assert_eq!(rt; ran.out.bytes(), wanted.as_bytes());
    Ok(())
}

/// Runs a command whose script fails at its first read, which is to end so, to write this text and to log nothing.
pub fn reports(
    rt: &(impl Abort + AllocGlobal),
    words: &[&str],
    volume: &str,
    stores: &mut Vec<MemStore>,
    wanted: &str,
    status: Status,
) -> Result<(), Fail> {
    let alloc = rt.alloc();
    let script = MemSource::new(Blob::from_slice(alloc, b"deliver 99\n")?, Some(1));
    let sink = MemSink::new(alloc, None, None);
    let ran = run_from(alloc, words, volume, script, sink, stores)?;
    assert_eq!(rt; ran.status, status, "{words:?}");
    assert_eq!(rt; ran.out.bytes(), wanted.as_bytes(), "{words:?}");
    assert_eq!(rt; ran.log.len(), 0, "{words:?}");
    Ok(())
}
