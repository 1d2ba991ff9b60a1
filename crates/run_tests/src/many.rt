// Many writes of many files, while bricks stop and come back and a client dies.
use crate::playing::{FOUR_OF_SIX, add, fresh, run_over};
use ec_attr::Blob;
use ec_run::Status;
use std::alloc::Global;
use std::test::Fail;

/// The write whose client dies as it has asked for the heads.
const CUT_SHORT: usize = 251;

/// Whether a write is of the file, and is done.
fn is_of(write: usize, file: usize) -> bool {
    write % 40 == file && write != CUT_SHORT
}

/// The size of a file after the writes up to this one.
fn size_at(file: usize, last: usize) -> usize {
    let mut size = 0usize;
    for write in 1..301usize {
        if is_of(write, file) && write <= last {
            size = size.max(1000 * (write % 7) + 700);
        }
    }
    size
}

/// The byte that the last write of a file at a place put there.
fn byte_at(file: usize, place: usize) -> u8 {
    let mut byte = 0u8;
    for write in 1..301usize {
        if is_of(write, file) && write % 7 == place {
            byte = (write % 256) as u8;
        }
    }
    byte
}

/// The digits of a file after all writes: 700 bytes at each place, and zeros between.
fn add_bytes(alloc: Global, text: &mut Blob, file: usize) -> Result<(), Fail> {
    let size = size_at(file, 300);
    for place in 0..7usize {
        if 1000 * place < size {
            let byte = byte_at(file, place);
            let digits = format!(in alloc; "{byte:02x}")?;
            add(text, &[(digits.as_str(), 700)])?;
        }
        if 1000 * place + 700 < size {
            add(text, &[("00", 300)])?;
        }
    }
    Ok(())
}

/// Forty files are made, with gfids from 2 on.
fn add_creates(alloc: Global, script: &mut Blob, wanted: &mut Blob) -> Result<(), Fail> {
    for call in 1..41u8 {
        let tens = call / 10;
        let ones = call % 10;
        let line = format!(in alloc; "call 1 create 1 663{tens}3{ones}\nsettle\n")?;
        script.extend(line.as_bytes())?;
        let gfid = call + 1;
        let answer = format!(in alloc; "{call} child file {gfid}\n")?;
        wanted.extend(answer.as_bytes())?;
    }
    Ok(())
}

/// A write of one of three clients in turn, of which the fourth stands in for the one that died; and what happens after it.
fn add_write(alloc: Global, script: &mut Blob, write: usize) -> Result<(), Fail> {
    let client = match write % 3 {
        0 => 1u8,
        1 => 2,
        _ if write > CUT_SHORT => 4,
        _ => 3,
    };
    let after = match write {
        100 => "settle\nstop 5\n",
        150 => "settle\nreturn 5\n",
        200 => "settle\nstop 0\n",
        220 => "settle\nreturn 0\n",
        251 => "until 3 query\ndie 3\ncut 3 all\n",
        _ => "settle\n",
    };
    let gfid = 2 + write % 40;
    let off = 1000 * (write % 7);
    let byte = (write % 256) as u8;
    let line = format!(in alloc; "call {client} write {gfid} {off} {byte:02x}*700\n")?;
    script.extend(line.as_bytes())?;
    script.extend(after.as_bytes())?;
    Ok(())
}

/// Three hundred writes, each but the one that is cut short answered by the size of the file.
fn add_writes(alloc: Global, script: &mut Blob, wanted: &mut Blob) -> Result<(), Fail> {
    for write in 1..301usize {
        add_write(alloc, script, write)?;
        if write != CUT_SHORT {
            let call = 40 + write;
            let size = size_at(write % 40, write);
            let answer = format!(in alloc; "{call} ok {size}\n")?;
            wanted.extend(answer.as_bytes())?;
        }
    }
    Ok(())
}

/// A read of all of each file.
fn add_reads(alloc: Global, script: &mut Blob, wanted: &mut Blob) -> Result<(), Fail> {
    for file in 0..40usize {
        let gfid = 2 + file;
        let line = format!(in alloc; "call 1 read {gfid} 0 8000\nsettle\n")?;
        script.extend(line.as_bytes())?;
        let call = 341 + file;
        let answer = format!(in alloc; "{call} data ")?;
        wanted.extend(answer.as_bytes())?;
        add_bytes(alloc, wanted, file)?;
        wanted.extend(b"\n")?;
    }
    Ok(())
}

/// Bricks 5 and 0 miss writes one after the other, so four of six are left that read some of the files; the write that was cut
/// short is of none of them, and its call stays open.
#[test]
fn many_files_are_written(rt: HostRuntime) -> Result<(), Fail> {
    let alloc = rt.alloc();
    let mut script = Blob::new(alloc);
    let mut wanted = Blob::new(alloc);
    add_creates(alloc, &mut script, &mut wanted)?;
    add_writes(alloc, &mut script, &mut wanted)?;
    add_reads(alloc, &mut script, &mut wanted)?;
    wanted.extend(b"open 291\n")?;
    let mut stores = fresh(alloc, 6)?;
    let ran = run_over(alloc, &["play"], FOUR_OF_SIX, script, &mut stores)?;
    assert_eq!(rt; ran.status, Status::Done);
    assert_eq!(rt; ran.out.bytes(), wanted.items());
    Ok(())
}
