// How fast a kernel encodes and decodes.
use crate::stripes::{Work, apply, blank, digest};
use ec_bank::RowTimes;
use ec_field::Chunk;
use std::io;
use std::time::Instant;

/// The least time, in nanoseconds, of `rounds` passes over all inputs.
fn least<T: RowTimes>(
    rt: &HostRuntime,
    bank: &T,
    rows: &[Vec<u8>],
    inputs: &[Vec<Chunk>],
    skip: usize,
    outs: &mut [Vec<Chunk>],
    rounds: u32,
) -> io::Result<u64> {
    let mut least = u64::MAX;
    for _ in 0..rounds {
        let start = Instant::now(rt)?;
        for (input, out) in inputs.iter().zip(outs.iter_mut()) {
            if skip <= input.len() {
                apply(bank, rows, &input[skip..], out.as_mut_slice());
            }
        }
        let took = start.elapsed(rt)?.as_nanos();
        least = least.min(u64::try_from(took).unwrap_or(u64::MAX));
    }
    Ok(least)
}

/// Prints bytes of file a second, and a digest of all that was written.
pub fn measure<T: RowTimes>(
    rt: &HostRuntime,
    work: &Work,
    more: u8,
    name: &str,
    bank: &T,
    rounds: u32,
) -> io::Result<()> {
    let alloc = rt.alloc();
    let (k, n) = (work.k, work.n);
    let stripes = work.stripes.as_slice();
    let mut codes = blank(alloc, stripes.len(), n)?;
    let encode = least(
        rt,
        bank,
        work.rows.as_slice(),
        stripes,
        0,
        codes.as_mut_slice(),
        rounds,
    )?;
    let mut back = blank(alloc, stripes.len(), k)?;
    let rows = work.inverse.as_slice();
    let skip = usize::from(more);
    let decode = least(
        rt,
        bank,
        rows,
        codes.as_slice(),
        skip,
        back.as_mut_slice(),
        rounds,
    )?;
    let file = 512 * u128::from(k) * u128::from(stripes.len() as u64) * 1_000_000_000;
    let encode = file / u128::from(encode.max(1));
    let decode = file / u128::from(decode.max(1));
    let whole = digest(codes.as_slice()) ^ digest(back.as_slice());
    println!(rt; "{k}+{more} {name} encode {encode} decode {decode} digest {whole}")?;
    Ok(())
}
