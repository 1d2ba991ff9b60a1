// Each kernel as a bank, on each kind of stripe.
ghost use Rattle.std.specs.Prelude.{◌≤◌};

use crate::stripes::{Work, digest};
use crate::timing::measure;
use ec_bank::{Bank, Combine, Multiply, RowBank, RowTimes};
use std::io;

/// Encodes and decodes by each bank, and compares.
fn compare<P: RowTimes, S: RowTimes, G: RowTimes>(
    rt: &HostRuntime,
    k: u8,
    n: u8,
    plain: &P,
    stored: &S,
    fused: &G,
) -> io::Result<()>
    requires least { 2 ≤ k }
    requires most { k ≤ 16 }
    requires order { k ≤ n }
    requires bricks { n ≤ 31 }
{
    let alloc = rt.alloc();
    let work = Work::new(alloc, k, n, 2)?;
    let codes = work.encoded(alloc, plain)?;
    let codes = codes.as_slice();
    let same = work.encodes(stored, codes) && work.encodes(fused, codes);
    let back = work.decodes(plain, codes)
        && work.decodes(stored, codes)
        && work.decodes(fused, codes);
    let whole = digest(codes);
    let more = n - k;
    println!(rt; "{k}+{more} same {same} back {back} digest {whole}")?;
    Ok(())
}

fn time<P: RowTimes, S: RowTimes, G: RowTimes>(
    rt: &HostRuntime,
    k: u8,
    n: u8,
    plain: &P,
    stored: &S,
    fused: &G,
) -> io::Result<()>
    requires least { 2 ≤ k }
    requires most { k ≤ 16 }
    requires order { k ≤ n }
    requires bricks { n ≤ 31 }
{
    let work = Work::new(rt.alloc(), k, n, 32)?;
    let more = n - k;
    measure(rt, &work, more, "plain", plain, 1)?;
    measure(rt, &work, more, "mul_const", stored, 40)?;
    measure(rt, &work, more, "dot", fused, 200)
}

/// Runs three kernels, each in a bank of its own, for their bytes or for their speed.
pub fn run<P: Multiply, S: Multiply, G: Combine>(
    rt: &HostRuntime,
    is_timed: bool,
    plain: P,
    stored: S,
    fused: G,
) -> io::Result<()>
    requires plain { P.multiplies plain }
    requires stored { S.multiplies stored }
    requires fused { G.combines fused }
{
    let plain = Bank::new(plain);
    let stored = Bank::new(stored);
    let fused = RowBank::new(fused);
    if is_timed {
        time(rt, 2, 3, &plain, &stored, &fused)?;
        time(rt, 4, 6, &plain, &stored, &fused)?;
        time(rt, 16, 31, &plain, &stored, &fused)
    } else {
        compare(rt, 2, 3, &plain, &stored, &fused)?;
        compare(rt, 4, 6, &plain, &stored, &fused)?;
        compare(rt, 16, 31, &plain, &stored, &fused)
    }
}
