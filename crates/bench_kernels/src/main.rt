// Times the kernels of the code on stripes of 2+1, 4+2 and 16+15. It is no part of the product.
//
// With no argument it encodes and decodes a few stripes with each kernel, compares every byte and prints a digest of
// what the bricks hold. With the argument `time` it prints bytes of file a second.
#![tactic(auto)]

mod banks;
mod stripes;
mod timing;

use ec_bitslice::{dot, mul_const, mul_plain};
use ec_field::Chunk;
use std::{env, io};

fn main(rt: HostRuntime) -> io::Result<()> {
    let mut is_timed = false;
    for word in env::args(&rt)? {
        is_timed = is_timed || word.as_str() == "time";
    }
    banks::run(
        &rt,
        is_timed,
        |a: u8, c: &Chunk| mul_plain(a, c),
        |a: u8, c: &Chunk| mul_const(a, c),
        |a: &[u8], c: &[Chunk]| dot(a, c),
    )
}
