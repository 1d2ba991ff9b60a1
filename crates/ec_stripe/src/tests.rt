ghost use Rattle.std.specs.Prelude.{◌≡◌, ◌<◌, ℕ, length, slice_index};
ghost use Rattle.ec_field.specs.Chunk.{element, IsChunk};
ghost use Rattle.ec_field.specs.Code.{combined_element};

use super::*;
use ec_attr::{BrickSet, Geometry};
use ec_bank::{Bank, Multiply, RowTimes, times_plain};
use ec_field::Chunk;
use std::process::Abort;

struct Plain;

fn row_of_bank<F: Multiply>(f: F, coeffs: &[u8], chunks: &[Chunk]) -> Chunk
    requires kernel { F.multiplies f }
    requires lengths { length coeffs.now ≡ length chunks.now }
    ensures chunk { IsChunk result }
    ensures elements { (e : ℕ) → e < 512
        → element result e ≡ combined_element (length coeffs.now) (λ j. slice_index coeffs.now j) chunks.now e }
{
    Bank::new(f).row(coeffs, chunks)
}

impl RowTimes for Plain {
    fn row(&self, coeffs: &[u8], chunks: &[Chunk]) -> Chunk {
        row_of_bank(|a: u8, c: &Chunk| times_plain(a, c), coeffs, chunks)
    }
}

/// A chunk with a value in these ranges of bytes and 0 elsewhere.
fn filled(value: u8, ranges: &[(usize, usize)]) -> Chunk {
    let mut bytes = [0u8; 512];
    for i in 0..512usize {
        if ranges.iter().any(|r| r.0 <= i && i < r.1) {
            bytes[i] = value;
        }
    }
    Chunk::from_array(bytes)
}

fn patterned(j: usize) -> Chunk
    requires { j < 16 }
{
    let mut bytes = [0u8; 512];
    for i in 0..512usize {
        bytes[i] = ((i * 7 + j * 31) % 251) as u8;
    }
    Chunk::from_array(bytes)
}

fn codes_are(rt: &impl Abort, g: &Geometry, stripe: &[Chunk; 2], codes: &[Chunk; 3]) {
    assert!(rt; g.n == 3 && g.r == 1);
    for b in 0..3u8 {
        assert!(rt;
            encode(&Plain, g, b, stripe) == codes[usize::from(b)],
            "brick {b}"
        );
    }
}

/// 2 times FF is E3 and 3 times FF is 1C, bit i of each in word i of a chunk. Bricks 0 and 1 of a systematic volume keep
/// the chunks as they are, and brick 2 their sum by F4 and F5; F4 times FF is 55.
#[test]
fn encodes_known_stripes(rt: HostRuntime) {
    let ones = filled(0xFF, &[(0, 512)]);
    let first = filled(1, &[(0, 1)]);
    let plain = Geometry::new(3, 1).expect(&rt, "2+1");
    codes_are(
        &rt,
        &plain,
        &[ones, Chunk::zero()],
        &[
            ones,
            filled(0xFF, &[(0, 128), (320, 512)]),
            filled(0xFF, &[(128, 320)]),
        ],
    );
    codes_are(
        &rt,
        &plain,
        &[first, Chunk::zero()],
        &[
            first,
            filled(1, &[(64, 65)]),
            filled(1, &[(0, 1), (64, 65)]),
        ],
    );
    codes_are(
        &rt,
        &plain.systematic(),
        &[ones, Chunk::zero()],
        &[
            ones,
            Chunk::zero(),
            filled(0xFF, &[(0, 64), (128, 192), (256, 320), (384, 448)]),
        ],
    );
}

/// Encodes a stripe at the bricks of a set, and decodes these codes.
fn round_trip(rt: &impl Abort, g: &Geometry, which: &BrickSet) {
    let k = usize::from(g.k());
    let mut chunks = [Chunk::zero(); 16];
    for j in 0..16usize {
        chunks[j] = patterned(j);
    }
    let stripe = &chunks[..k];
    let mut codes = [Chunk::zero(); 16];
    let mut count = 0;
    for b in 0..g.n {
        if which.has(b) && count < k {
            codes[count] = encode(&Plain, g, b, stripe);
            count += 1;
        }
    }
    let mut out = [Chunk::zero(); 16];
    assert!(rt; which.len() == g.k());
    decode(&Plain, g, which, &codes[..k], &mut out[..k]);
    let decoded = &out[..k];
    assert!(rt; decoded == stripe);
}

/// Each set of 4 bricks of 4+2, with both algorithms, and the last 16 bricks of 16+15.
#[test]
fn decodes_what_any_bricks_keep(rt: HostRuntime) {
    let g = Geometry::new(6, 2).expect(&rt, "4+2");
    for a in 0..6u8 {
        for b in 0..a {
            let mut which = BrickSet::empty();
            for c in 0..6u8 {
                if c != a && c != b {
                    which = which.plus(c);
                }
            }
            round_trip(&rt, &g, &which);
            round_trip(&rt, &g.systematic(), &which);
        }
    }
    let mut last = BrickSet::empty();
    for b in 15..31u8 {
        last = last.plus(b);
    }
    round_trip(&rt, &Geometry::new(31, 15).expect(&rt, "16+15"), &last);
}

/// Stripes of 2048 bytes, at their edges and at the greatest offset.
#[test]
fn divides_files_into_stripes(rt: HostRuntime) {
    let g = Geometry::new(6, 2).expect(&rt, "4+2");
    let most = 1u64 << 40;
    for (off, len, first, last, head, tail) in [
        (0u64, 1u64, 0u64, 0u64, 0u32, 2047u32),
        (0, 2048, 0, 0, 0, 0),
        (0, 2049, 0, 1, 0, 2047),
        (2047, 1, 0, 0, 2047, 0),
        (2047, 2, 0, 1, 2047, 2047),
        (2048, 4096, 1, 2, 0, 0),
        (most - 1, 1, (1 << 29) - 1, (1 << 29) - 1, 2047, 0),
        (0, most, 0, (1 << 29) - 1, 0, 0),
    ] {
        assert!(rt; 0 < len && len <= most && off <= most - len);
        assert_eq!(rt;
            span(&g, off, len),
            Span {
                first,
                last,
                head,
                tail
            }
        );
    }
    for (size, length) in [
        (0u64, 0u64),
        (1, 512),
        (2048, 512),
        (2049, 1024),
        (most, 1 << 38),
    ] {
        assert!(rt; size <= most);
        assert_eq!(rt; fragment_len(&g, size), length);
    }
}
