// From elements, one byte each, to bit planes and back.
ghost use Rattle.std.specs.Prelude.{◌≡◌, ℕ, List, ◌+◌, ◌*◌, ◌<◌, ◌≤◌, length, slice_index};
ghost use Rattle.std.specs.Int.{bit_at};
ghost use Rattle.ec_field.specs.Chunk.{IsChunk};
ghost use Rattle.ec_bitslice.specs.Packing.{IsPacked};

use ec_field::{Chunk, element};
use std::simd::prelude::*;

/// Bit `i` of eight elements, the first of which is `from`.
#[inline(always)]
fn plane_byte(elements: &[u8], from: usize, i: u32) -> u8
    requires bit { i < 8 }
    requires room { from + 8 ≤ length elements.now }
    ensures { (k : ℕ) → k < 8 → bit_at result k ≡ bit_at (slice_index elements.now (from + k)) i }
{
    let eight = u8x8::from_slice(&elements[from..]);
    let bit = u8x8::splat(1 << i);
    (eight & bit).simd_eq(bit).to_bitmask() as u8
}

/// The chunk of 512 elements.
pub fn pack(elements: &[u8]) -> Chunk
    requires { length elements.now ≡ 512 }
    ensures elements { IsPacked elements.now result }
    ensures chunk { IsChunk result }

    // What `unpack` writes of a chunk is packed to that chunk.
    ensures inverse { (chunk : List ℕ) → IsChunk chunk → IsPacked elements.now chunk → result ≡ chunk }
{
    let mut planes = [0u8; 512];
    for i in 0..8u32 {
        for byte in 0..64usize {
            planes[64 * i as usize + byte] = plane_byte(elements, 8 * byte, i);
        }
    }
    Chunk::from_array(planes)
}

/// Writes the 512 elements of a chunk.
pub fn unpack(c: &Chunk, out: &mut [u8])
    requires { length out.old ≡ 512 }
    ensures elements { IsPacked out.new c.now }

    // What `pack` makes of elements is unpacked to these elements.
    ensures inverse { (elements : List ℕ) → length elements ≡ 512 → IsPacked elements c.now → out.new ≡ elements }
{
    for e in 0..512u16 {
        out[usize::from(e)] = element(c, e);
    }
}
