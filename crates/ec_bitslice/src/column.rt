// A column of a chunk: 16 bytes of each of its 8 planes, which are 128 elements. The eight vectors fit the registers,
// where those of whole planes of 64 bytes would not.
ghost use Rattle.std.specs.Prelude.{◌≡◌, ℕ, ◌+◌, ◌*◌, ◌<◌, ◌≤◌, length, slice_index, bit_xor};
ghost use Rattle.ec_field.specs.Field.{product};
ghost use Rattle.ec_field.specs.Chunk.{element};
ghost use Rattle.ec_bitslice.specs.Column.{lane_element, HasElements, StoresColumn, StoresLanes};

use ec_field::Chunk;
use std::simd::prelude::*;

/// The bytes of a plane in a column.
pub(crate) const LANES: usize = 16;

/// The columns of a chunk.
pub(crate) const COLUMNS: usize = 4;

/// Plane i of a column is `p` with the number i.
#[derive(Clone, Copy)]
pub(crate) struct Column {
    p0: u8x16,
    p1: u8x16,
    p2: u8x16,
    p3: u8x16,
    p4: u8x16,
    p5: u8x16,
    p6: u8x16,
    p7: u8x16,
}

#[inline(always)]
fn load_lanes(bytes: &[u8], at: usize) -> u8x16
    requires { at + 16 ≤ length bytes.now }
    ensures { (x : ℕ) → x < 16 → slice_index result x ≡ slice_index bytes.now (at + x) }
{
    u8x16::from_slice(&bytes[at..])
}

#[inline(always)]
fn store_lanes(lanes: u8x16, at: usize, chunk: &mut Chunk)
    requires { at + 16 ≤ 512 }
    ensures { StoresLanes lanes at chunk.old chunk.new }
{
    chunk.store(at, lanes);
}

#[inline(always)]
fn zeros() -> u8x16
    ensures { (x : ℕ) → slice_index result x ≡ 0 }
{
    u8x16::splat(0)
}

#[inline(always)]
fn sum(a: u8x16, b: u8x16) -> u8x16
    ensures { (x : ℕ) → slice_index result x ≡ bit_xor (slice_index a x) (slice_index b x) }
{
    a ^ b
}

impl Column {
    /// Elements that are all 0.
    #[inline(always)]
    pub(crate) fn zero() -> Column
        ensures { (x k : ℕ) → lane_element result x k ≡ 0 }
    {
        let zero = zeros();
        Column {
            p0: zero,
            p1: zero,
            p2: zero,
            p3: zero,
            p4: zero,
            p5: zero,
            p6: zero,
            p7: zero,
        }
    }

    /// The column of a chunk that begins at byte `at` of each plane.
    #[inline(always)]
    pub(crate) fn load(chunk: &Chunk, at: usize) -> Column
        requires { at + 16 ≤ 64 }
        ensures { HasElements result at (element chunk.now) }
    {
        let bytes = chunk.bytes();
        Column {
            p0: load_lanes(bytes, at),
            p1: load_lanes(bytes, 64 + at),
            p2: load_lanes(bytes, 128 + at),
            p3: load_lanes(bytes, 192 + at),
            p4: load_lanes(bytes, 256 + at),
            p5: load_lanes(bytes, 320 + at),
            p6: load_lanes(bytes, 384 + at),
            p7: load_lanes(bytes, 448 + at),
        }
    }

    /// The sum of each two elements.
    #[inline(always)]
    pub(crate) fn plus(self, other: Column) -> Column
        ensures { (x k : ℕ) → lane_element result x k ≡ bit_xor (lane_element self x k) (lane_element other x k) }
    {
        Column {
            p0: sum(self.p0, other.p0),
            p1: sum(self.p1, other.p1),
            p2: sum(self.p2, other.p2),
            p3: sum(self.p3, other.p3),
            p4: sum(self.p4, other.p4),
            p5: sum(self.p5, other.p5),
            p6: sum(self.p6, other.p6),
            p7: sum(self.p7, other.p7),
        }
    }

    /// Each element times 2: each plane moves up by one, and the top plane comes back in as the lower terms of the
    /// modulus, x^4+x^3+x^2+1.
    #[inline(always)]
    pub(crate) fn doubled(self) -> Column
        ensures { (x k : ℕ) → lane_element result x k ≡ product 2 (lane_element self x k) }
    {
        Column {
            p0: self.p7,
            p1: self.p0,
            p2: sum(self.p1, self.p7),
            p3: sum(self.p2, self.p7),
            p4: sum(self.p3, self.p7),
            p5: self.p4,
            p6: self.p5,
            p7: self.p6,
        }
    }

    /// Writes the column to byte `at` of each plane.
    #[inline(always)]
    pub(crate) fn store(self, at: usize, chunk: &mut Chunk)
        requires { at + 16 ≤ 64 }
        ensures { StoresColumn self at chunk.old chunk.new }
    {
        store_lanes(self.p0, at, chunk);
        store_lanes(self.p1, 64 + at, chunk);
        store_lanes(self.p2, 128 + at, chunk);
        store_lanes(self.p3, 192 + at, chunk);
        store_lanes(self.p4, 256 + at, chunk);
        store_lanes(self.p5, 320 + at, chunk);
        store_lanes(self.p6, 384 + at, chunk);
        store_lanes(self.p7, 448 + at, chunk);
    }
}
