// Up to four chunks with their coefficients, whose sum shares its doublings.
ghost use Rattle.std.specs.Int.{bit_at};
ghost use Rattle.std.specs.Prelude.{◌≡◌, ℕ, ◌+◌, ◌*◌, ◌^◌, ◌<◌, ◌≤◌, length, slice_index, bit_xor};
ghost use Rattle.ec_field.specs.Chunk.{element};
ghost use Rattle.ec_field.specs.Code.{chunk_at};
ghost use Rattle.ec_bitslice.specs.Column.{HasElements};
ghost use Rattle.ec_bitslice.specs.Group.{bit_sum, horner};

use crate::column::Column;
use ec_field::Chunk;

/// The chunks of a group.
pub(crate) const FOUR: usize = 4;

/// Up to four chunks, the first of `chunks`, with a coefficient for each. Where there are fewer, the other
/// coefficients are 0.
#[derive(Drop)]
pub(crate) struct Group<'a> {
    coefficients: [u8; FOUR],
    /// The largest coefficient.
    largest: u8,
    chunks: &'a [Chunk],
    ghost byte: { largest < 2 ^ 8 },
    ghost bounded: { (j : ℕ) → slice_index coefficients j ≤ largest },
    ghost present: { (j : ℕ) → length chunks.now ≤ j → slice_index coefficients j ≡ 0 },
}

#[inline(always)]
fn at_or_zero(xs: &[u8], i: usize) -> u8
    ensures { result ≡ slice_index xs.now i }
{
    if i < xs.len() { xs[i] } else { 0 }
}

impl<'a> Group<'a> {
    #[inline(always)]
    pub(crate) fn new(coeffs: &[u8], chunks: &'a [Chunk]) -> Group<'a>
        requires { length coeffs.now ≡ length chunks.now }
        ensures coefficients { (j : ℕ) → j < 4 → slice_index result.coefficients j ≡ slice_index coeffs.now j }
        ensures chunks { result.chunks.now ≡ chunks.now }
    {
        let a = at_or_zero(coeffs, 0);
        let b = at_or_zero(coeffs, 1);
        let c = at_or_zero(coeffs, 2);
        let d = at_or_zero(coeffs, 3);
        Group {
            coefficients: [a, b, c, d],
            largest: a.max(b).max(c.max(d)),
            chunks,
        }
    }

    /// Adds chunk j where bit i of its coefficient is set. `chunks` are those of the group, here and below.
    #[inline(always)]
    fn plus_if(&self, chunks: &[Chunk], sum: Column, j: usize, i: u32, at: usize) -> Column
        requires same { chunks.now ≡ self.now.chunks.now }
        requires chunk { j < 4 }
        requires bit { i < 8 }
        requires room { at + 16 ≤ 64 }
        ensures { (f : ℕ → ℕ) → HasElements sum at f → HasElements result at (λ e. bit_xor (f e) (bit_at (slice_index self.now.coefficients j) i * element (chunk_at chunks.now j) e)) }
    {
        if self.coefficients[j] >> i & 1 == 1 {
            sum.plus(Column::load(&chunks[j], at))
        } else {
            sum
        }
    }

    /// Adds each chunk whose coefficient has bit i.
    #[inline(always)]
    fn plus_bit(&self, chunks: &[Chunk], sum: Column, i: u32, at: usize) -> Column
        requires same { chunks.now ≡ self.now.chunks.now }
        requires bit { i < 8 }
        requires room { at + 16 ≤ 64 }
        ensures { (f : ℕ → ℕ) → HasElements sum at f → HasElements result at (λ e. bit_xor (f e) (bit_sum self.now.coefficients chunks.now i e)) }
    {
        let sum = self.plus_if(chunks, sum, 0, i, at);
        let sum = self.plus_if(chunks, sum, 1, i, at);
        let sum = self.plus_if(chunks, sum, 2, i, at);
        self.plus_if(chunks, sum, 3, i, at)
    }

    /// A step of Horner's rule, from the bits above i to those from i on.
    #[inline(always)]
    fn step(&self, chunks: &[Chunk], sum: Column, i: u32, at: usize) -> Column
        requires same { chunks.now ≡ self.now.chunks.now }
        requires bit { i < 8 }
        requires room { at + 16 ≤ 64 }
        requires above { HasElements sum at (horner self.now.coefficients chunks.now (i + 1)) }
        ensures { HasElements result at (horner self.now.coefficients chunks.now i) }
    {
        if self.largest >> i == 0 {
            sum
        } else {
            self.plus_bit(chunks, sum.doubled(), i, at)
        }
    }

    /// The sum of the products of a column, from the highest bit of the coefficients down.
    // One copy for all columns: their tests are the same, so that each teaches the processor the next.
    #[inline(never)]
    pub(crate) fn combined(&self, at: usize) -> Column
        requires { at + 16 ≤ 64 }
        ensures { HasElements result at (horner self.now.coefficients self.now.chunks.now 0) }
    {
        // Taken once here, so that each step need not read where the chunks are.
        let chunks = self.chunks;
        let sum = self.step(chunks, Column::zero(), 7, at);
        let sum = self.step(chunks, sum, 6, at);
        let sum = self.step(chunks, sum, 5, at);
        let sum = self.step(chunks, sum, 4, at);
        let sum = self.step(chunks, sum, 3, at);
        let sum = self.step(chunks, sum, 2, at);
        let sum = self.step(chunks, sum, 1, at);
        self.step(chunks, sum, 0, at)
    }
}
