// The kernels on whole chunks.
ghost use Rattle.std.specs.Prelude.{◌≡◌, ℕ, ◌*◌, ◌<◌, length, slice_index, bit_xor};
ghost use Rattle.ec_field.specs.Field.{product};
ghost use Rattle.ec_field.specs.Chunk.{element, IsChunk};
ghost use Rattle.ec_field.specs.Code.{combined_element};
ghost use Rattle.ec_bitslice.specs.Column.{HasElements};

use crate::column::{COLUMNS, Column, LANES};
use crate::group::{FOUR, Group};
use ec_field::Chunk;
use std::slice;

/// Adds to the columns of the sum of the first four products those of all others. Each four share their doublings.
// All columns of four chunks come before the next four, since their tests are the same.
#[inline(never)]
fn add_others(
    coeffs: &[u8],
    chunks: &[Chunk],
    a: &mut Column,
    b: &mut Column,
    c: &mut Column,
    d: &mut Column,
)
    requires lengths { length coeffs.now ≡ length chunks.now }
    requires a { HasElements a.old 0 (combined_element 4 (λ j. slice_index coeffs.now j) chunks.now) }
    requires b { HasElements b.old LANES (combined_element 4 (λ j. slice_index coeffs.now j) chunks.now) }
    requires c { HasElements c.old (2 * LANES) (combined_element 4 (λ j. slice_index coeffs.now j) chunks.now) }
    requires d { HasElements d.old (3 * LANES) (combined_element 4 (λ j. slice_index coeffs.now j) chunks.now) }
    ensures a { HasElements a.new 0 (combined_element (length coeffs.now) (λ j. slice_index coeffs.now j) chunks.now) }
    ensures b { HasElements b.new LANES (combined_element (length coeffs.now) (λ j. slice_index coeffs.now j) chunks.now) }
    ensures c { HasElements c.new (2 * LANES) (combined_element (length coeffs.now) (λ j. slice_index coeffs.now j) chunks.now) }
    ensures d { HasElements d.new (3 * LANES) (combined_element (length coeffs.now) (λ j. slice_index coeffs.now j) chunks.now) }
{
    for four in 1..coeffs.len().div_ceil(FOUR) {
        let from = FOUR * four;
        let group = Group::new(&coeffs[from..], &chunks[from..]);
        *a = a.plus(group.combined(0));
        *b = b.plus(group.combined(LANES));
        *c = c.plus(group.combined(2 * LANES));
        *d = d.plus(group.combined(3 * LANES));
    }
}

/// Every element times `a`.
pub fn mul_const(a: u8, c: &Chunk) -> Chunk
    ensures product { (e : ℕ) → e < 512 → element result e ≡ product a (element c.now e) }
    ensures chunk { IsChunk result }
{
    dot(&[a], slice::from_ref(c))
}

/// Adds every element of `c`, times `a`, to that of `acc`.
pub fn muladd(a: u8, c: &Chunk, acc: &mut Chunk)
    ensures sum { (e : ℕ) → e < 512 → element acc.new e ≡ bit_xor (element acc.old e) (product a (element c.now e)) }
    ensures chunk { IsChunk acc.new }
{
    let group = Group::new(&[a], slice::from_ref(c));
    for i in 0..COLUMNS {
        let at = LANES * i;
        Column::load(acc, at)
            .plus(group.combined(at))
            .store(at, acc);
    }
}

// The columns are all made before they are stored, so that the zeros need not be written at all.
/// The sum of the chunks, each times its coefficient.
pub fn dot(coeffs: &[u8], chunks: &[Chunk]) -> Chunk
    requires { length coeffs.now ≡ length chunks.now }
    ensures sum { (e : ℕ) → e < 512 → element result e ≡ combined_element (length coeffs.now) (λ j. slice_index coeffs.now j) chunks.now e }
    ensures chunk { IsChunk result }
{
    let first = Group::new(coeffs, chunks);
    let mut a = first.combined(0);
    let mut b = first.combined(LANES);
    let mut c = first.combined(2 * LANES);
    let mut d = first.combined(3 * LANES);
    add_others(coeffs, chunks, &mut a, &mut b, &mut c, &mut d);
    let mut sum = Chunk::zero();
    a.store(0, &mut sum);
    b.store(LANES, &mut sum);
    c.store(2 * LANES, &mut sum);
    d.store(3 * LANES, &mut sum);
    sum
}
