// Rows by the product of the field, element by element.
ghost use Rattle.std.specs.Prelude.{◌≡◌, ◌<◌, ℕ, length, slice_index};
ghost use Rattle.ec_field.specs.Chunk.{element, IsChunk};
ghost use Rattle.ec_field.specs.Code.{combined_element};

use ec_bank::{Bank, Multiply, RowTimes, times_plain};
use ec_field::Chunk;

/// Multiplies rows by chunks one element after another, by the product of the field.
pub struct PlainRows;

impl RowTimes for PlainRows {
    fn row(&self, coeffs: &[u8], chunks: &[Chunk]) -> Chunk {
        row_of_bank(|a: u8, c: &Chunk| times_plain(a, c), coeffs, chunks)
    }
}

/// The row of a bank over this product.
fn row_of_bank<F: Multiply>(f: F, coeffs: &[u8], chunks: &[Chunk]) -> Chunk
    requires kernel { F.multiplies f }
    requires lengths { length coeffs.now ≡ length chunks.now }
    ensures chunk { IsChunk result }
    ensures elements { (e : ℕ) → e < 512
        → element result e ≡ combined_element (length coeffs.now) (λ j. slice_index coeffs.now j) chunks.now e }
{
    Bank::new(f).row(coeffs, chunks)
}
