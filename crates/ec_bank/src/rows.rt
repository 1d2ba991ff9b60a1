// Rows of coefficients times chunks.
ghost use Rattle.std.specs.Prelude.{◌≡◌, ◌<◌, ℕ, length, slice_index};
ghost use Rattle.ec_field.specs.Chunk.{element, IsChunk};
ghost use Rattle.ec_field.specs.Code.{combined_element};

use ec_field::Chunk;

/// What multiplies a row of coefficients by chunks. Encoding and decoding are proved for every such type.
pub trait RowTimes {
    /// The sum of the chunks, each times the coefficient at its place, element by element.
    fn row(&self, coeffs: &[u8], chunks: &[Chunk]) -> Chunk
        requires { length coeffs.now ≡ length chunks.now }
        ensures chunk { IsChunk result }
        ensures elements { (e : ℕ) → e < 512
            → element result e ≡ combined_element (length coeffs.now) (λ j. slice_index coeffs.now j) chunks.now e };
}
