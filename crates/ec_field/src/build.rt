// Chunks made of elements, and sums of chunks.
ghost use Rattle.std.specs.Prelude.{◌≡◌, ◌<◌, ◌+◌, ◌*◌, ℕ, bit_xor, slice_index};
ghost use Rattle.std.specs.Int.{bit_at};
ghost use Rattle.ec_field.specs.Chunk.{element, byte_of, IsChunk};

use crate::chunk::Chunk;

impl Chunk {
    /// The chunk of these elements.
    pub fn from_elements(elements: &[u8; 512]) -> Chunk
        ensures chunk { IsChunk result }
        ensures elements { (e : ℕ) → e < 512 → element result e ≡ slice_index elements.now e }
    {
        let mut bytes = [0u8; 512];
        for place in 0..512usize {
            bytes[place] = plane_byte(elements, place / 64, place % 64);
        }
        Chunk::from_array(bytes)
    }

    /// The sum of two chunks, element by element: the exclusive or of their bytes.
    pub fn plus(&self, other: &Chunk) -> Chunk
        ensures chunk { IsChunk result }
        ensures elements { (e : ℕ) → e < 512 → element result e ≡ bit_xor (element self.now e) (element other.now e) }
    {
        let ours = self.bytes();
        let theirs = other.bytes();
        let mut bytes = [0u8; 512];
        for place in 0..512usize {
            bytes[place] = ours[place] ^ theirs[place];
        }
        Chunk::from_array(bytes)
    }
}

/// The byte of a bit plane that has the bits of eight elements.
#[tactic(auto, using(crate::proofs::Sums::sums))]
fn plane_byte(elements: &[u8; 512], plane: usize, column: usize) -> u8
    requires plane { plane < 8 }
    requires column { column < 64 }
    ensures { result ≡ byte_of (λ j. bit_at (slice_index elements.now (8 * column + j)) plane) }
{
    let mut byte = 0u8;
    for j in 0..8usize {
        byte ^= (elements[8 * column + j] >> plane & 1) << j;
    }
    byte
}
