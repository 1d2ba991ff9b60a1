// The product of a chunk by a constant, one element after another.
ghost use Rattle.std.specs.Prelude.{◌≡◌, ◌<◌, ℕ};
ghost use Rattle.ec_field.specs.Field.{product};
ghost use Rattle.ec_field.specs.Chunk.{element, IsChunk};

use ec_field::{Chunk, element, mul};

/// The chunk times `a`, by the field's own product at each element.
pub fn times_plain(a: u8, c: &Chunk) -> Chunk
    ensures chunk { IsChunk result }
    ensures elements { (e : ℕ) → e < 512 → element result e ≡ product a (element c.now e) }
{
    let mut elements = [0u8; 512];
    for e in 0..512u16 {
        elements[usize::from(e)] = mul(a, element(c, e));
    }
    Chunk::from_elements(&elements)
}
