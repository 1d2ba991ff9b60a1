// The product by a constant, one element after another.
ghost use Rattle.std.specs.Prelude.{◌≡◌, ℕ, ◌<◌};
ghost use Rattle.ec_field.specs.Field.{product};
ghost use Rattle.ec_field.specs.Chunk.{element, IsChunk};

use crate::packing::{pack, unpack};
use ec_field::{Chunk, mul};

/// Every element times `a`, by the field's own product of elements: what `mul_const` gives, only slower.
pub fn mul_plain(a: u8, c: &Chunk) -> Chunk
    ensures product { (e : ℕ) → e < 512 → element result e ≡ product a (element c.now e) }
    ensures chunk { IsChunk result }
{
    let mut elements = [0; 512];
    unpack(c, &mut elements);
    for e in 0..512usize {
        elements[e] = mul(a, elements[e]);
    }
    pack(&elements)
}
