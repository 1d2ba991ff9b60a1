// A chunk of 512 bytes, and its elements.
ghost use Rattle.std.specs.Prelude.{◌≡◌, ◌<◌};
ghost use Rattle.ec_field.specs.Chunk.{element, zero_chunk, IsChunk};

mod lanes;

use std::marker::Model;

/// 512 bytes: what one brick keeps of a stripe, or one part of the stripe itself. As elements of the field it is
/// 8 bit planes of 64 bytes.
#[derive(Clone, Copy, Debug, PartialEq, Eq)]
pub struct Chunk {
    bytes: [u8; 512],
}

impl Model for Chunk {
    ghost use Rattle.std.specs.Prelude.{List, ℕ};
    ghost use Rattle.ec_field.specs.Chunk.{IsChunk};

    ghost Value = { List ℕ };

    ghost view = { λ c. c.bytes };

    ghost invariant = { λ c. IsChunk c.bytes };

    ghost inverse = { λ bytes. record { bytes = bytes } };
}

impl Chunk {
    /// 512 bytes of zeros.
    pub fn zero() -> Chunk
        ensures value { result ≡ zero_chunk }
        ensures chunk { IsChunk result }
    {
        Chunk { bytes: [0; 512] }
    }

    /// A chunk of these bytes.
    pub fn from_array(a: [u8; 512]) -> Chunk
        ensures value { result ≡ a }
        ensures chunk { IsChunk result }
    {
        Chunk { bytes: a }
    }

    /// The bytes, 512 of them.
    pub fn bytes(&self) -> &[u8]
        ensures value { result.now ≡ self.now }
        ensures chunk { IsChunk self.now }
    {
        &self.bytes
    }
}

/// Element `e` of a chunk, one bit of each plane.
pub fn element(c: &Chunk, e: u16) -> u8
    requires { e < 512 }
    ensures { result ≡ element c.now e }
{
    let byte = usize::from(e / 8);
    let mut value = 0u8;
    for i in 0..8usize {
        value ^= (c.bytes[64 * i + byte] >> (e % 8) & 1) << i;
    }
    value
}
