// Writes to a chunk by vectors of lanes.
ghost use Rattle.std.specs.Prelude.{◌≡◌, ◌+◌, ◌≤◌, length};
ghost use Rattle.std.specs.Simd.Lanes.{put_chunk};
ghost use Rattle.ec_field.specs.Chunk.{IsChunk};

use super::Chunk;
use std::simd::prelude::*;

#[inline(always)]
fn put(bytes: &mut [u8], at: usize, lanes: u8x16)
    requires { at + 16 ≤ length bytes.old }
    ensures { bytes.new ≡ put_chunk at bytes.old lanes }
{
    lanes.copy_to_slice(&mut bytes[at..]);
}

impl Chunk {
    /// Writes 16 bytes, from byte `at` on, which is byte `at % 64` of plane `at / 64`.
    #[inline(always)]
    pub fn store(&mut self, at: usize, lanes: u8x16)
        requires { at + 16 ≤ 512 }
        ensures value { self.new ≡ put_chunk at self.old lanes }
        ensures chunk { IsChunk self.new }
    {
        put(&mut self.bytes, at, lanes);
    }
}
