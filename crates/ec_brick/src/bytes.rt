// How many bytes a write has.
ghost use Rattle.std.specs.Prelude.{◌≡◌, ◌*◌, ◌≤◌, ◌^◌, IfSome, length};
ghost use Rattle.ec_brick.specs.Bytes.{bytes_in};
ghost use Rattle.ec_brick.specs.Fit.{IsFit, IsWriteOf};
ghost use Rattle.ec_brick.specs.Work.{bytes_of};

use ec_wire::{ChunkList, Request};

/// How many bytes chunks have, which is 512 each.
fn count_bytes(chunks: &ChunkList) -> u64
    requires few { length chunks.now ≤ 2 ^ 30 }
    ensures bytes { result ≡ length (bytes_of chunks.now) }
    ensures each { result ≡ 512 * length chunks.now }
{
    let mut count = 0u64;
    for c in chunks.items() {
        count += c.bytes().len() as u64;
    }
    count
}

/// How many bytes a WriteChunks has, None of another request.
pub fn bytes_in(request: &Request) -> Option<u64>
    requires { IsFit request.now }
    ensures value { result ≡ bytes_in request.now }
    ensures writes { IfSome result (IsWriteOf request.now) }
{
    match request {
        Request::WriteChunks { chunks, .. } => Some(count_bytes(chunks)),
        _ => None,
    }
}
